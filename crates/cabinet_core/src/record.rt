//! The records of the cabinet register.

ghost use Rattle.std.specs.Prelude.{◌≡◌, option_map};

use crate::day::Day;
use crate::ordered::{Ordered, Placed};
use crate::part::PartCode;
use signal_values::{Amount, LineNo, RecordNo, Words};
use std::alloc::AllocError;

/// An inspection of a cabinet.
#[derive(Drop, PartialEq, Eq)]
pub struct Inspection {
    pub number: RecordNo,
    pub day: Day,
    pub clerk: Words<40>,
    /// What was found.
    pub text: Words<500>,
}

/// The opening of an order: when, by whom, and what for.
#[derive(Drop, PartialEq, Eq)]
pub struct Opening {
    pub number: RecordNo,
    pub day: Day,
    pub clerk: Words<40>,
    /// What is to be done.
    pub text: Words<500>,
}

/// When and by whom an order is closed.
#[derive(Drop, PartialEq, Eq)]
pub struct Closing {
    pub day: Day,
    /// The clerk who closed the order.
    pub closer: Words<40>,
}

/// An order for work on a cabinet.
#[derive(Drop, PartialEq, Eq)]
pub struct Order {
    pub number: RecordNo,
    /// The day on which the order was opened.
    pub opened: Day,
    /// The clerk who opened the order.
    pub clerk: Words<40>,
    /// What is to be done.
    pub text: Words<500>,
    /// When and by whom the order was closed; none while it is open.
    pub closing: Option<Closing>,
}

/// A part that was used for an order.
#[derive(Drop, PartialEq, Eq)]
pub struct UsedLine {
    pub order: RecordNo,
    pub line: LineNo,
    pub part: PartCode,
    /// How many pieces.
    pub count: Amount,
}

/// A delivery of a part.
#[derive(Drop, PartialEq, Eq)]
pub struct Delivery {
    pub part: PartCode,
    pub number: RecordNo,
    pub day: Day,
    /// How many pieces.
    pub count: Amount,
}

/// What the register holds of an intersection.
#[derive(Drop)]
pub struct CabinetView {
    /// The inspections, in the order of their numbers.
    pub inspections: Ordered<Inspection>,
    /// The orders, in the order of their numbers.
    pub orders: Ordered<Order>,
    /// The used parts, in the order of their orders' numbers, and in an order by their lines.
    pub lines: Ordered<UsedLine>,
}

impl Placed for Inspection {
    ghost use Rattle.cabinet_core.specs.Places.{inspection_place};

    ghost place = { inspection_place };

    fn place(&self) -> u32 {
        self.number.get()
    }
}

impl Placed for Order {
    ghost use Rattle.cabinet_core.specs.Places.{order_place};

    ghost place = { order_place };

    fn place(&self) -> u32 {
        self.number.get()
    }
}

impl Placed for UsedLine {
    ghost use Rattle.cabinet_core.specs.Places.{line_place};

    ghost place = { line_place };

    fn place(&self) -> u32 {
        self.order.get() * 100 + u32::from(self.line.get())
    }
}

impl Order {
    /// The day on which the order was closed; none while it is open.
    pub fn closed(&self) -> Option<Day>
        ensures { result ≡ option_map (λ closing. closing.day) self.now.closing }
    {
        match &self.closing {
            Some(closing) => Some(closing.day),
            None => None,
        }
    }

    /// The clerk who closed the order; none while it is open.
    pub fn closer(&self) -> Option<&Words<40>>
        ensures { option_map (λ closer. closer.now) result ≡ option_map
            (λ closing. closing.closer) self.now.closing }
    {
        match &self.closing {
            Some(closing) => Some(&closing.closer),
            None => None,
        }
    }
}

impl Clone for Inspection {
    ghost is_clone = { λ inspection copy. copy ≡ inspection };

    fn clone(&self) -> Result<Inspection, AllocError> {
        Ok(Inspection {
            number: self.number,
            day: self.day,
            clerk: self.clerk.clone()?,
            text: self.text.clone()?,
        })
    }
}

impl Clone for Opening {
    ghost is_clone = { λ opening copy. copy ≡ opening };

    fn clone(&self) -> Result<Opening, AllocError> {
        Ok(Opening {
            number: self.number,
            day: self.day,
            clerk: self.clerk.clone()?,
            text: self.text.clone()?,
        })
    }
}

impl Clone for Closing {
    ghost is_clone = { λ closing copy. copy ≡ closing };

    fn clone(&self) -> Result<Closing, AllocError> {
        Ok(Closing {
            day: self.day,
            closer: self.closer.clone()?,
        })
    }
}

impl Clone for Order {
    ghost is_clone = { λ order copy. copy ≡ order };

    fn clone(&self) -> Result<Order, AllocError> {
        let closing = match &self.closing {
            Some(closing) => Some(closing.clone()?),
            None => None,
        };
        Ok(Order {
            number: self.number,
            opened: self.opened,
            clerk: self.clerk.clone()?,
            text: self.text.clone()?,
            closing,
        })
    }
}

impl Clone for UsedLine {
    ghost is_clone = { λ line copy. copy ≡ line };

    fn clone(&self) -> Result<UsedLine, AllocError> {
        Ok(UsedLine {
            order: self.order,
            line: self.line,
            part: self.part.clone()?,
            count: self.count,
        })
    }
}

impl Clone for Delivery {
    ghost is_clone = { λ delivery copy. copy ≡ delivery };

    fn clone(&self) -> Result<Delivery, AllocError> {
        Ok(Delivery {
            part: self.part.clone()?,
            number: self.number,
            day: self.day,
            count: self.count,
        })
    }
}
