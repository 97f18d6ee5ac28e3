//! The keys of the register's rows, and the records under them.

ghost use Rattle.std.specs.Prelude.{◌≡◌, ℕ, List};
ghost use Rattle.office_tables_shelf.specs.Places.{found_at};
ghost use Rattle.office_tables_shelf.specs.Places as place;

use cabinet_core::{Delivery, Hand, Inspection, Order, PartCode, UsedLine};
use signal_records::{InterId, LineNo, RecordNo};

/// The key of a row of the register, which also says its table.
#[derive(Drop)]
pub enum RegisterKey<'a> {
    /// An intersection, and the number of an inspection of its cabinet.
    Inspection(InterId, RecordNo),
    /// An intersection, and the number of an order on it.
    Order(InterId, RecordNo),
    /// An intersection, the number of an order on it, and the line of a part used for the order.
    Line(InterId, RecordNo, LineNo),
    /// A part; its row says how many are on hand.
    Part(&'a PartCode),
    /// A part, and the number of a delivery of it.
    Delivery(&'a PartCode, RecordNo),
}

/// A record of the register, of whichever kind.
#[derive(Drop)]
pub enum RegisterRecord {
    Inspection(Inspection),
    Order(Order),
    Line(UsedLine),
    /// How many of a part are on hand.
    Part(Hand),
    Delivery(Delivery),
}

impl RegisterRecord {
    /// The inspection that was found, if one was.
    pub fn inspection(found: Option<RegisterRecord>) -> Option<Inspection>
        ensures { (id n : ℕ) → result ≡ found_at (place.Inspection id n) found }
    {
        match found {
            Some(RegisterRecord::Inspection(inspection)) => Some(inspection),
            _ => None,
        }
    }

    /// The order that was found, if one was.
    pub fn order(found: Option<RegisterRecord>) -> Option<Order>
        ensures { (id n : ℕ) → result ≡ found_at (place.Order id n) found }
    {
        match found {
            Some(RegisterRecord::Order(order)) => Some(order),
            _ => None,
        }
    }

    /// The used part that was found, if one was.
    pub fn line(found: Option<RegisterRecord>) -> Option<UsedLine>
        ensures { (id order line : ℕ) → result ≡ found_at (place.Line id order line) found }
    {
        match found {
            Some(RegisterRecord::Line(line)) => Some(line),
            _ => None,
        }
    }

    /// How many of a part are on hand, if its row was found.
    pub fn hand(found: Option<RegisterRecord>) -> Option<Hand>
        ensures { (code : List ℕ) → result ≡ found_at (place.Part code) found }
    {
        match &found {
            Some(RegisterRecord::Part(hand)) => Some(*hand),
            _ => None,
        }
    }

    /// The delivery that was found, if one was.
    pub fn delivery(found: Option<RegisterRecord>) -> Option<Delivery>
        ensures { (code : List ℕ) (n : ℕ) → result ≡ found_at (place.Delivery code n) found }
    {
        match found {
            Some(RegisterRecord::Delivery(delivery)) => Some(delivery),
            _ => None,
        }
    }
}
