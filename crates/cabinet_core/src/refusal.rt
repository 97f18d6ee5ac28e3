//! Why the register refuses a command: one table of numbers and names.

ghost use Rattle.std.specs.Prelude.{◌≡◌};
ghost use Rattle.cabinet_core.specs.Refusal.{line_of};

use std::alloc::{AllocError, AllocFailed};

/// Why a command on the register is refused. Nothing is then changed.
#[derive(Clone, Copy, Debug, PartialEq, Eq)]
pub enum CabinetRefusal {
    /// Another inspection has the number.
    InspectionDiffers,
    /// Another order has the number.
    OrderDiffers,
    /// There is no such order.
    UnknownOrder,
    /// The order is closed.
    OrderClosed,
    /// The order was opened on a later day than the closing.
    DayBeforeOpening,
    /// Too few pieces are on hand.
    NoStock,
    /// More than 999,999,999 pieces would then be on hand.
    StockFull,
    /// Another delivery of the part has the number.
    DeliveryDiffers,
    /// Another line of the order has the number.
    LineDiffers,
    /// The order was closed on another day or by another clerk.
    CloseDiffers,
    /// Memory was refused. It comes only if the command would change the register.
    NoMemory,
}

impl CabinetRefusal {
    /// The refusal's number and name.
    fn line(self) -> (u32, &'static str)
        ensures number { result.0 ≡ (line_of self).0 }
        ensures name { result.1.now ≡ (line_of self).1 }
    {
        match self {
            CabinetRefusal::InspectionDiffers => (20, "InspectionDiffers"),
            CabinetRefusal::OrderDiffers => (21, "OrderDiffers"),
            CabinetRefusal::UnknownOrder => (22, "UnknownOrder"),
            CabinetRefusal::OrderClosed => (23, "OrderClosed"),
            CabinetRefusal::DayBeforeOpening => (24, "DayBeforeOpening"),
            CabinetRefusal::NoStock => (25, "NoStock"),
            CabinetRefusal::StockFull => (26, "StockFull"),
            CabinetRefusal::DeliveryDiffers => (27, "DeliveryDiffers"),
            CabinetRefusal::LineDiffers => (28, "LineDiffers"),
            CabinetRefusal::CloseDiffers => (29, "CloseDiffers"),
            CabinetRefusal::NoMemory => (90, "Unavailable"),
        }
    }

    /// The refusal's number, by which clients know it: 20 to 29, or 90 for `NoMemory`.
    pub fn number(self) -> u32
        ensures { result ≡ (line_of self).0 }
    {
        self.line().0
    }

    /// The refusal's name, as answers show it.
    pub fn name(self) -> &'static str
        ensures { result.now ≡ (line_of self).1 }
    {
        self.line().1
    }
}

impl From<AllocError> for CabinetRefusal {
    ghost use Rattle.std.specs.Prelude.{◌≡◌};
    ghost use Rattle.cabinet_core.specs.declared.refusal.CabinetRefusal.TheVariants as refusal;

    ghost from_gives = { λ _ e. e ≡ refusal.NoMemory };

    fn from(_error: AllocError) -> CabinetRefusal {
        CabinetRefusal::NoMemory
    }
}

impl<T: Drop> From<AllocFailed<T>> for CabinetRefusal {
    ghost use Rattle.std.specs.Prelude.{◌≡◌};
    ghost use Rattle.cabinet_core.specs.declared.refusal.CabinetRefusal.TheVariants as refusal;

    ghost from_gives = { λ _ e. e ≡ refusal.NoMemory };

    fn from(_error: AllocFailed<T>) -> CabinetRefusal {
        CabinetRefusal::NoMemory
    }
}
