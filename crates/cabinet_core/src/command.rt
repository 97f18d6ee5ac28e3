//! The commands of the cabinet register.

ghost use Rattle.std.specs.Prelude.{◌≡◌};

use crate::record::{Closing, Delivery, Inspection, Opening, UsedLine};
use signal_values::{InterId, RecordNo};
use std::alloc::AllocError;

/// A command of the register; `id` is the intersection whose cabinet it is about.
#[derive(Drop)]
pub enum RecordCommand {
    /// Records an inspection.
    Inspect {
        id: InterId,
        inspection: Inspection,
    },
    /// Opens an order.
    OpenOrder {
        id: InterId,
        opening: Opening,
    },
    /// Takes a part from stock for an order.
    UsePart {
        id: InterId,
        line: UsedLine,
    },
    /// Closes an order.
    CloseOrder {
        id: InterId,
        order: RecordNo,
        closing: Closing,
    },
    /// Takes a delivery into stock.
    Receive {
        delivery: Delivery,
    },
}

impl Clone for RecordCommand {
    ghost is_clone = { λ command copy. copy ≡ command };

    fn clone(&self) -> Result<RecordCommand, AllocError> {
        Ok(match self {
            RecordCommand::Inspect { id, inspection } => RecordCommand::Inspect {
                id: *id,
                inspection: inspection.clone()?,
            },
            RecordCommand::OpenOrder { id, opening } => RecordCommand::OpenOrder {
                id: *id,
                opening: opening.clone()?,
            },
            RecordCommand::UsePart { id, line } => RecordCommand::UsePart {
                id: *id,
                line: line.clone()?,
            },
            RecordCommand::CloseOrder { id, order, closing } => RecordCommand::CloseOrder {
                id: *id,
                order: *order,
                closing: closing.clone()?,
            },
            RecordCommand::Receive { delivery } => RecordCommand::Receive {
                delivery: delivery.clone()?,
            },
        })
    }
}
