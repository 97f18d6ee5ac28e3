//! What the office is asked to do.

ghost use Rattle.std.specs.Prelude.{◌≡◌};

use crate::records::Records;
use cabinet_core::{Closing, Day, Delivery, Inspection, Opening, RecordCommand, UsedLine};
use draft_core::changes::Changes;
use signal_records::{InterId, Interval, RecordNo, Words};

/// What the office is asked to do. `clerk` is who asks: only the clerk who began a transaction may
/// go on with it, but any clerk may abandon it.
#[derive(Drop)]
pub enum Command {
    /// Adds an intersection; the same number, name and interval again change nothing.
    AddIntersection {
        id: InterId,
        /// Days from one inspection of its cabinet to the next.
        interval: Interval,
        name: Words<120>,
    },
    /// Begins a transaction: the draft is the committed timing set.
    Begin {
        id: InterId,
        clerk: Words<40>,
    },
    /// Changes the draft, in the order of the changes.
    Edit {
        id: InterId,
        clerk: Words<40>,
        changes: Changes,
    },
    /// Hands the draft over to be checked.
    Verify {
        id: InterId,
        clerk: Words<40>,
    },
    /// Checks the draft against the rules.
    Check {
        id: InterId,
        clerk: Words<40>,
    },
    /// Makes a checked draft that breaks no rule the committed timing set.
    Commit {
        id: InterId,
        clerk: Words<40>,
    },
    /// Returns a checked draft to editing.
    Reopen {
        id: InterId,
        clerk: Words<40>,
    },
    /// Drops the draft; any clerk may.
    Abandon {
        id: InterId,
        clerk: Words<40>,
    },
    /// Asks what is known of an intersection.
    State {
        id: InterId,
    },
    /// Asks for the committed timing set.
    Timing {
        id: InterId,
    },
    /// Asks for the draft and the rules that it breaks.
    Draft {
        id: InterId,
    },
    /// Records what was done in a cabinet, or what came into stock.
    Record(RecordCommand),
    /// Takes records into the register in turn, each after the ones before it: all of them, or
    /// none.
    Import {
        records: Records,
    },
    /// Asks for all that the register holds of an intersection.
    Cabinet {
        id: InterId,
    },
    /// Asks which orders of an intersection are open.
    OpenOrders {
        id: InterId,
    },
    /// Asks how many of each part are on hand.
    Stock,
    /// Asks which intersections are overdue for an inspection on a day.
    Overdue {
        day: Day,
    },
}

/// The commands of the register, one for each kind of record.
impl Command {
    /// Records an inspection of a cabinet.
    pub fn inspect(id: InterId, inspection: Inspection) -> Command
        ensures { result ≡ Command.Record (RecordCommand.Inspect id inspection) }
    {
        Command::Record(RecordCommand::Inspect { id, inspection })
    }

    /// Opens an order on a cabinet.
    pub fn open_order(id: InterId, opening: Opening) -> Command
        ensures { result ≡ Command.Record (RecordCommand.OpenOrder id opening) }
    {
        Command::Record(RecordCommand::OpenOrder { id, opening })
    }

    /// Takes a part from stock for an order.
    pub fn use_part(id: InterId, line: UsedLine) -> Command
        ensures { result ≡ Command.Record (RecordCommand.UsePart id line) }
    {
        Command::Record(RecordCommand::UsePart { id, line })
    }

    /// Closes an order.
    pub fn close_order(id: InterId, order: RecordNo, closing: Closing) -> Command
        ensures { result ≡ Command.Record (RecordCommand.CloseOrder id order closing) }
    {
        Command::Record(RecordCommand::CloseOrder { id, order, closing })
    }

    /// Takes a delivery into stock.
    pub fn receive(delivery: Delivery) -> Command
        ensures { result ≡ Command.Record (RecordCommand.Receive delivery) }
    {
        Command::Record(RecordCommand::Receive { delivery })
    }
}
