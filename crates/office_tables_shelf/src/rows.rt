//! The rows of the tables with their types, and changes of them.

ghost use Rattle.std.specs.Prelude.{◌≡◌};
ghost use Rattle.office_tables_shelf.specs.Change.{row_writes, table_of};

use cabinet_core::{Delivery, Hand, Inspection, Order, PartCode, UsedLine};
use signal_records::revision::Revision;
use signal_records::state::Holder;
use signal_records::{Change, InterId, Interval, Key, Row, Words};
use std::alloc::AllocError;

/// The row of an intersection, beside its number.
#[derive(Drop)]
pub struct IntersectionRow {
    pub name: Words<120>,
    /// Days from one inspection of the cabinet to the next.
    pub interval: Interval,
    /// How often its timing set was committed.
    pub revision: Revision,
    /// Who holds a draft of its timing; nobody in state Normal.
    pub holder: Option<Holder>,
}

impl Clone for IntersectionRow {
    ghost use Rattle.std.specs.Prelude.{◌≡◌};

    ghost is_clone = { λ row copy. copy ≡ row };

    fn clone(&self) -> Result<IntersectionRow, AllocError> {
        Ok(IntersectionRow {
            name: self.name.clone()?,
            interval: self.interval,
            revision: self.revision,
            holder: self.holder.clone()?,
        })
    }
}

/// A row to be written or removed. A row that is added is new: where one stands under its key
/// already, a shelf may refuse the changes. A row that is put may take the place of one. An
/// intersection is never removed.
#[derive(Drop)]
pub enum RowChange {
    AddIntersection(InterId, IntersectionRow),
    PutIntersection(InterId, IntersectionRow),
    /// A row of the committed set, under its own key.
    AddTiming(InterId, Row),
    PutTiming(InterId, Row),
    RemoveTiming(InterId, Key),
    /// A draft row that keeps the change; a removal is a row too.
    AddDraft(InterId, Change),
    PutDraft(InterId, Change),
    RemoveDraft(InterId, Key),
    /// All draft rows of the intersection are removed, which are so many.
    DropDraft(InterId, usize),
    /// An inspection of the intersection's cabinet, under its number.
    AddInspection(InterId, Inspection),
    /// An order on the intersection, under its number.
    AddOrder(InterId, Order),
    PutOrder(InterId, Order),
    /// A part used for an order on the intersection, under order and line.
    AddLine(InterId, UsedLine),
    /// How many of a part are on hand.
    PutPart(PartCode, Hand),
    /// A delivery, under its part and its number.
    AddDelivery(Delivery),
}

/// A table whose rows are written.
#[derive(Clone, Copy, PartialEq, Eq)]
pub enum Table {
    Intersection,
    Timing,
    Draft,
    Inspection,
    WorkOrder,
    Part,
    Delivery,
    UsedPart,
}

impl RowChange {
    /// The table that the change writes.
    pub fn table(&self) -> Table
        ensures { result ≡ table_of self.now }
    {
        match self {
            RowChange::AddIntersection(..) | RowChange::PutIntersection(..) => Table::Intersection,
            RowChange::AddTiming(..) | RowChange::PutTiming(..) => Table::Timing,
            RowChange::RemoveTiming(..) => Table::Timing,
            RowChange::AddDraft(..) | RowChange::PutDraft(..) => Table::Draft,
            RowChange::RemoveDraft(..) | RowChange::DropDraft(..) => Table::Draft,
            RowChange::AddInspection(..) => Table::Inspection,
            RowChange::AddOrder(..) | RowChange::PutOrder(..) => Table::WorkOrder,
            RowChange::AddLine(..) => Table::UsedPart,
            RowChange::PutPart(..) => Table::Part,
            RowChange::AddDelivery(..) => Table::Delivery,
        }
    }

    /// How many rows of its table the change writes: one, and to drop a draft as many as it names.
    pub fn rows(&self) -> usize
        ensures { result ≡ row_writes self.now }
    {
        match self {
            RowChange::DropDraft(_, rows) => *rows,
            _ => 1,
        }
    }
}
