//! The records that the tables in memory keep, and where each stands.

ghost use Rattle.office_tables_maps.specs.Records.{intersection_stored, timing_stored, draft_stored, inspection_stored, order_stored, used_stored, hand_stored, delivery_stored};

use crate::kept::Kept;
use cabinet_core::{Delivery, Hand, Inspection, Order, PartCode, UsedLine};
use office_tables_shelf::rows::IntersectionRow;
use signal_records::{Change, InterId, Key, LineNo, RecordNo, Row, key_is_within};
use std::alloc::AllocError;

impl Kept for IntersectionRow {
    type Place = InterId;

    ghost stored = { intersection_stored };

    fn copy(&self) -> Result<IntersectionRow, AllocError> {
        self.clone()
    }
}

impl Kept for Row {
    type Place = (InterId, Key);

    ghost stored = { timing_stored };

    fn copy(&self) -> Result<Row, AllocError> {
        self.clone()
    }
}

/// A draft row stands under the key of the change that it keeps.
impl Kept for Change {
    type Place = (InterId, Key);

    ghost stored = { draft_stored };

    fn copy(&self) -> Result<Change, AllocError> {
        match self {
            Change::Put(row) => Ok(Change::Put(row.clone()?)),
            Change::Remove(key) => {
                key_is_within(*key);
                Ok(Change::Remove(*key))
            }
        }
    }
}

impl Kept for Inspection {
    type Place = (InterId, RecordNo);

    ghost stored = { inspection_stored };

    fn copy(&self) -> Result<Inspection, AllocError> {
        self.clone()
    }
}

impl Kept for Order {
    type Place = (InterId, RecordNo);

    ghost stored = { order_stored };

    fn copy(&self) -> Result<Order, AllocError> {
        self.clone()
    }
}

impl Kept for UsedLine {
    type Place = (InterId, (RecordNo, LineNo));

    ghost stored = { used_stored };

    fn copy(&self) -> Result<UsedLine, AllocError> {
        self.clone()
    }
}

/// How many of a part are on hand stands under its code.
impl Kept for Hand {
    type Place = PartCode;

    ghost stored = { hand_stored };

    fn copy(&self) -> Result<Hand, AllocError> {
        let _count = self.get();
        Ok(*self)
    }
}

/// A delivery names all of its place: its part and its number.
impl Kept for Delivery {
    type Place = (PartCode, RecordNo);

    ghost stored = { delivery_stored };

    fn copy(&self) -> Result<Delivery, AllocError> {
        self.clone()
    }
}
