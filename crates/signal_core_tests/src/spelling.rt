//! Changes and words by their spelling.

use signal_records::{Change, TimingSet, Words, read_change};
use std::alloc::Global;
use std::test::Fail;

/// A clean plan: four phases in two rings, each pair across the barrier listing each other.
pub(crate) const PLAN: &str = "phase,2,1,8,20,40,40,15,6,7,12,490,60,0,0;phase,4,1,8,20,40,40,15,8;\
    phase,6,2,8,20,40,40,15,2;phase,8,2,8,20,40,40,15,4;seq,1,1,2 4;seq,1,2,6 8;\
    split,1,2,35,2,1;split,1,4,25,2,0;split,1,6,35,2,1;split,1,8,25,2,0;pattern,1,60,0,1,1";

/// The change of a record, whose fields stand between commas.
fn change(alloc: Global, record: &str) -> Result<Change, Fail> {
    let mut fields = Vec::new(alloc);
    for field in record.split(',') {
        fields.push(field.as_bytes())?;
    }
    Ok(read_change(alloc, &fields).ok().ok_or("a change")?)
}

/// The changes of a text, which stand between semicolons; the empty text has none.
pub(crate) fn changes(alloc: Global, text: &str) -> Result<Vec<Change>, Fail> {
    let mut changes = Vec::new(alloc);
    for record in text.split(';') {
        if !record.is_empty() {
            changes.push(change(alloc, record)?)?;
        }
    }
    Ok(changes)
}

/// The plan after these changes.
pub(crate) fn plan(alloc: Global, changed: &[Change]) -> Result<TimingSet, Fail> {
    let mut set = TimingSet::new(alloc);
    set.apply(alloc, &changes(alloc, PLAN)?)?;
    set.apply(alloc, changed)?;
    Ok(set)
}

/// Words of a text.
pub(crate) fn words<const MAX: usize>(alloc: Global, text: &str) -> Result<Words<MAX>, Fail> {
    Ok(Words::new(alloc, text.as_bytes())?.ok_or("words")?)
}
