//! Reads changes from their fields.

ghost use Rattle.std.specs.Prelude.{◌≡◌, ◌≤◌, length};
ghost use Rattle.signal_values.specs.declared.number.TheConstants.{PHASES, RINGS};
ghost use Rattle.signal_records.specs.Reading.{Gives, WantsOnlyFor, PutsList, texts, phase_key, seq_key, split_key, pattern_key, key_at, removal_at, put_at, change_at};

use crate::fault::RowFault;
use crate::field_reading::{number, number_up_to};
use crate::key::Key;
use crate::limits::Limits;
use crate::record::Change;
use crate::row_reading::row_within;
use std::alloc::Global;

#[tactic(auto, unfolding(crate::specs::Reading::phase_key))]
fn phase_key(limits: Limits, fields: &[&[u8]]) -> Result<Key, RowFault>
    requires phases { limits.phases ≤ PHASES }
    requires count { length fields.now ≡ 3 }
    ensures { result ≡ phase_key limits (texts fields.now) }
{
    let p = number_up_to(limits.phases, fields, 3)?;
    Ok(Key::Phase(p))
}

#[tactic(auto, unfolding(crate::specs::Reading::seq_key))]
fn seq_key(limits: Limits, fields: &[&[u8]]) -> Result<Key, RowFault>
    requires rings { limits.rings ≤ RINGS }
    requires count { length fields.now ≡ 4 }
    ensures { result ≡ seq_key limits (texts fields.now) }
{
    let n = number(fields, 3)?;
    let ring = number_up_to(limits.rings, fields, 4)?;
    Ok(Key::Seq(n, ring))
}

#[tactic(auto, unfolding(crate::specs::Reading::split_key))]
fn split_key(limits: Limits, fields: &[&[u8]]) -> Result<Key, RowFault>
    requires phases { limits.phases ≤ PHASES }
    requires count { length fields.now ≡ 4 }
    ensures { result ≡ split_key limits (texts fields.now) }
{
    let n = number(fields, 3)?;
    let p = number_up_to(limits.phases, fields, 4)?;
    Ok(Key::Split(n, p))
}

#[tactic(auto, unfolding(crate::specs::Reading::pattern_key))]
fn pattern_key(fields: &[&[u8]]) -> Result<Key, RowFault>
    requires { length fields.now ≡ 3 }
    ensures { result ≡ pattern_key (texts fields.now) }
{
    let n = number(fields, 3)?;
    Ok(Key::Pattern(n))
}

/// The key after `remove`, within limits, or the first fault: of its kind, which is the second
/// field, then of the number of fields, then of the fields from left to right.
#[tactic(auto, unfolding(crate::specs::Reading::key_at))]
fn key_within(limits: Limits, fields: &[&[u8]]) -> Result<Key, RowFault>
    requires phases { limits.phases ≤ PHASES }
    requires rings { limits.rings ≤ RINGS }
    ensures { result ≡ key_at limits (texts fields.now) }
{
    let Some(kind) = fields.get(1) else {
        return Err(RowFault::Kind);
    };
    if *kind == b"phase".as_slice() {
        if fields.len() != 3 {
            return Err(RowFault::Count);
        }
        phase_key(limits, fields)
    } else if *kind == b"seq".as_slice() {
        if fields.len() != 4 {
            return Err(RowFault::Count);
        }
        seq_key(limits, fields)
    } else if *kind == b"split".as_slice() {
        if fields.len() != 4 {
            return Err(RowFault::Count);
        }
        split_key(limits, fields)
    } else if *kind == b"pattern".as_slice() {
        if fields.len() != 3 {
            return Err(RowFault::Count);
        }
        pattern_key(fields)
    } else {
        Err(RowFault::Kind)
    }
}

#[tactic(auto, using(crate::proofs::Wants::none), unfolding(crate::specs::Reading::removal_at))]
fn removal_within(limits: Limits, fields: &[&[u8]]) -> Result<Change, RowFault>
    requires phases { limits.phases ≤ PHASES }
    requires rings { limits.rings ≤ RINGS }
    ensures exact { Gives result (removal_at limits (texts fields.now)) }
    ensures memory { WantsOnlyFor PutsList result (removal_at limits (texts fields.now)) }
{
    let key = key_within(limits, fields)?;
    Ok(Change::Remove(key))
}

#[tactic(auto, unfolding(crate::specs::Reading::put_at))]
fn put_within(alloc: Global, limits: Limits, fields: &[&[u8]]) -> Result<Change, RowFault>
    requires phases { limits.phases ≤ PHASES }
    requires rings { limits.rings ≤ RINGS }
    ensures exact { Gives result (put_at limits (texts fields.now)) }
    ensures memory { WantsOnlyFor PutsList result (put_at limits (texts fields.now)) }
{
    let row = row_within(alloc, limits, fields)?;
    Ok(Change::Put(row))
}

/// The change within limits that the fields spell, or the first fault.
#[tactic(auto, unfolding(crate::specs::Reading::change_at))]
pub(crate) fn change_within(
    alloc: Global,
    limits: Limits,
    fields: &[&[u8]],
) -> Result<Change, RowFault>
    requires phases { limits.phases ≤ PHASES }
    requires rings { limits.rings ≤ RINGS }
    ensures exact { Gives result (change_at limits (texts fields.now)) }
    ensures memory { WantsOnlyFor PutsList result (change_at limits (texts fields.now)) }
{
    if fields.is_empty() || fields[0] != b"remove".as_slice() {
        return put_within(alloc, limits, fields);
    }
    removal_within(limits, fields)
}
