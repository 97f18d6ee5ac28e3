//! The rows of a timing set, read from their fields.

ghost use Rattle.std.specs.Prelude.{◌≡◌, ◌≤◌, ◌+◌, length};
ghost use Rattle.signal_values.specs.declared.number.TheConstants.{PHASES, RINGS};
ghost use Rattle.signal_records.specs.Reading.{Gives, WantsOnlyFor, HasList, texts, ped_width, lead_in, ped_record, ped_at, phase_record, seq_record, split_record, pattern_record, row_at};

use crate::fault::RowFault;
use crate::field_reading::{byte, flag, mode, number, number_up_to, phases};
use crate::limits::Limits;
use crate::record::{Pattern, Ped, Phase, Row, SeqRow, Split};
use signal_values::{Lead, no_lead};
use std::alloc::Global;

/// The lead of a pedestrian part, which is field 15; 0 in a version without leads.
#[tactic(auto, unfolding(crate::specs::Reading::lead_in))]
fn lead(limits: Limits, fields: &[&[u8]]) -> Result<Lead, RowFault>
    requires { length fields.now ≡ 9 + ped_width limits.has_lead }
    ensures { result ≡ lead_in limits.has_lead (texts fields.now) }
{
    if limits.has_lead {
        number(fields, 15)
    } else {
        Ok(no_lead())
    }
}

#[tactic(auto, unfolding(crate::specs::Reading::ped_record))]
fn ped_record(limits: Limits, fields: &[&[u8]]) -> Result<Ped, RowFault>
    requires { length fields.now ≡ 9 + ped_width limits.has_lead }
    ensures { result ≡ ped_record limits.has_lead (texts fields.now) }
{
    let walk = byte(fields, 10)?;
    let clear = byte(fields, 11)?;
    let width = number(fields, 12)?;
    let setback = number(fields, 13)?;
    let short = flag(fields, 14)?;
    let lead = lead(limits, fields)?;
    Ok(Ped {
        walk,
        clear,
        width,
        setback,
        short,
        lead,
    })
}

#[tactic(auto, unfolding(crate::specs::Reading::ped_at))]
fn ped(limits: Limits, fields: &[&[u8]]) -> Result<Option<Ped>, RowFault>
    ensures { result ≡ ped_at limits (texts fields.now) }
{
    if fields.len() == 9 + limits.ped_width() {
        let ped = ped_record(limits, fields)?;
        Ok(Some(ped))
    } else {
        Ok(None)
    }
}

/// The phase row that the fields spell, or the first fault. The list of mates is made last, so that
/// only a row without a fault takes memory.
#[tactic(auto, using(crate::proofs::Wants::none), unfolding(crate::specs::Reading::phase_record))]
fn phase_record(alloc: Global, limits: Limits, fields: &[&[u8]]) -> Result<Row, RowFault>
    requires phases { limits.phases ≤ PHASES }
    requires rings { limits.rings ≤ RINGS }
    requires count { 9 ≤ length fields.now }
    ensures exact { Gives result (phase_record limits (texts fields.now)) }
    ensures memory { WantsOnlyFor HasList result (phase_record limits (texts fields.now)) }
{
    let p = number_up_to(limits.phases, fields, 2)?;
    let ring = number_up_to(limits.rings, fields, 3)?;
    let min_green = byte(fields, 4)?;
    let passage = byte(fields, 5)?;
    let max1 = byte(fields, 6)?;
    let yellow = byte(fields, 7)?;
    let red = byte(fields, 8)?;
    let spelled = phases(limits.phases, fields, 9)?;
    let ped = ped(limits, fields)?;
    let mates = spelled.list(alloc)?;
    Ok(Row::Phase(
        p,
        Phase {
            ring,
            min_green,
            passage,
            max1,
            yellow,
            red,
            mates,
            ped,
        },
    ))
}

#[tactic(auto, using(crate::proofs::Wants::none), unfolding(crate::specs::Reading::seq_record))]
fn seq_record(alloc: Global, limits: Limits, fields: &[&[u8]]) -> Result<Row, RowFault>
    requires phases { limits.phases ≤ PHASES }
    requires rings { limits.rings ≤ RINGS }
    requires count { length fields.now ≡ 4 }
    ensures exact { Gives result (seq_record limits (texts fields.now)) }
    ensures memory { WantsOnlyFor HasList result (seq_record limits (texts fields.now)) }
{
    let n = number(fields, 2)?;
    let ring = number_up_to(limits.rings, fields, 3)?;
    let spelled = phases(limits.phases, fields, 4)?;
    let list = spelled.list(alloc)?;
    Ok(Row::Seq(n, ring, SeqRow { list }))
}

#[tactic(auto, using(crate::proofs::Wants::none), unfolding(crate::specs::Reading::split_record))]
fn split_record(limits: Limits, fields: &[&[u8]]) -> Result<Row, RowFault>
    requires phases { limits.phases ≤ PHASES }
    requires count { length fields.now ≡ 6 }
    ensures exact { Gives result (split_record limits (texts fields.now)) }
    ensures memory { WantsOnlyFor HasList result (split_record limits (texts fields.now)) }
{
    let n = number(fields, 2)?;
    let p = number_up_to(limits.phases, fields, 3)?;
    let time = byte(fields, 4)?;
    let mode = mode(fields, 5)?;
    let coord = flag(fields, 6)?;
    Ok(Row::Split(n, p, Split { time, mode, coord }))
}

#[tactic(auto, using(crate::proofs::Wants::none), unfolding(crate::specs::Reading::pattern_record))]
fn pattern_record(fields: &[&[u8]]) -> Result<Row, RowFault>
    requires { length fields.now ≡ 6 }
    ensures exact { Gives result (pattern_record (texts fields.now)) }
    ensures memory { WantsOnlyFor HasList result (pattern_record (texts fields.now)) }
{
    let n = number(fields, 2)?;
    let cycle = number(fields, 3)?;
    let offset = byte(fields, 4)?;
    let split = number(fields, 5)?;
    let seq = number(fields, 6)?;
    Ok(Row::Pattern(
        n,
        Pattern {
            cycle,
            offset,
            split,
            seq,
        },
    ))
}

/// The row within limits that the fields spell, or the first fault.
#[tactic(auto, unfolding(crate::specs::Reading::row_at))]
pub(crate) fn row_within(alloc: Global, limits: Limits, fields: &[&[u8]]) -> Result<Row, RowFault>
    requires phases { limits.phases ≤ PHASES }
    requires rings { limits.rings ≤ RINGS }
    ensures exact { Gives result (row_at limits (texts fields.now)) }
    ensures memory { WantsOnlyFor HasList result (row_at limits (texts fields.now)) }
{
    let Some(kind) = fields.first() else {
        return Err(RowFault::Kind);
    };
    if *kind == b"phase".as_slice() {
        if fields.len() != 9 && fields.len() != 9 + limits.ped_width() {
            return Err(RowFault::Count);
        }
        phase_record(alloc, limits, fields)
    } else if *kind == b"seq".as_slice() {
        if fields.len() != 4 {
            return Err(RowFault::Count);
        }
        seq_record(alloc, limits, fields)
    } else if *kind == b"split".as_slice() {
        if fields.len() != 6 {
            return Err(RowFault::Count);
        }
        split_record(limits, fields)
    } else if *kind == b"pattern".as_slice() {
        if fields.len() != 6 {
            return Err(RowFault::Count);
        }
        pattern_record(fields)
    } else {
        Err(RowFault::Kind)
    }
}
