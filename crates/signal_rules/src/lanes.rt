//! The lanes of a pattern. The lane of a ring is the phases of its row, each for as many seconds of
//! the cycle as its split. V12 asks that each lane fill the cycle, V13 that phases of two rings
//! that time together list each other. No lane is built second by second: its length is a sum of
//! splits, and the rings are compared only at the seconds at which one of them starts a phase. What
//! this needs of the set is looked up once for each phase of a ring's row.

ghost use Rattle.std.specs.Prelude.{◌≡◌, ◌<◌, ◌≤◌, ◌+◌, ◌*◌, ◌^◌, ◌++◌, ◌==◌, true, IfOk, OnOk, length};
ghost use Rattle.signal_rules.specs.Cases.{first_true};
ghost use Rattle.signal_rules.specs.Lookup as set_has;
ghost use Rattle.signal_rules.specs.Lookup.{phase_at, the_mates, lists};
ghost use Rattle.signal_rules.specs.Lanes.{time_of, lane, used_rings};
ghost use Rattle.signal_rules.specs.OnePass.{rings_at};
ghost use Rattle.signal_rules.specs.CutPoints.{row_seconds};
ghost use Rattle.signal_rules.specs.Starts.{times};
ghost use Rattle.signal_rules.specs.Slots.{spans_at, spans_from, has_second, are_mates, spans_in, later_cases, pair_cases, slot_cases};

use crate::lookup::{phase_at, phases_of, ring_row, split_at};
use crate::reason::{PatternReason, Reason};
use signal_records::{NoMemory, Pattern, PhaseNo, RingNo, Split, TimingSet};
use std::alloc::Global;
use std::marker::Model;

/// A phase with the phases that it lists as those that may time beside it (phaseConcurrency). It
/// has its ring's lane from second `from` of the cycle until `until`, the first second after it.
#[derive(Drop)]
pub(crate) struct Slot<'s> {
    pub(crate) from: u32,
    until: u32,
    phase: PhaseNo,
    mates: &'s [PhaseNo],
}

impl<'s> Model for Slot<'s> {
    ghost use Rattle.signal_rules.specs.Slots.{Span};

    ghost Value = { Span };

    ghost view = { λ s. record {
      from = s.from;
      until = s.until;
      listing = record { phase = s.phase; mates = s.mates.now };
    } };
}

/// Whether the splits of a row sum up to the cycle; if they do, the slots of its phases are added,
/// else perhaps some of them. The answer is no as soon as the sum passes the cycle.
pub(crate) fn row_fills<'s>(
    set: &'s TimingSet,
    pattern: &Pattern,
    row: &[PhaseNo],
    slots: &mut Vec<Slot<'s>>,
) -> Result<bool, NoMemory>
    ensures fill { IfOk result (λ fill. fill ≡
        (length (row_seconds (times set.now pattern.now.split) row.now) == pattern.now.cycle)) }
    ensures slots { IfOk result (λ fill. fill ≡ true →
        slots.new.items ≡ slots.old.items ++ spans_from set.now pattern.now.split 0 row.now) }
{
    let cycle = pattern.cycle.get();
    let mut second: u32 = 0;
    for p in row {
        let time = time_of(split_at(set, pattern.split, *p));
        if cycle < second + time {
            return Ok(false);
        }
        push_slot(set, *p, time, second, slots)?;
        second += time;
    }
    Ok(second == cycle)
}

/// How many seconds the lane of a ring has in a pattern: the sum of the splits of its row, which
/// is at most 8415.
pub fn lane_seconds(set: &TimingSet, pattern: &Pattern, ring: RingNo) -> u32
    ensures exact { result ≡ length (lane set.now pattern.now.seq pattern.now.split ring) }
    ensures small { result ≤ 255 * 33 }
{
    let mut seconds: u32 = 0;
    for p in ring_row(set, pattern.seq, ring) {
        seconds += time_of(split_at(set, pattern.split, *p));
    }
    seconds
}

/// The time of a split row, 0 to 255 seconds; without a row it is 0.
pub fn time_of(split: Option<Split>) -> u32
    ensures exact { result ≡ time_of split }
    ensures small { result ≤ 255 }
{
    match split {
        Some(split) => u32::from(split.time),
        None => 0,
    }
}

/// Adds the slot of a phase that starts at a second and lasts a time, in seconds; a phase with no
/// time has none.
fn push_slot<'s>(
    set: &'s TimingSet,
    phase: PhaseNo,
    time: u32,
    second: u32,
    slots: &mut Vec<Slot<'s>>,
) -> Result<(), NoMemory>
    requires { second + time < 2 ^ 32 }
    ensures { OnOk result
        (slots.new.items ≡ slots.old.items ++ spans_at set.now phase time second) }
{
    if time != 0 {
        slots.push(Slot {
            from: second,
            until: second + time,
            phase,
            mates: mates_of(set, phase),
        })?;
    }
    Ok(())
}

/// Why V13 is broken at a second, if it is: by the first two slots, in their order, that have the
/// second and whose phases do not list each other.
pub(crate) fn pair_reason(slots: &[Slot<'_>], second: u32) -> Option<Reason>
    ensures { result ≡ first_true (pair_cases second (spans_in second slots.now)) }
{
    let [slot, later @ ..] = slots else {
        return None;
    };
    match slot_reason(slot, later, second) {
        Some(reason) => Some(reason),
        None => pair_reason(later, second),
    }
}

/// Why a slot breaks V13 at a second, if it does: it has the second, and so has a later slot, the
/// first whose phase and its own do not list each other.
fn slot_reason(slot: &Slot<'_>, later: &[Slot<'_>], second: u32) -> Option<Reason>
    ensures { result ≡ first_true (slot_cases second slot.now later.now) }
{
    if has_second(slot, second) {
        later_reason(slot, later, second)
    } else {
        None
    }
}

/// Why a slot breaks V13 from one of its seconds on, if it does: the first later slot that has the
/// second and does not list this one, or is not listed by it, until the first of the two phases is
/// over.
fn later_reason(slot: &Slot<'_>, later: &[Slot<'_>], second: u32) -> Option<Reason>
    ensures { result ≡ first_true (later_cases second slot.now (spans_in second later.now)) }
{
    for other in later {
        if has_second(other, second) && !list_each_other(slot, other) {
            return Some(Reason::Pattern(PatternReason::Conflict {
                from: second,
                until: slot.until.min(other.until),
                phase: slot.phase,
                other: other.phase,
            }));
        }
    }
    None
}

fn has_second(slot: &Slot<'_>, second: u32) -> bool
    ensures { result ≡ has_second second slot.now }
{
    slot.from <= second && second < slot.until
}

fn list_each_other(slot: &Slot<'_>, other: &Slot<'_>) -> bool
    ensures { result ≡ are_mates slot.now.listing other.now.listing }
{
    slot.mates.contains(&other.phase) && other.mates.contains(&slot.phase)
}

/// Whether `phaseConcurrency` of phase `p` has phase `q`; a phase that is not in the set has none.
pub fn lists(set: &TimingSet, p: PhaseNo, q: PhaseNo) -> bool
    ensures { result ≡ lists set.now p q }
{
    mates_of(set, p).contains(&q)
}

/// `phaseConcurrency` of a phase; one that is not in the set has none.
fn mates_of(set: &TimingSet, p: PhaseNo) -> &[PhaseNo]
    ensures { result.now ≡ the_mates (phase_at set.now p) }
{
    match phase_at(set, p) {
        Some(phase) => phase.mates.as_slice(),
        None => &[],
    }
}

/// The rings that have a phase of the set, in ascending order: 8 at most.
pub fn used_rings(alloc: Global, set: &TimingSet) -> Result<Vec<RingNo>, NoMemory>
    ensures rings { IfOk result (λ rings. rings.items ≡ used_rings set.now) }
    ensures few { IfOk result (λ rings. length rings.items ≤ 8) }
{
    let phases = phases_of(alloc, set)?;
    rings_of(alloc, set, &phases)
}

/// The rings that have a phase of the set, in ascending order. The phases are those of the set.
pub(crate) fn rings_of(
    alloc: Global,
    set: &TimingSet,
    phases: &[PhaseNo],
) -> Result<Vec<RingNo>, NoMemory>
    requires { phases.now ≡ set_has.phases set.now }
    ensures { IfOk result (λ rings. rings.items ≡ used_rings set.now) }
{
    let used = each_ring(alloc, set, phases)?;
    let mut rings = Vec::new(alloc);
    for ring in RingNo::all() {
        if is_among(&used, ring) {
            rings.push(ring)?;
        }
    }
    Ok(rings)
}

fn is_among(rings: &[RingNo], ring: RingNo) -> bool
    ensures { result ≡ set_has.is_in ring rings.now }
{
    rings.contains(&ring)
}

/// The ring of each of the phases that the set has, in the order of the phases.
fn each_ring(alloc: Global, set: &TimingSet, phases: &[PhaseNo]) -> Result<Vec<RingNo>, NoMemory>
    ensures { IfOk result (λ rings. rings.items ≡ rings_at set.now phases.now) }
{
    let mut rings = Vec::new(alloc);
    for p in phases {
        if let Some(phase) = phase_at(set, *p) {
            rings.push(phase.ring)?;
        }
    }
    Ok(rings)
}
