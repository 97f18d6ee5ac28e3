//! V9 to V13, the rules of a pattern.

ghost use Rattle.std.specs.Prelude.{◌≡◌, ◌++◌, true, false, is_some, length, IfOk};
ghost use Rattle.signal_rules.specs.Lookup as set_has;
ghost use Rattle.signal_rules.specs.Cases.{first_true};
ghost use Rattle.signal_rules.specs.Counts.{RisesAtLeast, RisesAtMost};
ghost use Rattle.signal_rules.specs.PatternRules.{splits_cases, rows_cases, offset_cases, coordination_cases, is_coordinated, rings_cases};
ghost use Rattle.signal_rules.specs.Slots.{IsFirstConflict, spans_of, conflicts_in, agree_where_begun};

use crate::lanes::{Slot, lane_seconds, pair_reason, row_fills};
use crate::lookup::{ring_row, split_at};
use crate::reason::{PatternReason, Reason};
use crate::sequence::has_sequence;
use signal_records::{Cycle, NoMemory, Pattern, PhaseNo, RingNo, Split, SplitNo, TimingSet};

/// The reason that breaks V9, if any: `patternSequenceNumber` has no row, or else the first phase
/// for which `patternSplitNumber` has none. The phases are those of the set.
pub(crate) fn rows_reason(set: &TimingSet, phases: &[PhaseNo], pattern: &Pattern) -> Option<Reason>
    requires { phases.now ≡ set_has.phases set.now }
    ensures { result ≡ first_true (rows_cases set.now pattern.now) }
{
    if !has_sequence(set, pattern.seq) {
        let seq = pattern.seq;
        return Some(Reason::Pattern(PatternReason::NoSequence { seq }));
    }
    splits_reason(set, phases, pattern.split)
}

/// The reason that breaks V9, if any: the first of the phases for which a split number has no row.
fn splits_reason(set: &TimingSet, phases: &[PhaseNo], split: SplitNo) -> Option<Reason>
    ensures { result ≡ first_true (splits_cases set.now split phases.now) }
{
    for phase in phases {
        if split_at(set, split, *phase).is_none() {
            let phase = *phase;
            return Some(Reason::Pattern(PatternReason::NoSplit { split, phase }));
        }
    }
    None
}

/// V10, of `patternOffsetTime` and `patternCycleTime`.
pub(crate) fn offset_reason(pattern: &Pattern) -> Option<Reason>
    ensures { result ≡ first_true (offset_cases pattern.now) }
{
    let Pattern { offset, cycle, .. } = *pattern;
    if u32::from(offset) < cycle.get() {
        return None;
    }
    Some(Reason::Pattern(PatternReason::LateOffset { offset, cycle }))
}

/// The reason that breaks V11, if any: in `patternSplitNumber`, `splitCoordPhase` marks no phase of
/// the set. The phases are those of the set.
pub(crate) fn coordination_reason(
    set: &TimingSet,
    phases: &[PhaseNo],
    pattern: &Pattern,
) -> Option<Reason>
    requires { phases.now ≡ set_has.phases set.now }
    ensures { result ≡ first_true (coordination_cases set.now pattern.now) }
{
    let split = pattern.split;
    for p in phases {
        if is_coordinated(split_at(set, split, *p)) {
            return None;
        }
    }
    Some(Reason::Pattern(PatternReason::NoneCoordinated { split }))
}

/// Whether a split row coordinates its phase (`splitCoordPhase`); a phase without a row is not
/// coordinated.
pub fn is_coordinated(split: Option<Split>) -> bool
    ensures { result ≡ is_coordinated split }
{
    match split {
        Some(split) => split.coord,
        None => false,
    }
}

/// The reason that breaks V12, if any: the first of the rings whose splits do not sum up to the
/// cycle. If there is none, the slots of the rings' rows are added.
pub(crate) fn sum_reason<'s>(
    set: &'s TimingSet,
    pattern: &Pattern,
    rings: &[RingNo],
    slots: &mut Vec<Slot<'s>>,
) -> Result<Option<Reason>, NoMemory>
    ensures reason { IfOk result (λ reason.
        reason ≡ first_true (rings_cases set.now pattern.now rings.now)) }
    ensures slots { IfOk result (λ reason. is_some reason ≡ false →
        slots.new.items ≡ slots.old.items ++ spans_of set.now pattern.now rings.now) }
{
    for ring in rings {
        let row = ring_row(set, pattern.seq, *ring);
        if !row_fills(set, pattern, row, slots)? {
            let sum = lane_seconds(set, pattern, *ring);
            return Ok(Some(Reason::Pattern(PatternReason::OtherSum {
                ring: *ring,
                sum,
                cycle: pattern.cycle,
            })));
        }
    }
    Ok(None)
}

/// Whether V13 holds for rings that fill the cycle: their phases list each other at each second at
/// which one of them starts a phase, and so at each second. Each comparison is a tick: if V13
/// holds, one for each slot.
pub(crate) fn rings_agree(slots: &[Slot<'_>], ticks: &mut u64) -> bool
    ensures agree { result ≡ agree_where_begun slots.now slots.now }
    ensures ticks { RisesAtMost (length slots.now) ticks.old ticks.new }
    ensures counted { result ≡ true → RisesAtLeast (length slots.now) ticks.old ticks.new }
{
    for slot in slots {
        *ticks = ticks.saturating_add(1);
        if pair_reason(slots, slot.from).is_some() {
            return false;
        }
    }
    true
}

/// The reason that breaks V13, if any: the first second of a cycle at which two phases time
/// together that do not list each other, and there the first two such phases.
pub(crate) fn conflict_reason(slots: &[Slot<'_>], cycle: Cycle) -> Option<Reason>
    ensures { result ≡ first_true (conflicts_in cycle slots.now) }
{
    let end = cycle.get();
    let first = first_conflict(slots, slots, end);
    if first == end {
        return None;
    }
    pair_reason(slots, first)
}

/// The first second before `end` at which one of some slots begins and two phases time together
/// that do not list each other; `end` if there is none. The first second of a conflict is the one
/// at which the later of its two phases begins.
fn first_conflict<'s>(slots: &[Slot<'s>], begun: &[Slot<'s>], end: u32) -> u32
    ensures { IsFirstConflict slots.now begun.now end result }
{
    let [slot, later @ ..] = begun else {
        return end;
    };
    let first = first_conflict(slots, later, end);
    if first <= slot.from {
        return first;
    }
    if pair_reason(slots, slot.from).is_none() {
        return first;
    }
    slot.from
}
