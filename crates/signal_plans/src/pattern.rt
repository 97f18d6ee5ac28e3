//! What an engineer is warned of in a pattern: coordinated phases that do not time together, and a
//! long split that leaves another phase of its ring no second more than it needs.

ghost use Rattle.std.specs.Prelude.{◌≡◌, ◌≤◌, ◌*◌, IfOk, length};
ghost use Rattle.signal_rules.specs.Cases.{first_true};
ghost use Rattle.signal_rules.specs.Lookup as set_has;
ghost use Rattle.signal_rules.specs.Lookup.{phase_at, split_at};
ghost use Rattle.signal_plans.specs.PatternWarnings.{coordinated_phases, own_row, begin_of, time_together, apart_from, apart_cases, or_all, coordination_advice, seconds_of, crowded_by, crowded_cases, is_at_need, is_crowded, long_split, share_ring, takes_half};

use crate::phase::is_serving;
use crate::warning::Advice;
use signal_records::{NoMemory, Pattern, PhaseNo, SeqNo, SplitNo, TimingSet, need};
use signal_rules::{is_coordinated, phase_at, ring_row, split_at, time_of};
use std::alloc::Global;

/// What an engineer is warned of in a pattern, if two coordinated phases do not time together: the
/// first two such phases or, if every phase is coordinated, that this is so. The phases are those
/// of the set.
pub(crate) fn coordination_advice(
    alloc: Global,
    set: &TimingSet,
    phases: &[PhaseNo],
    pattern: &Pattern,
) -> Result<Option<Advice>, NoMemory>
    requires { phases.now ≡ set_has.phases set.now }
    ensures { IfOk result (λ advice. advice ≡ coordination_advice set.now pattern.now) }
{
    let coordinated = coordinated_phases(alloc, set, phases, pattern.split)?;
    let apart = apart_advice(set, pattern, &coordinated);
    let is_all = coordinated.len() == phases.len();
    Ok(or_all(is_all, phases.len(), apart))
}

/// The advice on two phases that are apart, if there is one; in its place `AllCoordinated`, where
/// all of so many phases are coordinated.
fn or_all(is_all: bool, phases: usize, apart: Option<Advice>) -> Option<Advice>
    ensures { result ≡ or_all is_all phases apart }
{
    match apart {
        Some(_) if is_all => Some(Advice::AllCoordinated { phases }),
        _ => apart,
    }
}

/// The phases of the set that a split number coordinates, in order.
fn coordinated_phases(
    alloc: Global,
    set: &TimingSet,
    phases: &[PhaseNo],
    n: SplitNo,
) -> Result<Vec<PhaseNo>, NoMemory>
    requires { phases.now ≡ set_has.phases set.now }
    ensures { IfOk result (λ found. found.items ≡ coordinated_phases set.now n) }
{
    let mut found = Vec::new(alloc);
    for p in phases {
        if is_coordinated(split_at(set, n, *p)) {
            found.push(*p)?;
        }
    }
    Ok(found)
}

/// The first two of some phases that do not time together.
fn apart_advice(set: &TimingSet, pattern: &Pattern, phases: &[PhaseNo]) -> Option<Advice>
    ensures { result ≡ first_true (apart_cases set.now pattern.now phases.now) }
{
    let [phase, later @ ..] = phases else {
        return None;
    };
    match apart_from(set, pattern, *phase, later) {
        Some(advice) => Some(advice),
        None => apart_advice(set, pattern, later),
    }
}

/// The first of some other phases that does not time together with this phase.
fn apart_from(
    set: &TimingSet,
    pattern: &Pattern,
    phase: PhaseNo,
    others: &[PhaseNo],
) -> Option<Advice>
    ensures { result ≡ first_true (apart_from set.now pattern.now phase others.now) }
{
    for other in others {
        if !time_together(set, pattern, phase, *other) {
            return Some(Advice::CoordinatedApart {
                phase,
                other: *other,
            });
        }
    }
    None
}

/// Whether each of two phases begins before the other is over, so that two phases that have time do
/// time together at some second of the cycle.
fn time_together(set: &TimingSet, pattern: &Pattern, p: PhaseNo, q: PhaseNo) -> bool
    ensures { result ≡ time_together set.now pattern.now p q }
{
    let begin = begin_of(set, pattern, p);
    let end = begin + time_of(split_at(set, pattern.split, p));
    let other_begin = begin_of(set, pattern, q);
    let other_end = other_begin + time_of(split_at(set, pattern.split, q));
    begin < other_end && other_begin < end
}

/// The second of the cycle at which a phase begins: the phases before it in its ring's row are
/// over.
fn begin_of(set: &TimingSet, pattern: &Pattern, p: PhaseNo) -> u32
    ensures exact { result ≡ begin_of set.now pattern.now p }
    ensures small { result ≤ 255 * 33 }
{
    let mut second: u32 = 0;
    for q in own_row(set, pattern.seq, p) {
        if *q == p {
            return second;
        }
        second += time_of(split_at(set, pattern.split, *q));
    }
    second
}

/// The row of a sequence for the ring of a phase; empty, if the set does not have the phase.
fn own_row(set: &TimingSet, n: SeqNo, p: PhaseNo) -> &[PhaseNo]
    ensures row { result.now ≡ own_row set.now n (phase_at set.now p) }
    ensures short { length result.now ≤ 33 }
{
    match phase_at(set, p) {
        Some(phase) => ring_row(set, n, phase.ring),
        None => &[],
    }
}

/// What an engineer is warned of in a pattern, if one of some phases takes more than half of the
/// cycle and one of others in its ring has no second more than it needs: the first two such phases.
pub(crate) fn crowding_advice(
    set: &TimingSet,
    pattern: &Pattern,
    others: &[PhaseNo],
    phases: &[PhaseNo],
) -> Option<Advice>
    ensures { result ≡ first_true (crowded_cases set.now pattern.now others.now phases.now) }
{
    let [phase, later @ ..] = phases else {
        return None;
    };
    match crowded_by(set, pattern, *phase, others) {
        Some(advice) => Some(advice),
        None => crowding_advice(set, pattern, others, later),
    }
}

/// The first of some other phases in the ring of this phase that has no second more than it needs,
/// if this phase takes more than half of the cycle.
fn crowded_by(
    set: &TimingSet,
    pattern: &Pattern,
    phase: PhaseNo,
    others: &[PhaseNo],
) -> Option<Advice>
    ensures { result ≡ first_true (crowded_by set.now pattern.now phase others.now) }
{
    for other in others {
        if is_crowded(set, pattern, phase, *other) {
            return Some(long_split(set, pattern, phase, *other));
        }
    }
    None
}

/// The advice on a phase that takes more than half of the cycle, and another one with no spare
/// second.
fn long_split(set: &TimingSet, pattern: &Pattern, phase: PhaseNo, other: PhaseNo) -> Advice
    ensures { result ≡ long_split set.now pattern.now phase other }
{
    Advice::LongSplit {
        phase,
        time: time_of(split_at(set, pattern.split, phase)),
        cycle: pattern.cycle.get(),
        other,
    }
}

/// Whether a phase takes more than half of the cycle, and another one of its ring has no second
/// more than it needs.
fn is_crowded(set: &TimingSet, pattern: &Pattern, p: PhaseNo, q: PhaseNo) -> bool
    ensures { result ≡ is_crowded set.now pattern.now p q }
{
    p != q && takes_half(set, pattern, p) && share_ring(set, p, q) && is_at_need(set, pattern, q)
}

/// Whether a phase takes more than half of the cycle.
fn takes_half(set: &TimingSet, pattern: &Pattern, p: PhaseNo) -> bool
    ensures { result ≡ takes_half set.now pattern.now p }
{
    pattern.cycle.get() < 2 * time_of(split_at(set, pattern.split, p))
}

/// Whether the set has both phases, in one ring.
fn share_ring(set: &TimingSet, p: PhaseNo, q: PhaseNo) -> bool
    ensures { result ≡ share_ring (phase_at set.now p) (phase_at set.now q) }
{
    match (phase_at(set, p), phase_at(set, q)) {
        (Some(phase), Some(other)) => phase.ring == other.ring,
        _ => false,
    }
}

/// Whether a phase that its split does not omit has no whole second more than it needs.
fn is_at_need(set: &TimingSet, pattern: &Pattern, p: PhaseNo) -> bool
    ensures { result ≡ is_at_need (phase_at set.now p) (split_at set.now pattern.now.split p) }
{
    match (phase_at(set, p), split_at(set, pattern.split, p)) {
        (Some(phase), Some(split)) => {
            let shorter = u32::from(split.time.saturating_sub(1));
            is_serving(Some(split)) && 10 * shorter < need(phase, split.mode)
        }
        _ => false,
    }
}
