//! V7, the rule of a sequence.

ghost use Rattle.std.specs.Prelude.{◌≡◌};
ghost use Rattle.std.specs.List.{flat_map};
ghost use Rattle.signal_rules.specs.Cases.{first_true};
ghost use Rattle.signal_rules.specs.Lookup as set_has;
ghost use Rattle.signal_rules.specs.Lookup.{has_sequence, phase_at, ring_numbers};
ghost use Rattle.signal_rules.specs.SequenceRule.{place_cases, row_cases, once_cases, sequence_cases};

use crate::lookup::{has_row, phase_at, ring_row};
use crate::reason::{Reason, SequenceReason};
use signal_records::{PhaseNo, RingNo, SeqNo, TimingSet};

/// Whether a sequence has a row.
pub fn has_sequence(set: &TimingSet, n: SeqNo) -> bool
    ensures { result ≡ has_sequence set.now n }
{
    for ring in RingNo::all() {
        if has_row(set, n, ring) {
            return true;
        }
    }
    false
}

/// The reason that breaks V7, if any: the first phase in the row of a ring, ring by ring, that is
/// not in the set or not in that ring; else the first phase of the set that is not exactly once in
/// the row of its ring. The phases are those of the set.
#[tactic(auto, using(crate::proofs::Cases::first_past, crate::proofs::Cases::first_here))]
pub(crate) fn sequence_reason(set: &TimingSet, phases: &[PhaseNo], n: SeqNo) -> Option<Reason>
    requires { phases.now ≡ set_has.phases set.now }
    ensures { result ≡ first_true (sequence_cases set.now n) }
{
    match misplaced_reason(set, n) {
        Some(reason) => Some(reason),
        None => not_once(set, phases, n),
    }
}

/// The first phase in the row of a ring, ring by ring, that is not in the set or not in that ring.
fn misplaced_reason(set: &TimingSet, n: SeqNo) -> Option<Reason>
    ensures { result ≡ first_true (flat_map (row_cases set.now n) ring_numbers) }
{
    for ring in RingNo::all() {
        if let Some(reason) = misplaced_in(set, n, ring) {
            return Some(reason);
        }
    }
    None
}

/// The first phase in the row of this ring that is not in the set, or not in the ring.
fn misplaced_in(set: &TimingSet, n: SeqNo, ring: RingNo) -> Option<Reason>
    ensures { result ≡ first_true (row_cases set.now n ring) }
{
    for p in ring_row(set, n, ring) {
        if let Some(reason) = place_reason(set, ring, *p) {
            return Some(reason);
        }
    }
    None
}

/// Why a phase does not belong in the row of a ring, if it does not: it is not in the set, or in
/// another ring.
fn place_reason(set: &TimingSet, ring: RingNo, phase: PhaseNo) -> Option<Reason>
    ensures { result ≡ first_true (place_cases ring phase (phase_at set.now phase)) }
{
    let Some(found) = phase_at(set, phase) else {
        return Some(Reason::Sequence(SequenceReason::NotInPlan { phase }));
    };
    let own = found.ring;
    if own == ring {
        return None;
    }
    Some(Reason::Sequence(SequenceReason::OtherRing { phase, ring, own }))
}

/// The first of the phases that is not exactly once in the row of its ring.
fn not_once(set: &TimingSet, phases: &[PhaseNo], n: SeqNo) -> Option<Reason>
    ensures { result ≡ first_true
        (flat_map (λ p. once_cases set.now n p (phase_at set.now p)) phases.now) }
{
    for p in phases {
        if let Some(reason) = once_reason(set, n, *p) {
            return Some(reason);
        }
    }
    None
}

/// Why a phase of the set breaks V7, if it does: it is not exactly once in the row of its ring.
fn once_reason(set: &TimingSet, n: SeqNo, p: PhaseNo) -> Option<Reason>
    ensures { result ≡ first_true (once_cases set.now n p (phase_at set.now p)) }
{
    let phase = phase_at(set, p)?;
    let ring = phase.ring;
    let times = ring_row(set, n, ring).iter().filter(|m| **m == p).count();
    if times == 0 {
        return Some(Reason::Sequence(SequenceReason::Missing { phase: p, ring }));
    }
    if 1 < times {
        return Some(Reason::Sequence(SequenceReason::Repeated { phase: p }));
    }
    None
}
