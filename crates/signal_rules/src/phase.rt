//! V1 to V6 and V14, the rules of a phase.

ghost use Rattle.std.specs.Prelude.{◌≡◌, ◌≤◌};
ghost use Rattle.signal_rules.specs.Cases.{first_true};
ghost use Rattle.signal_rules.specs.Lookup.{phase_at};
ghost use Rattle.signal_rules.specs.PhaseRules.{yellow_cases, red_cases, of_ped, walk_cases, clearance, crossing_cases, setback_cases, lead_cases, mate_cases, mates_cases};

use crate::lanes::lists;
use crate::lookup::phase_at;
use crate::reason::{CrossingReason, IntervalReason, MateReason, Reason};
use signal_records::{Ped, Phase, PhaseNo, TimingSet};

/// The reason that breaks V1, if any: `phaseYellowChange` is not 3.0 to 6.0 seconds.
pub(crate) fn yellow_reason(phase: &Phase) -> Option<Reason>
    ensures { result ≡ first_true (yellow_cases phase.now) }
{
    let tenths = phase.yellow;
    if 30 <= tenths && tenths <= 60 {
        return None;
    }
    Some(Reason::Interval(IntervalReason::Yellow { tenths }))
}

/// The reason that breaks V2, if any: `phaseRedClear` is more than 6.0 seconds.
pub(crate) fn red_reason(phase: &Phase) -> Option<Reason>
    ensures { result ≡ first_true (red_cases phase.now) }
{
    let tenths = phase.red;
    if tenths <= 60 {
        return None;
    }
    Some(Reason::Interval(IntervalReason::Red { tenths }))
}

/// The reason that breaks V3, if any: `phaseWalk` is less than 7 seconds, or less than 4 where the
/// short walk is allowed.
pub(crate) fn walk_reason(phase: &Phase) -> Option<Reason>
    ensures { result ≡ first_true (of_ped phase.now.ped walk_cases) }
{
    let Some(ped) = &phase.ped else {
        return None;
    };
    let seconds = ped.walk;
    let least = if ped.short { 4 } else { 7 };
    if least <= seconds {
        return None;
    }
    Some(Reason::Crossing(CrossingReason::ShortWalk { seconds, least }))
}

/// Pedestrian clearance, yellow and red together, in tenths of a second.
pub fn clearance(phase: &Phase, ped: &Ped) -> u32
    ensures exact { result ≡ clearance phase.now ped.now }
    ensures small { result ≤ 3060 }
{
    let Ped { clear, .. } = ped;
    let Phase { yellow, red, .. } = phase;
    10 * u32::from(*clear) + (u32::from(*yellow) + u32::from(*red))
}

/// The reason that breaks V4, if any: pedestrian clearance, yellow and red are too short to cross
/// the width at 3.5 feet a second. It is in tenths of a foot and of a second.
pub(crate) fn clearance_reason(phase: &Phase) -> Option<Reason>
    ensures { result ≡ first_true (of_ped phase.now.ped (crossing_cases phase.now)) }
{
    let Some(ped) = &phase.ped else {
        return None;
    };
    let width = ped.width.get();
    let there = clearance(phase, ped);
    if 2 * width <= 7 * there {
        return None;
    }
    let takes = (2 * width + 6) / 7;
    Some(Reason::Crossing(CrossingReason::SlowClearance {
        width,
        takes,
        there,
    }))
}

/// The reason that breaks V5, if any: walk, pedestrian clearance, yellow and red are too short to
/// cross setback and width at 3 feet a second. It is in tenths of a foot and of a second.
pub(crate) fn setback_reason(phase: &Phase) -> Option<Reason>
    ensures { result ≡ first_true (of_ped phase.now.ped (setback_cases phase.now)) }
{
    let Some(ped) = &phase.ped else {
        return None;
    };
    let Ped { walk, .. } = ped;
    let length = ped.width.get() + ped.setback.get();
    let there = 10 * u32::from(*walk) + clearance(phase, ped);
    if length <= 3 * there {
        return None;
    }
    let takes = (length + 2) / 3;
    Some(Reason::Crossing(CrossingReason::SlowSetback {
        length,
        takes,
        there,
    }))
}

/// The reason that breaks V14, if any: the leading pedestrian interval is 1 or 2 seconds, or longer
/// than `phaseWalk`.
pub(crate) fn lead_reason(phase: &Phase) -> Option<Reason>
    ensures { result ≡ first_true (of_ped phase.now.ped lead_cases) }
{
    let Some(Ped { lead, walk, .. }) = &phase.ped else {
        return None;
    };
    let lead = lead.get();
    if lead != 0 && lead < 3 {
        return Some(Reason::Crossing(CrossingReason::ShortLead { lead }));
    }
    if u32::from(*walk) < lead {
        return Some(Reason::Crossing(CrossingReason::LongLead { lead, walk: *walk }));
    }
    None
}

/// The reason that breaks V6, if any: the first phase of `phaseConcurrency` that is not in the set,
/// is in the same ring, or does not list this phase.
pub(crate) fn mates_reason(set: &TimingSet, p: PhaseNo, phase: &Phase) -> Option<Reason>
    ensures { result ≡ first_true (mates_cases set.now p phase.now) }
{
    for mate in phase.mates.as_slice() {
        if let Some(reason) = mate_reason(set, p, phase, *mate) {
            return Some(reason);
        }
    }
    None
}

fn mate_reason(set: &TimingSet, p: PhaseNo, phase: &Phase, mate: PhaseNo) -> Option<Reason>
    ensures { result ≡ first_true (mate_cases p phase.now mate (phase_at set.now mate)) }
{
    let Some(other) = phase_at(set, mate) else {
        return Some(Reason::Mate(MateReason::NotInPlan { mate }));
    };
    if other.ring == phase.ring {
        let ring = phase.ring;
        return Some(Reason::Mate(MateReason::SameRing { mate, ring }));
    }
    if !lists(set, mate, p) {
        return Some(Reason::Mate(MateReason::NotListed { mate }));
    }
    None
}
