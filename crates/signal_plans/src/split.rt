//! What an engineer is warned of in the split row of a phase.

ghost use Rattle.std.specs.Prelude.{◌≡◌, ◌≤◌, Some};
ghost use Rattle.signal_plans.specs.SplitWarnings.{recalls_walk, besides_green, split_warnings};

use crate::phase::is_serving;
use crate::warning::Advice;
use signal_records::{Ped, Phase, Split, SplitMode};
use signal_rules::need_if_called;

/// What an engineer may be warned of in the split row of a phase, each with whether it holds.
pub(crate) fn split_cases(phase: &Phase, split: &Split) -> [(bool, Advice); 3]
    ensures { result ≡ split_warnings (Some phase.now) split.now }
{
    let Split { time, mode, coord } = *split;
    let need = need_if_called(phase);
    let has_crossing = phase.ped.is_some();
    let recalls = recalls_walk(mode);
    let tenths = 10 * u32::from(time);
    let besides = besides_green(phase, mode);
    [
        (
            has_crossing && !recalls && is_serving(Some(*split)) && tenths < need.tenths,
            Advice::WalkIfCalled { time, need },
        ),
        (!has_crossing && recalls, Advice::RecallWithoutWalk),
        (
            coord && tenths < besides + 10,
            Advice::NoGreen { time, besides },
        ),
    ]
}

/// Whether a split mode calls the walk in each cycle: both pedestrian recalls do.
fn recalls_walk(mode: SplitMode) -> bool
    ensures { result ≡ recalls_walk mode }
{
    match mode {
        SplitMode::PedestrianRecall | SplitMode::MaximumVehicleAndPedestrianRecall => true,
        _ => false,
    }
}

/// What a phase shows besides its green, in tenths of a second: the lead of a walk that the mode
/// calls, yellow and red.
fn besides_green(phase: &Phase, mode: SplitMode) -> u32
    ensures exact { result ≡ besides_green phase.now mode }
    ensures small { result ≤ 610 }
{
    let Phase { yellow, red, .. } = phase;
    let clearance = u32::from(*yellow) + u32::from(*red);
    match &phase.ped {
        Some(Ped { lead, .. }) if recalls_walk(mode) => 10 * lead.get() + clearance,
        _ => clearance,
    }
}
