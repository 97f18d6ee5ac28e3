//! What an engineer is warned of in a phase.

ghost use Rattle.std.specs.Prelude.{◌≡◌, Some};
ghost use Rattle.signal_plans.specs.Parts.{AreParts};
ghost use Rattle.signal_plans.specs.PhaseWarnings as plan_has;
ghost use Rattle.signal_plans.specs.PhaseWarnings.{phase_cases, crossing_warnings, is_alone, is_never_served, is_serving, is_served};

use crate::plan::PlanParts;
use crate::warning::Advice;
use signal_records::{Pattern, Ped, Phase, PhaseNo, Split, SplitMode, TimingSet};
use signal_rules::split_at;

/// The least passage and red without a warning, in tenths of a second.
const HALF_SECOND: u8 = 5;

/// The least width of a crossing without a warning, in tenths of a foot: 20 feet.
const NARROWEST: u32 = 200;

/// The greatest width of a crossing without a warning, in tenths of a foot: 200 feet.
const WIDEST: u32 = 2_000;

/// What an engineer may be warned of in a phase itself, each with whether it holds. The parts are
/// those of the set.
pub(crate) fn phase_cases(
    set: &TimingSet,
    parts: &PlanParts,
    p: PhaseNo,
    phase: &Phase,
) -> [(bool, Advice); 6]
    requires { AreParts set.now parts.now }
    ensures { result ≡ phase_cases set.now p phase.now }
{
    let Phase {
        min_green: minimum,
        max1: maximum,
        passage,
        red,
        ..
    } = *phase;
    let rings = parts.rings;
    [
        (
            maximum < minimum,
            Advice::MaximumBelowMinimum { maximum, minimum },
        ),
        (minimum == 0, Advice::NoMinimumGreen),
        (is_alone(phase, rings), Advice::NoConcurrentPhase { rings }),
        (
            is_never_served(set, &parts.patterns, p),
            Advice::NeverServed,
        ),
        (passage < HALF_SECOND, Advice::ShortPassage { passage }),
        (red < HALF_SECOND, Advice::ShortRed { red }),
    ]
}

/// Whether a phase lists no mate, in a plan of so many rings, more than one.
fn is_alone(phase: &Phase, rings: usize) -> bool
    ensures { result ≡ is_alone rings phase.now }
{
    phase.mates.as_slice().is_empty() && 1 < rings
}

/// Whether the set has patterns, but none that serves a phase.
fn is_never_served(set: &TimingSet, patterns: &[Pattern], p: PhaseNo) -> bool
    requires { patterns.now ≡ plan_has.patterns set.now }
    ensures { result ≡ is_never_served set.now p }
{
    !patterns.is_empty() && !is_served(set, patterns, p)
}

/// Whether a pattern of the set serves a phase.
fn is_served(set: &TimingSet, patterns: &[Pattern], p: PhaseNo) -> bool
    requires { patterns.now ≡ plan_has.patterns set.now }
    ensures { result ≡ is_served set.now p }
{
    for pattern in patterns {
        if is_serving(split_at(set, pattern.split, p)) {
            return true;
        }
    }
    false
}

/// Whether a split row serves its phase in each cycle: its mode does not omit the phase. A phase
/// without a row is not served.
pub(crate) fn is_serving(split: Option<Split>) -> bool
    ensures { result ≡ is_serving split }
{
    match split {
        Some(split) => split.mode != SplitMode::PhaseOmitted,
        None => false,
    }
}

/// What an engineer may be warned of in a crossing, each with whether it holds.
pub(crate) fn crossing_cases(ped: &Ped) -> [(bool, Advice); 4]
    ensures { result ≡ crossing_warnings (Some ped.now) }
{
    let width = ped.width.get();
    [
        (ped.clear == 0, Advice::NoClearance { width }),
        (width == 0, Advice::NotMeasured),
        (
            width != 0 && width < NARROWEST,
            Advice::NarrowCrossing { width },
        ),
        (WIDEST < width, Advice::WideCrossing { width }),
    ]
}
