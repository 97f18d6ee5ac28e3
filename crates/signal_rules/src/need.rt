//! What a phase needs of its split: its green, or a called walk where that is longer, with yellow
//! and red.

ghost use Rattle.std.specs.Prelude.{◌≡◌};
ghost use Rattle.signal_rules.specs.SplitRule.{governing_part, split_need, need_if_called};

use signal_records::{Ped, Phase, SplitMode, need};

/// The part of a phase that decides how long it must be: the longer of two that begin together.
#[derive(Clone, Copy)]
pub enum NeedPart {
    /// Lead and minimum green, one after the other.
    Green,
    /// Walk and clearance, one after the other.
    Walk,
}

/// What a phase needs of its split.
#[derive(Clone, Copy)]
pub struct SplitNeed {
    /// The part that governs, with yellow and red, in tenths of a second.
    pub tenths: u32,
    /// The part that decides how long the phase must be.
    pub governs: NeedPart,
}

/// The need of a phase in a split mode: its minimum green or, where the mode calls the walk (modes
/// 5 and 6), the longer one of lead and minimum green, and walk and clearance; with yellow and red.
pub fn split_need(phase: &Phase, mode: SplitMode) -> SplitNeed
    ensures { result ≡ split_need phase.now mode }
{
    SplitNeed {
        tenths: need(phase, mode),
        governs: governing_part(phase, mode),
    }
}

/// The need of a phase whose walk is called, whatever calls it: the split mode or a button.
pub fn need_if_called(phase: &Phase) -> SplitNeed
    ensures { result ≡ need_if_called phase.now }
{
    split_need(phase, SplitMode::PedestrianRecall)
}

fn governing_part(phase: &Phase, mode: SplitMode) -> NeedPart
    ensures { result ≡ governing_part phase.now mode }
{
    match (mode, &phase.ped) {
        (SplitMode::PedestrianRecall | SplitMode::MaximumVehicleAndPedestrianRecall, Some(ped)) => {
            let Ped {
                walk,
                clear,
                lead,
                ..
            } = *ped;
            let green = lead.get() + u32::from(phase.min_green);
            if green < u32::from(walk) + u32::from(clear) {
                NeedPart::Walk
            } else {
                NeedPart::Green
            }
        }
        _ => NeedPart::Green,
    }
}
