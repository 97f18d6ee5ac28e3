//! How the versions of the row grammar differ.

ghost use Rattle.std.specs.Prelude.{◌≡◌};
ghost use Rattle.signal_records.specs.Reading.{ped_width};

use signal_values::{PHASES, RINGS};

/// The limits of a version of the row grammar.
#[derive(Clone, Copy)]
pub struct Limits {
    /// The last phase.
    pub phases: u32,
    /// The last ring.
    pub rings: u32,
    /// Whether a pedestrian part has a lead.
    pub has_lead: bool,
}

impl Limits {
    /// How many fields a pedestrian part has: six with a lead, and five without.
    pub(crate) fn ped_width(self) -> usize
        ensures { result ≡ ped_width self.has_lead }
    {
        if self.has_lead { 6 } else { 5 }
    }
}

/// The limits of today's version.
pub(crate) const CURRENT_LIMITS: Limits = Limits {
    phases: PHASES,
    rings: RINGS,
    has_lead: true,
};

/// The limits of version 1, which has no leading pedestrian interval.
pub(crate) const VERSION_1_LIMITS: Limits = Limits {
    phases: 16,
    rings: 4,
    has_lead: false,
};
