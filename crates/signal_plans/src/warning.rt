//! What an engineer is warned of in a plan, whether it breaks a rule or not.

use signal_records::PhaseNo;
use signal_rules::{SplitNeed, Subject};

/// What a warning is about.
#[derive(Clone, Copy, PartialEq, Eq)]
pub enum Scope {
    /// A phase, a split row or a pattern.
    Subject(Subject),
    /// The plan as a whole.
    Plan,
}

/// What a warning says, with its numbers. Times are in seconds where no other unit is named.
#[derive(Clone, Copy)]
pub enum Advice {
    /// Of a phase: its maximum green is below its minimum green.
    MaximumBelowMinimum {
        maximum: u8,
        minimum: u8,
    },
    /// Of a phase: its minimum green is 0.
    NoMinimumGreen,
    /// Of a phase: it lists no mate, in a plan of so many rings, more than one.
    NoConcurrentPhase {
        rings: usize,
    },
    /// Of a phase: the plan has patterns, and each omits the phase, or has no split for it.
    NeverServed,
    /// Of a phase: its passage, in tenths of a second, is less than half a second.
    ShortPassage {
        passage: u8,
    },
    /// Of a phase: its red, in tenths of a second, is less than half a second.
    ShortRed {
        red: u8,
    },
    /// Of a phase: its crossing, so many tenths of a foot wide, has no clearance.
    NoClearance {
        width: u32,
    },
    /// Of a phase: the width of its crossing is 0, so not measured.
    NotMeasured,
    /// Of a phase: its crossing, so many tenths of a foot wide, is measured and less than 20 feet
    /// wide.
    NarrowCrossing {
        width: u32,
    },
    /// Of a phase: its crossing, so many tenths of a foot wide, is more than 200 feet wide.
    WideCrossing {
        width: u32,
    },
    /// Of a split row: its time is less than the phase needs if a button calls the walk.
    WalkIfCalled {
        time: u8,
        need: SplitNeed,
    },
    /// Of a split row: its mode calls the walk of a phase that has no crossing.
    RecallWithoutWalk,
    /// Of a split row: its phase is coordinated and has no second of green. What it shows besides
    /// green, a called lead, yellow and red, is in tenths of a second.
    NoGreen {
        time: u8,
        besides: u32,
    },
    /// Of a pattern: all phases, so many, are coordinated, and two of them have no second of the
    /// cycle in common.
    AllCoordinated {
        phases: usize,
    },
    /// Of a pattern: two coordinated phases have no second of the cycle in common.
    CoordinatedApart {
        phase: PhaseNo,
        other: PhaseNo,
    },
    /// Of a pattern: a phase has so much time, more than half of the cycle, and another one in its
    /// ring has no second more than it needs.
    LongSplit {
        phase: PhaseNo,
        time: u32,
        cycle: u32,
        other: PhaseNo,
    },
    /// Of a plan: it has so many phases, and no pattern.
    NoPattern {
        phases: usize,
    },
    /// Of a plan with so many rings: each phase may time with every phase of the other rings.
    NoConflict {
        rings: usize,
    },
}

/// What an engineer is warned of, with what the warning is about.
#[derive(Clone, Copy)]
pub struct Warning {
    pub subject: Scope,
    pub advice: Advice,
}
