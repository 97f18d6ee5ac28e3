//! Why a subject breaks a rule, in numbers.

use crate::need::SplitNeed;
use crate::violation::Violation;
use signal_records::{Cycle, PhaseNo, RingNo, SeqNo, SplitNo};

/// Why a phase breaks V1 or V2, in tenths of a second.
#[derive(Clone, Copy)]
pub enum IntervalReason {
    /// V1: the yellow change interval is not 3.0 to 6.0 seconds.
    Yellow { tenths: u8 },
    /// V2: the red clearance interval is over 6.0 seconds.
    Red { tenths: u8 },
}

/// Why the crossing of a phase breaks V3, V4, V5 or V14.
#[derive(Clone, Copy)]
pub enum CrossingReason {
    /// V3: the walk and the least one, in seconds.
    ShortWalk { seconds: u8, least: u8 },
    /// V4: the width in tenths of a foot, and in tenths of a second how long crossing it takes, and
    /// how long clearance, yellow and red are.
    SlowClearance { width: u32, takes: u32, there: u32 },
    /// V5: setback and width together in tenths of a foot, and in tenths of a second how long
    /// crossing them takes, and how long walk, clearance, yellow and red are.
    SlowSetback { length: u32, takes: u32, there: u32 },
    /// V14: the lead in seconds, 1 or 2, which is less than 3.
    ShortLead { lead: u32 },
    /// V14: a lead that is longer than the walk, both in seconds.
    LongLead { lead: u32, walk: u8 },
}

/// Why a mate of a phase breaks V6.
#[derive(Clone, Copy)]
pub enum MateReason {
    /// The set does not have the mate.
    NotInPlan { mate: PhaseNo },
    /// The mate is in the ring of the phase.
    SameRing { mate: PhaseNo, ring: RingNo },
    /// The mate does not list the phase.
    NotListed { mate: PhaseNo },
}

/// Why a sequence breaks V7.
#[derive(Clone, Copy)]
pub enum SequenceReason {
    /// A row has a phase that the set does not have.
    NotInPlan {
        phase: PhaseNo,
    },
    /// A row has a phase of another ring than its own.
    OtherRing {
        phase: PhaseNo,
        ring: RingNo,
        own: RingNo,
    },
    /// The row of its ring lacks a phase of the set.
    Missing {
        phase: PhaseNo,
        ring: RingNo,
    },
    /// The row of its ring has a phase of the set more than once.
    Repeated {
        phase: PhaseNo,
    },
}

/// Why a split row breaks V8. Times are in seconds.
#[derive(Clone, Copy)]
pub enum SplitReason {
    /// The set does not have the phase of the row.
    NotInPlan { phase: PhaseNo },
    /// The phase has no time, and is not omitted.
    NoTime,
    /// The phase has time, and is omitted; `coord` tells whether it is coordinated too.
    TimeOmitted { time: u8, coord: bool },
    /// The time is less than the need of the phase.
    Short { time: u8, need: SplitNeed },
    /// The phase has no time, is coordinated, and is omitted.
    CoordinatedOmitted,
}

/// Why a pattern breaks V9 to V13. Times are in seconds.
#[derive(Clone, Copy)]
pub enum PatternReason {
    /// V9: the sequence of the pattern has no row.
    NoSequence {
        seq: SeqNo,
    },
    /// V9: the split number of the pattern has no row for a phase of the set.
    NoSplit {
        split: SplitNo,
        phase: PhaseNo,
    },
    /// V10: the offset is not less than the cycle.
    LateOffset {
        offset: u8,
        cycle: Cycle,
    },
    /// V11: the split number of the pattern coordinates no phase of the set.
    NoneCoordinated {
        split: SplitNo,
    },
    /// V12: the splits of a ring's row add up to more or less than the cycle.
    OtherSum {
        ring: RingNo,
        sum: u32,
        cycle: Cycle,
    },
    /// V13: two phases time together, from second `from` on, that do not list each other. At second
    /// `until` the first of them is over.
    Conflict {
        from: u32,
        until: u32,
        phase: PhaseNo,
        other: PhaseNo,
    },
}

/// Why a subject breaks a rule.
#[derive(Clone, Copy)]
pub enum Reason {
    Interval(IntervalReason),
    Crossing(CrossingReason),
    Mate(MateReason),
    Sequence(SequenceReason),
    Split(SplitReason),
    Pattern(PatternReason),
}

/// A violation and its reason.
#[derive(Clone, Copy)]
pub struct Explained {
    pub violation: Violation,
    pub reason: Reason,
}
