//! How violations are written with their reasons.

use crate::need::NeedPart;
use crate::reason::{
    CrossingReason, Explained, IntervalReason, MateReason, PatternReason, Reason, SequenceReason,
    SplitReason,
};
use std::fmt;

/// A number of tenths, written as `13.5`.
#[derive(Clone, Copy)]
pub struct Tenths(pub u32);

impl fmt::Display for Tenths {
    fn fmt<W: fmt::Write>(&self, f: &mut fmt::Formatter<W>) -> fmt::Result {
        write!(f, "{}.{}", self.0 / 10, self.0 % 10)
    }
}

/// Writes the interval and its limit, as `yellow is 2.9 s, not 3.0 to 6.0 s`.
impl fmt::Display for IntervalReason {
    fn fmt<W: fmt::Write>(&self, f: &mut fmt::Formatter<W>) -> fmt::Result {
        match self {
            IntervalReason::Yellow { tenths } => {
                let yellow = Tenths(u32::from(*tenths));
                write!(f, "yellow is {yellow} s, not 3.0 to 6.0 s")
            }
            IntervalReason::Red { tenths } => {
                let red = Tenths(u32::from(*tenths));
                write!(f, "red is {red} s, more than 6.0 s")
            }
        }
    }
}

/// Writes what is too short or too long, as `walk is 6 s, less than 7 s`.
impl fmt::Display for CrossingReason {
    fn fmt<W: fmt::Write>(&self, f: &mut fmt::Formatter<W>) -> fmt::Result {
        match self {
            CrossingReason::ShortWalk { seconds, least } => {
                write!(f, "walk is {seconds} s, less than {least} s")
            }
            CrossingReason::SlowClearance {
                width,
                takes,
                there,
            } => write!(
                f,
                "{} ft at 3.5 ft/s take {} s; clearance, yellow and red are {} s",
                Tenths(*width),
                Tenths(*takes),
                Tenths(*there)
            ),
            CrossingReason::SlowSetback {
                length,
                takes,
                there,
            } => write!(
                f,
                "{} ft at 3 ft/s take {} s; walk, clearance, yellow and red are {} s",
                Tenths(*length),
                Tenths(*takes),
                Tenths(*there)
            ),
            CrossingReason::ShortLead { lead } => write!(f, "lead is {lead} s, less than 3 s"),
            CrossingReason::LongLead { lead, walk } => {
                write!(f, "lead is {lead} s, longer than the walk of {walk} s")
            }
        }
    }
}

/// Writes the mate and what is wrong with it, as `mate 9 is not in the plan`.
impl fmt::Display for MateReason {
    fn fmt<W: fmt::Write>(&self, f: &mut fmt::Formatter<W>) -> fmt::Result {
        match self {
            MateReason::NotInPlan { mate } => write!(f, "mate {} is not in the plan", mate.get()),
            MateReason::SameRing { mate, ring } => {
                write!(f, "mate {} is in ring {} too", mate.get(), ring.get())
            }
            MateReason::NotListed { mate } => write!(f, "mate {} does not list it", mate.get()),
        }
    }
}

/// Writes the phase and what is wrong with its place, as `phase 8 is missing in ring 2`.
impl fmt::Display for SequenceReason {
    fn fmt<W: fmt::Write>(&self, f: &mut fmt::Formatter<W>) -> fmt::Result {
        match self {
            SequenceReason::NotInPlan { phase } => write!(f, "{} is not in the plan", phase.get()),
            SequenceReason::OtherRing { phase, ring, own } => write!(
                f,
                "phase {} stands in ring {}, and is of ring {}",
                phase.get(),
                ring.get(),
                own.get()
            ),
            SequenceReason::Missing { phase, ring } => {
                write!(f, "phase {} is missing in ring {}", phase.get(), ring.get())
            }
            SequenceReason::Repeated { phase } => write!(f, "phase {} stands twice", phase.get()),
        }
    }
}

/// Writes `green` or `walk`.
impl fmt::Display for NeedPart {
    fn fmt<W: fmt::Write>(&self, f: &mut fmt::Formatter<W>) -> fmt::Result {
        f.write_str(match self {
            NeedPart::Green => "green",
            NeedPart::Walk => "walk",
        })
    }
}

/// Writes what does not fit, as `5 s, and omitted`, or the phase that is missing.
impl fmt::Display for SplitReason {
    fn fmt<W: fmt::Write>(&self, f: &mut fmt::Formatter<W>) -> fmt::Result {
        match self {
            SplitReason::NotInPlan { phase } => {
                write!(f, "phase {} is not in the plan", phase.get())
            }
            SplitReason::NoTime => f.write_str("0 s, and not omitted"),
            SplitReason::TimeOmitted { time, coord: true } => {
                write!(f, "{time} s and coordinated, and omitted")
            }
            SplitReason::TimeOmitted { time, coord: false } => write!(f, "{time} s, and omitted"),
            SplitReason::Short { time, need } => write!(
                f,
                "{time} s, and the need is {} s: {} governs",
                Tenths(need.tenths),
                need.governs
            ),
            SplitReason::CoordinatedOmitted => f.write_str("coordinated, and omitted"),
        }
    }
}

/// Writes what the pattern lacks, or which of its times do not fit, as `offset 60 s, cycle 60 s`.
impl fmt::Display for PatternReason {
    fn fmt<W: fmt::Write>(&self, f: &mut fmt::Formatter<W>) -> fmt::Result {
        match self {
            PatternReason::NoSequence { seq } => write!(f, "sequence {} has no row", seq.get()),
            PatternReason::NoSplit { split, phase } => {
                write!(
                    f,
                    "split {} has no row for phase {}",
                    split.get(),
                    phase.get()
                )
            }
            PatternReason::LateOffset { offset, cycle } => {
                write!(f, "offset {offset} s, cycle {} s", cycle.get())
            }
            PatternReason::NoneCoordinated { split } => {
                write!(
                    f,
                    "split {} has no coordinated phase of the plan",
                    split.get()
                )
            }
            PatternReason::OtherSum { ring, sum, cycle } => write!(
                f,
                "ring {} adds up to {sum} s, the cycle is {} s",
                ring.get(),
                cycle.get()
            ),
            PatternReason::Conflict {
                from,
                until,
                phase,
                other,
            } => write!(
                f,
                "from second {from} to {until} phases {} and {} time together \
                 and do not list each other",
                phase.get(),
                other.get()
            ),
        }
    }
}

/// Writes the reason without its violation, as `offset 60 s, cycle 60 s`.
impl fmt::Display for Reason {
    fn fmt<W: fmt::Write>(&self, f: &mut fmt::Formatter<W>) -> fmt::Result {
        match self {
            Reason::Interval(reason) => write!(f, "{reason}"),
            Reason::Crossing(reason) => write!(f, "{reason}"),
            Reason::Mate(reason) => write!(f, "{reason}"),
            Reason::Sequence(reason) => write!(f, "{reason}"),
            Reason::Split(reason) => write!(f, "{reason}"),
            Reason::Pattern(reason) => write!(f, "{reason}"),
        }
    }
}

/// Writes the violation and its reason, as `pattern 1 V10: offset 60 s, cycle 60 s`.
impl fmt::Display for Explained {
    fn fmt<W: fmt::Write>(&self, f: &mut fmt::Formatter<W>) -> fmt::Result {
        write!(f, "{}: {}", self.violation, self.reason)
    }
}
