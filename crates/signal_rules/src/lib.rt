//! The rules V1 to V14 of a timing set: which of them a set breaks, and which subjects a change
//! touches.
//!
//! The objects are those of NTCIP 1202 v03, and the kinds of interval limits are after MUTCD 2009,
//! part 4, sections 4D.26 and 4E.06; the numbers are this project's. `specs/` has the definitions,
//! a file for each kind of subject.
#![tactic(auto)]

mod counting;
mod explaining;
mod judging;
mod lanes;
mod lookup;
mod need;
mod pattern;
mod phase;
mod reach;
mod reason;
mod sequence;
mod split;
mod subjects;
mod texts;
mod violation;

pub use counting::{Judge, Tally, violations_touched};
pub use explaining::{reasons, reasons_at};
pub use judging::violations;
pub use lanes::{lane_seconds, lists, time_of, used_rings};
pub use lookup::{has_phase, pattern_at, phase_at, phases_of, ring_row, split_at};
pub use need::{NeedPart, SplitNeed, need_if_called, split_need};
pub use pattern::is_coordinated;
pub use phase::clearance;
pub use reach::touched;
pub use reason::{
    CrossingReason, Explained, IntervalReason, MateReason, PatternReason, Reason, SequenceReason,
    SplitReason,
};
pub use sequence::has_sequence;
pub use subjects::{subject_of, subjects_of};
pub use texts::Tenths;
pub use violation::{Rule, Subject, Violation};
