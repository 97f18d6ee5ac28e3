//! Values that keep a range or a form of their own: numbers, words and lists.
#![tactic(auto)]

mod listing;
mod number;
mod numerals;
mod words;

pub use listing::Listing;
pub use number::{
    Amount, Cycle, InterId, Interval, Lead, LineNo, Number, Numbers, PHASES, PatternNo, PhaseNo,
    RINGS, RecordNo, RingNo, SeqNo, Setback, SplitNo, Width, no_lead,
};
pub use numerals::numeral;
pub use words::Words;

/// The error of an allocator that gave no memory.
pub use std::alloc::AllocError as NoMemory;
