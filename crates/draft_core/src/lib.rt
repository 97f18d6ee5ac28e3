//! The database transaction of NTCIP 1201, and what each of its commands changes.
#![tactic(auto)]

pub mod changes;
pub mod decide;
mod drafting;
mod holding;
mod overlaying;
pub mod refusal;
pub mod step;
pub mod timing;

pub use changes::Changes;
pub use decide::{abandon, begin, check, commit, edit, reopen, revise, verify};
pub use holding::next_holder;
pub use overlaying::{copy_change, overlay, verdict};
pub use refusal::DraftRefusal;
pub use signal_records::{
    DbState, Holder, Holding, LAST_REVISION, Revision, Stage, Verdict, revision, state,
};
pub use step::Step;
pub use timing::{Move, Reach, Timing, TimingChange, TimingChanges};
