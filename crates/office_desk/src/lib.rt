//! The commands and queries of the office, over any shelf, which stores the tables.
#![tactic(auto)]

mod checking;
mod deciding;
mod found;
mod importing;
pub mod office;
mod reading;
mod recording;
mod register_showing;
mod there;

pub use cabinet_core::RecordCommand;
pub use checking::Checked;
pub use office_desk_timing::PlanEdit;
pub use office_machine::command::Command;
pub use office_machine::refusal::Refusal;
pub use office_machine::reply::Reply;
pub use office_tables_decisions::decided;
pub use there::There;
