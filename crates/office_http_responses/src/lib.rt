//! Replies and faults written as responses of HTTP, with their content in JSON.
#![tactic(auto)]

mod answer;
mod cabinet;
mod csv_text;
mod day;
mod fault;
mod fixed_answer;
mod head;
mod lists;
mod reply;
mod writing;

pub use answer::{answer_of, damaged};
pub use fault::{More, ask_fault_answer, fault_answer, framing_fault_answer};
pub use fixed_answer::unavailable;
