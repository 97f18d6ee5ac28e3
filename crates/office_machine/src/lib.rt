//! The office machine: what the office is asked, what it answers, and what each command means. The
//! desk, the readers of requests and the writers of answers use it; those readers and writers do
//! not know the desk.
#![tactic(auto)]

pub mod command;
pub mod intersections;
pub mod orders;
pub mod records;
pub mod refusal;
pub mod reply;
