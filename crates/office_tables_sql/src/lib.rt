//! The rows of the office's tables in SQL: found, listed, counted, put and removed, each table by
//! its own fixed texts.
#![tactic(auto)]

pub mod cabinet;
pub mod change;
pub mod each_row;
pub mod plan;
pub mod register;
pub mod stored_row;
