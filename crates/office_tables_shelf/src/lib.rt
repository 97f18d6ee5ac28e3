//! The tables of the office as a trait, and what they hold.
#![tactic(auto)]

pub mod counts;
pub mod open_orders;
pub mod overdue;
pub mod register;
pub mod rows;
pub mod shelf;
