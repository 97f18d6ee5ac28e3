//! Which office the tables stand for, what each decision on them promises, the value that a
//! decision gives, and what several decisions read. This crate stands above the machine and the
//! trait `Shelf`, which know nothing of each other.
//!
//! `specs/StandFor.antt` says which rows are those of an office, `specs/Deciding.antt` what a
//! decision promises.
#![tactic(auto)]

pub mod committed;
pub mod decided;
