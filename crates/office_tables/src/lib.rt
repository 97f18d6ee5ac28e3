//! The tables of the office in SQL as a shelf, beside the trait, which this crate hands on: tables
//! that are found in a database are reported, taken, or made anew; rows are changed and listed, and
//! version 1 is brought to today's.
#![tactic(auto)]

pub mod foreign;
mod gather;
mod migrate;
pub mod open;
mod refill;
mod rewritten;
pub mod sql_shelf;
pub mod version;

pub use office_tables_maps::map_shelf;
pub use office_tables_shelf::{counts, register, rows, shelf};
pub use rewritten::Migrated;
