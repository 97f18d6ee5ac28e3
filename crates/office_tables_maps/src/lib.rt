//! The tables of the office in memory, as maps of records.
#![tactic(auto)]

mod kept;
pub mod map_shelf;
pub mod maps;
mod place;
mod records;
mod under;
