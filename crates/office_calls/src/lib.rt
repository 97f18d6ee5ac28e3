//! Each public call of the libraries and of the program, once, by its name, its form and the order
//! of its parameters: a file for each crate is the list of that crate's calls. A caller written
//! like these compiles.
//!
//! What the calls do over many values is said by their contracts, and tried by rows and by
//! `office_trials`, which also opens a `SqlShelf` over files in memory (`files.rt`).
#![tactic(auto)]

#[cfg(test)]
mod cabinet;
#[cfg(test)]
mod desk;
#[cfg(test)]
mod draft;
#[cfg(test)]
mod files;
#[cfg(test)]
mod http;
#[cfg(test)]
mod program;
#[cfg(test)]
mod records;
#[cfg(test)]
mod rules;
#[cfg(test)]
mod tables;
