//! Tests of the crates below the tables, of what no row file says: which changes touch which
//! subjects, at how many seconds phases are compared, what a revision in one step makes of a plan,
//! and days held against a calendar. They stand in a crate of their own, since a crate with tests
//! is proved twice.
#![tactic(auto)]

#[cfg(test)]
mod day_tests;
#[cfg(test)]
mod files_tests;
#[cfg(test)]
mod revising_tests;
#[cfg(test)]
mod rules_tests;
#[cfg(test)]
mod spelling;
