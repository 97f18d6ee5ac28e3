//! The pages of an office as HTML texts: the page of an intersection, the page of a plan alone, and
//! the index of all intersections. Each needs no files but those of the pages that it links to.
//!
//! `Markup` ensures that no character of a name or text of others is markup. No other clause says
//! what a page contains: tests check that it shows what it should.

mod cabinet;
mod cell;
mod changes;
mod document;
mod facts;
mod index;
mod notes;
mod pictures;
mod plan_rows;
mod plan_tables;
mod shown;
mod splits;
mod style;
mod table;

pub use document::{intersection_page, plan_page};
pub use index::index_page;
pub use shown::{IndexEntry, IndexShown, IntersectionShown, add_entry};
