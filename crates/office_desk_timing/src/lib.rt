//! The commands and queries of intersections and their timing, decided over any shelf.
#![tactic(auto)]

mod changing;
mod reading;
mod revising;
mod showing;

pub use changing::{decide_add, transact};
pub use reading::intersection_row;
pub use revising::{PlanEdit, decide_revision};
pub use showing::{decide_draft, decide_state, decide_timing, list_intersections};
