//! The cabinet register over any shelf: it decides commands and answers queries.
#![tactic(auto)]

mod deciding;
mod pending;
mod rows;
mod showing;

pub use deciding::{Taken, decide_record};
pub use pending::{Pending, record_at};
pub use showing::{cabinet_view, open_orders, stock};
