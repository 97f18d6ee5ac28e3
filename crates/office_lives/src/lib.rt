//! Files that live through several runs: what one run leaves, the next one finds. The proofs use
//! only public contracts, and hold over any disk.
#![tactic(auto)]

mod commands;
mod cutting;
mod ending;
mod failing;
mod lives;
mod stopping;
mod turns;

pub use commands::{Around, served_around};
pub use cutting::{CutShort, done_unclosed, served_after_a_command};
pub use failing::{served_over, served_unclosed};
pub use lives::{Outcome, Twice, migrated_and_served, served_after_a_stop, served_twice};
pub use turns::{InTurns, TurnOutcome, TwoTurns, done_in_turns, served_in_turns};
