//! Intersections as a list shows them.

use draft_core::revision::Revision;
use draft_core::state::Holder;
use signal_records::{InterId, Interval, Words};

/// An intersection in the list of all of them. To list it, no draft is judged.
#[derive(Drop)]
pub struct ListedIntersection {
    pub id: InterId,
    pub name: Words<120>,
    /// Days from one inspection of its cabinet to the next.
    pub interval: Interval,
    /// How often its timing set was committed.
    pub revision: Revision,
    /// Who holds a draft of its timing, and how far that has come; nobody in state Normal.
    pub holder: Option<Holder>,
    /// How many rows the committed timing set has.
    pub rows: usize,
}
