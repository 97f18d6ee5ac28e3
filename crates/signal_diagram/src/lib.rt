//! The picture of a pattern: its rings and barriers, and below them its warnings.
//!
//! Engineers call it a ring-and-barrier or phase diagram. `chart` says which phase each ring has
//! from which second to which, `phases` and `lines` which shapes are drawn for that, and `picture`
//! has them as a value, which the contracts describe. `document`, `words` and `svg` draw that
//! value.
#![tactic(auto)]

mod chart;
mod document;
mod lines;
mod phases;
mod picture;
mod shapes;
mod svg;
mod words;

pub use document::{diagram, figure, most_seconds};
pub use picture::{Picture, Sizing, picture_of};
pub use shapes::{Band, Shape};
pub use words::PlanOf;
