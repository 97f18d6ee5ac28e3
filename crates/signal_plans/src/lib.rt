//! What is said of timing plans besides the rules: what a plan without violations means on the
//! street, what an engineer is warned of in a plan, and how two plans differ. A warning refuses
//! nothing.
//!
//! Seconds and objects are those of NTCIP 1202 v03. `specs/Timing.antt` says when a phase times,
//! `specs/Intervals.antt` what it shows then, and `specs/StreetLaws.antt` has the laws. Each
//! warning has a definition, in a file for each kind of subject, and `specs/Warnings.antt` has
//! their order. `specs/Difference.antt` says how two plans differ.
#![tactic(auto)]

mod advising;
mod comparing;
mod comparison;
mod difference;
mod pattern;
mod phase;
mod plan;
mod split;
mod street;
mod texts;
mod warning;

pub use advising::{warnings, warnings_of_pattern};
pub use comparing::compare;
pub use comparison::comparison_text;
pub use difference::{Difference, changes};
pub use street::{is_fit_for_the_street, is_fit_however_called};
pub use texts::warnings_text;
pub use warning::{Advice, Scope, Warning};
