//! Markup, as HTML or SVG, to which no name or text of others can add a tag.
#![tactic(auto)]

mod escaping;
mod markup;

pub use markup::Markup;
