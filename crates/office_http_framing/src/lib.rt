//! The framing of HTTP/1.1 requests, the two ends of a stream, and the engine that serves a stream
//! by a machine. Of the machine it knows only what the trait `Machine` says.
#![tactic(auto)]

pub mod buffer;
pub mod ends;
pub mod engine;
mod fields;
pub mod front;
pub mod giving_way;
pub mod laws;
pub mod machine;
