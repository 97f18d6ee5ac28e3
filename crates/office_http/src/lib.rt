//! The office behind HTTP/1.1: bytes in, bytes out.
//!
//! The framing of requests and the engine are in `office_http_framing`, the reading of requests as
//! commands in `office_http_requests`, the writing of replies as answers in
//! `office_http_responses`; some of their public names are exported again here.
#![tactic(auto)]

mod asking;
mod away;
mod connection_reader;
mod ended;
mod from_listener;
mod listening;
mod machine;
mod service;
mod waiting;

pub use asking::Asking;
pub use connection_reader::ConnectionReader;
pub use from_listener::{FromListener, serve_on};
pub use listening::{
    Connection, Listen, ListenCounts, ServeStop, TurnEnd, answer_away, serve_each,
};
pub use office_http_framing::buffer::Buffer;
pub use office_http_framing::ends::{
    Counts, FromRead, NextStep, Sink, Source, ToWrite, Wait, WriteFailed, write_all,
};
pub use office_http_framing::engine::{Part, PartEnd, ServeFault, Served};
pub use office_http_framing::front::{Fault, Front, Request, next_request};
pub use office_http_requests::{AskFault, Asked, Field, Form, command_of};
pub use office_http_responses::{More, answer_of, fault_answer, unavailable};
pub use service::{serve, serve_buffered};
pub use waiting::WaitsOnce;
