//! Requests read as commands: the routes, the fields of paths, and the JSON and CSV of bodies. An
//! answer depends on the form that the request asks for (`form`), or on why the request asks
//! nothing (`fault`) and which field is to blame (`field`).
#![tactic(auto)]

mod body;
mod cache;
mod command;
mod csv_body;
mod fault;
mod field;
mod form;
mod kind;
mod path;
mod record;
mod recording;
mod route;
mod rows;
mod value;

pub use cache::RouteCache;
pub use command::{Asked, command_of};
pub use fault::AskFault;
pub use field::Field;
pub use form::Form;
pub use kind::RecordKind;
pub use route::{Endpoint, Routes};
