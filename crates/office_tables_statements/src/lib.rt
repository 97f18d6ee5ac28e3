//! The tables of the office in SQL: their schema, which is the texts that make them and whether a
//! database has them; and statements on them: what a call of the database promises, what is stored
//! as cells, and the columns of a shown row as what they stand for.
#![tactic(auto)]

pub mod body;
pub mod body_reading;
pub mod listed;
pub mod parts;
pub mod schema;
pub mod statement;
pub mod tables;
pub mod value;
