//! The cabinet register: days, parts on hand, records, and what becomes of a command on them.
#![tactic(auto)]

mod bounds;
mod command;
mod day;
mod decide;
mod open_orders;
mod ordered;
mod overdue_inspections;
mod part;
mod record;
mod refusal;

pub use bounds::record_is_within;
pub use command::RecordCommand;
pub use day::{Date, Day, push_date, read_day, write_date, write_day};
pub use decide::{CabinetChange, Recorded, close_order, inspect, open_order, receive, use_part};
pub use open_orders::open_count;
pub use ordered::{Ordered, Placed};
pub use overdue_inspections::{OverdueRow, Seen, due, later, latest, overdue, overdue_row};
pub use part::{Hand, MOST_ON_HAND, PartCode};
pub use record::{CabinetView, Closing, Delivery, Inspection, Opening, Order, UsedLine};
pub use refusal::CabinetRefusal;
