//! What an office holds, as lists for its people: its intersections, its stock, a part, the open
//! orders, the used parts, what was done by day, and the register of a cabinet. Each of them but a
//! part and the register can also be CSV; the overdue inspections can only be CSV.
//!
//! A list as CSV reads back as the cells of its rows. Tests check which cells those are, and how a
//! line shows them.

mod intersections;
mod list;
mod orders;
mod part;
mod parts;
mod register;
mod used;
mod work;

pub use intersections::{intersections_list, overdue_csv};
pub use list::ListStyle;
pub use orders::{orders_by_age, orders_list, orders_text};
pub use part::{PartShown, part_text};
pub use parts::stock_list;
pub use register::cabinet_text;
pub use used::{Days, UsedPart, add_used, used_list};
pub use work::{DayWork, add_work, work_list};
