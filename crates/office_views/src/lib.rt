//! What an office or a plan holds, as texts for people: pages as HTML; lists and registers as lines
//! of columns, and lists as CSV too.
#![tactic(auto)]

mod lists;
mod pages;
mod resting;

pub use lists::{
    DayWork, Days, ListStyle, PartShown, UsedPart, add_used, add_work, cabinet_text,
    intersections_list, orders_by_age, orders_list, orders_text, overdue_csv, part_text,
    stock_list, used_list, work_list,
};
pub use pages::{
    IndexEntry, IndexShown, IntersectionShown, add_entry, index_page, intersection_page, plan_page,
};
pub use resting::reasons_text;
