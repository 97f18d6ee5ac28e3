//! The next free numbers of a cabinet's records.

use cabinet_core::{CabinetView, Placed};
use signal_records::RecordNo;
use std::alloc::AllocError;
use std::fmt::Write;

/// The number after the last of some records, which ascend; none if the last is 999999.
fn next_number<T: Placed>(records: &[T]) -> Option<RecordNo> {
    let last = match records.last() {
        Some(record) => record.place(),
        None => 0,
    };
    RecordNo::new(last.saturating_add(1))
}

/// Appends a next free number, or `none` if there is none.
fn push_next(text: &mut String, next: Option<RecordNo>) -> Result<(), AllocError> {
    match next {
        Some(number) => write!(text, "{}", number.get()),
        None => text.push_str("none"),
    }
}

/// Appends the next free numbers of an inspection and of an order of a cabinet, as `next free
/// numbers: inspection 5, order 3`: each is one more than the greatest, 1 if there is none yet, and
/// `none` if the greatest is 999999, the last.
pub fn push_next_numbers(text: &mut String, view: &CabinetView) -> Result<(), AllocError> {
    text.push_str("next free numbers: inspection ")?;
    push_next(text, next_number(view.inspections.as_slice()))?;
    text.push_str(", order ")?;
    push_next(text, next_number(view.orders.as_slice()))
}
