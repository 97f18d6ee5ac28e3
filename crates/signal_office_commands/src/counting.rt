//! How many rows two plans differ in, and the first of their differences, in words.

use signal_plans::{Difference, comparison_text};
use signal_records::NoMemory;
use std::alloc::{AllocError, Global};
use std::fmt::Write;

/// How many differences are printed one by one, at most.
const MOST_TOLD: usize = 10;

/// How many rows were added, changed and removed.
#[derive(Clone, Copy)]
pub(crate) struct RowCounts {
    pub(crate) added: usize,
    pub(crate) changed: usize,
    pub(crate) removed: usize,
}

/// How many rows were added, changed and removed, by these differences.
pub(crate) fn count_rows(differences: &[Difference]) -> RowCounts {
    let added = differences
        .iter()
        .filter(|&it| matches!(it, Difference::Added(_)))
        .count();
    let removed = differences
        .iter()
        .filter(|&it| matches!(it, Difference::Removed(_)))
        .count();
    let rest = added.saturating_add(removed);
    RowCounts {
        added,
        changed: differences.len().saturating_sub(rest),
        removed,
    }
}

/// Appends how many rows were added, changed and removed, without counts of zero, as
/// `4 rows changed, 1 removed`; `no row changed` if all are zero.
pub(crate) fn push_counts(text: &mut String, differences: &[Difference]) -> Result<(), AllocError> {
    let RowCounts {
        added,
        changed,
        removed,
    } = count_rows(differences);
    let mut is_first = true;
    for (count, what) in &[(added, "added"), (changed, "changed"), (removed, "removed")] {
        match (is_first, *count) {
            (_, 0) => continue,
            (true, 1) => write!(text, "1 row {what}")?,
            (true, _) => write!(text, "{count} rows {what}")?,
            (false, _) => write!(text, ", {count} {what}")?,
        }
        is_first = false;
    }
    if is_first {
        text.push_str("no row changed")?;
    }
    Ok(())
}

/// A line for each of the first ten differences, and then how many more there are.
pub(crate) fn first_text(alloc: Global, differences: &[Difference]) -> Result<Vec<u8>, NoMemory> {
    if differences.is_empty() {
        return Ok(Vec::new(alloc));
    }
    if differences.len() <= MOST_TOLD {
        return comparison_text(alloc, differences);
    }
    let mut text = comparison_text(alloc, &differences[..MOST_TOLD])?;
    let more = differences.len() - MOST_TOLD;
    text.extend_from_slice(format!(in alloc; "and {more} more\n")?.as_bytes())?;
    Ok(text)
}
