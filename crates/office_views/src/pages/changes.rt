//! The rows in which a draft differs from the committed plan.

use super::plan_rows::{TABLES, cells_of, kind_of_row};
use super::table::{Column, close_table, open_table, push_row};
use safe_markup::Markup;
use signal_plans::{Difference, compare};
use signal_records::TimingSet;
use std::fmt;

const REMOVED: &str = "<tr class='removed'><td class='w'>removed</td>";

const ADDED: &str = "<tr class='added'><td class='w'>added</td>";

const BEFORE: &str = "<tr class='before'><td class='w'>changed from</td>";

const AFTER: &str = "<tr class='after'><td class='w'>changed to</td>";

/// Writes a difference: one row if a row is removed or added, or two if it changes, with marks
/// where they differ.
fn push_change(
    page: &mut Markup,
    committed: &TimingSet,
    draft: &TimingSet,
    difference: &Difference,
) -> fmt::Result {
    match difference {
        Difference::Removed(row) => {
            let cells = cells_of(page.alloc(), committed, row)?;
            push_row(page, REMOVED, &cells, &[])
        }
        Difference::Added(row) => {
            let cells = cells_of(page.alloc(), draft, row)?;
            push_row(page, ADDED, &cells, &[])
        }
        Difference::Changed { before, after } => {
            let before = cells_of(page.alloc(), committed, before)?;
            let after = cells_of(page.alloc(), draft, after)?;
            push_row(page, BEFORE, &before, &after)?;
            push_row(page, AFTER, &after, &before)
        }
    }
}

fn kind_of(change: &Difference) -> usize {
    match change {
        Difference::Removed(row) | Difference::Added(row) => kind_of_row(row),
        Difference::Changed { before, .. } => kind_of_row(before),
    }
}

/// Writes the changes in rows of a kind, and ends their table.
fn push_kind(
    page: &mut Markup,
    kind: usize,
    committed: &TimingSet,
    draft: &TimingSet,
    changes: &[Difference],
) -> fmt::Result {
    for change in changes {
        if kind_of(change) == kind {
            push_change(page, committed, draft, change)?;
        }
    }
    close_table(page)
}

/// Writes what a draft changes, in a box with its heading.
pub(crate) fn push_changes(
    page: &mut Markup,
    committed: &TimingSet,
    draft: &TimingSet,
) -> fmt::Result {
    let changes = compare(page.alloc(), committed, draft)?;
    page.own("<div class='changes'>\n<h3>What it changes</h3>\n")?;
    if changes.is_empty() {
        page.own("<p>It changes nothing of the committed plan.</p>\n")?;
    }
    for (kind, (name, columns)) in TABLES.iter().enumerate() {
        if changes.iter().any(|change| kind_of(change) == kind) {
            let mut all = Vec::new(page.alloc());
            all.extend_from_slice(&[Column::Words("Change")])?;
            all.extend_from_slice(columns)?;
            open_table(page, name, " that change", &all, false)?;
            push_kind(page, kind, committed, draft, &changes)?;
        }
    }
    page.own("</div>\n")
}
