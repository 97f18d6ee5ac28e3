//! The tables of a plan, each row with the remarks on it below.

use super::plan_rows::{TABLES, cells_of, kind_of_row};
use super::table::{close_table, open_table, push_row};
use crate::resting::rest_remark;
use safe_markup::Markup;
use signal_plans::{Scope, Warning};
use signal_records::{Row, TimingSet};
use signal_rules::{Explained, Subject, subject_of};
use std::fmt;

/// The remarks on a plan that its page shows.
#[derive(Clone, Copy)]
pub(crate) struct Remarks<'a> {
    /// The reasons why the plan breaks rules.
    pub(crate) reasons: &'a [Explained],
    /// The plan's warnings.
    pub(crate) warnings: &'a [Warning],
}

/// Writes the remarks on a subject, each in a row over so many columns.
fn push_remarks(
    page: &mut Markup,
    columns: usize,
    set: &TimingSet,
    remarks: &Remarks<'_>,
    subject: &Subject,
) -> fmt::Result {
    for broken in remarks.reasons {
        if broken.violation.subject == *subject {
            let rest = rest_remark(page.alloc(), set, broken)?;
            page.enclose("<tr class='why'><td colspan='", &columns, "'><p>")?;
            page.enclose("", &broken.violation.rule, ": ")?;
            page.enclose("", &broken.reason, "")?;
            page.enclose("", &rest, "</p></td></tr>\n")?;
        }
    }
    for warning in remarks.warnings {
        if warning.subject == Scope::Subject(*subject) {
            page.enclose("<tr class='warned'><td colspan='", &columns, "'><p>")?;
            page.enclose("Warning: ", &warning.advice, "</p></td></tr>\n")?;
        }
    }
    Ok(())
}

/// Writes the rows of a kind, over so many columns, each with its remarks below it.
fn push_rows(
    page: &mut Markup,
    kind: usize,
    columns: usize,
    set: &TimingSet,
    remarks: &Remarks<'_>,
    rows: &[Row],
) -> fmt::Result {
    for row in rows {
        if kind_of_row(row) == kind {
            push_row(page, "<tr>", &cells_of(page.alloc(), set, row)?, &[])?;
            push_remarks(page, columns, set, remarks, &subject_of(row))?;
        }
    }
    Ok(())
}

/// Writes the tables of a plan by its rows; `whose` follows the name of each.
pub(crate) fn push_plan_tables(
    page: &mut Markup,
    whose: &'static str,
    set: &TimingSet,
    remarks: &Remarks<'_>,
    rows: &[Row],
) -> fmt::Result {
    for (kind, (name, columns)) in TABLES.iter().enumerate() {
        let is_shown = rows.iter().any(|row| kind_of_row(row) == kind);
        open_table(page, name, whose, columns, !is_shown)?;
        push_rows(page, kind, columns.len(), set, remarks, rows)?;
        close_table(page)?;
    }
    Ok(())
}
