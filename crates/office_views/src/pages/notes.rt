//! The notes above a plan: how many reasons and warnings there are.

use safe_markup::Markup;
use signal_plans::{Scope, Warning};
use signal_rules::Explained;
use std::fmt;

/// Writes how many reasons there are why rules are broken, or that no rule is broken.
pub(crate) fn push_reasons_note(page: &mut Markup, reasons: &[Explained]) -> fmt::Result {
    if reasons.is_empty() {
        return page.own("<p class='sound'>It breaks no rule.</p>\n");
    }
    page.own("<p class='broken'>Reasons why rules are broken: ")?;
    page.enclose("", &reasons.len(), ". Each stands below its row.</p>\n")
}

/// Writes how many warnings there are, and the warnings of the plan as a whole; nothing if there
/// are none.
pub(crate) fn push_warnings_note(page: &mut Markup, warnings: &[Warning]) -> fmt::Result {
    if warnings.is_empty() {
        return Ok(());
    }
    page.own("<p class='warned'>Warnings: ")?;
    page.enclose("", &warnings.len(), ". They refuse nothing. ")?;
    page.own("Each stands below its row, or here if it is of the whole plan.</p>\n")?;
    for warning in warnings {
        if warning.subject == Scope::Plan {
            page.enclose("<p class='warned'>Warning: ", &warning.advice, "</p>\n")?;
        }
    }
    Ok(())
}
