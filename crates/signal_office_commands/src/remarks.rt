//! What is printed of a plan: the rules that it breaks, and its warnings.

use office_files::violation_text;
use office_views::reasons_text;
use signal_plans::{warnings, warnings_text};
use signal_records::{NoMemory, TimingSet};
use signal_rules::{Violation, reasons};
use std::alloc::Global;

/// The status where a plan that is checked, or is to be committed, breaks a rule.
const HAS_VIOLATIONS: u8 = 3;

/// The status of a plan that was checked: 3 if it breaks a rule, else 0.
pub(crate) fn checked_status(violations: &[Violation]) -> u8 {
    if violations.is_empty() {
        0
    } else {
        HAS_VIOLATIONS
    }
}

/// The text of the rules that a plan breaks; with their reasons if `explain`.
fn broken_text(
    alloc: Global,
    plan: &TimingSet,
    violations: &[Violation],
    explain: bool,
) -> Result<Vec<u8>, NoMemory> {
    if explain {
        reasons_text(alloc, plan, &reasons(alloc, plan)?)
    } else {
        violation_text(alloc, violations)
    }
}

/// A line for each warning of a plan.
pub(crate) fn advice_text(alloc: Global, plan: &TimingSet) -> Result<Vec<u8>, NoMemory> {
    warnings_text(alloc, &warnings(alloc, plan)?)
}

/// The text of the rules that a plan breaks, with their reasons if `explain`, and then, if
/// `advise`, a line for each warning.
pub(crate) fn remarks_text(
    alloc: Global,
    plan: &TimingSet,
    violations: &[Violation],
    explain: bool,
    advise: bool,
) -> Result<Vec<u8>, NoMemory> {
    let mut text = broken_text(alloc, plan, violations, explain)?;
    if advise {
        text.extend_from_slice(&advice_text(alloc, plan)?)?;
    }
    Ok(text)
}
