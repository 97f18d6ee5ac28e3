//! What is shown of the plan in a CSV file.

use crate::remarks::{checked_status, remarks_text};
use office_files::read_plan_csv;
use office_views::plan_page;
use signal_diagram::diagram;
use signal_office_faults::{Done, Fault};
use signal_office_line::PlanShown;
use signal_records::{PatternNo, TimingSet};
use signal_rules::violations;
use std::alloc::Global;

/// The rules that a plan breaks, with reasons if `explain`, and its warnings if `advise`; the
/// status is 3 if it breaks a rule, else 0.
fn show_remarks(
    alloc: Global,
    plan: &TimingSet,
    explain: bool,
    advise: bool,
) -> Result<Done, Fault> {
    let broken = violations(alloc, plan)?;
    let text = remarks_text(alloc, plan, &broken, explain, advise)?;
    Ok(Done::ending(text, checked_status(&broken)))
}

/// The picture of a pattern of a plan; `UnknownPattern` if the plan does not have it.
fn draw(alloc: Global, plan: &TimingSet, pattern: PatternNo) -> Result<Done, Fault> {
    match diagram(alloc, plan, pattern, None)? {
        Some(text) => Ok(Done::with(text)),
        None => Err(Fault::UnknownPattern),
    }
}

/// The name of a plan's file on its page.
fn file_name(path: &str) -> &str {
    if *path == *"-" {
        "standard input"
    } else {
        path
    }
}

/// What is shown of the plan of a file: the rules that it breaks, the picture of a pattern, or its
/// page.
fn show(alloc: Global, path: &str, plan: &TimingSet, shown: PlanShown) -> Result<Done, Fault> {
    match shown {
        PlanShown::Violations { explain, advise } => show_remarks(alloc, plan, explain, advise),
        PlanShown::Diagram { pattern } => draw(alloc, plan, pattern),
        PlanShown::Page => Ok(Done::with(plan_page(alloc, file_name(path), plan)?)),
    }
}

/// Shows the plan in the CSV file at a path (`-` for standard input). The status is 3 if its rules
/// are shown and it breaks one. A fault is its first bad record, a pattern that the plan lacks, or
/// refused memory.
pub fn show_plan(alloc: Global, path: &str, csv: &[u8], shown: PlanShown) -> Result<Done, Fault> {
    let plan = read_plan_csv(alloc, csv)?;
    show(alloc, path, &plan, shown)
}
