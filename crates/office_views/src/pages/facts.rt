//! The facts of an intersection above its plan.

use super::cell::{Cell, due_cell, last_cell, push_content};
use cabinet_core::{CabinetView, latest, open_count};
use draft_core::state::{DbState, Verdict};
use office_machine::reply::{IntersectionState, state_name};
use safe_markup::Markup;
use std::fmt;

fn verdict_words(verdict: Verdict) -> &'static str {
    match verdict {
        Verdict::NotDone => "not done",
        Verdict::DoneWithError => "done, with errors",
        Verdict::DoneWithNoError => "done, without errors",
    }
}

const NAMES: [&str; 9] = [
    "Last inspection",
    "Next inspection due",
    "Open orders",
    "State",
    "Draft of",
    "Verify status",
    "Revision",
    "Committed rows",
    "Warnings of the committed plan",
];

/// Whether a fact is shown in this state: only a draft that was handed over has a verify status.
fn is_told(name: &str, state: DbState) -> bool {
    *name != *"Verify status" || matches!(state, DbState::Verify | DbState::Done)
}

/// Writes the facts of the cabinet, of the plan and of its draft.
pub(crate) fn push_facts(
    page: &mut Markup,
    state: &IntersectionState,
    view: &CabinetView,
    warnings: usize,
) -> fmt::Result {
    let inspections = view.inspections.as_slice();
    let owner = match &state.owner {
        None => Cell::Words("nobody"),
        Some(owner) => Cell::Name(owner.as_str()),
    };
    let warnings = match warnings {
        0 => Cell::Words("none"),
        _ => Cell::Number(warnings as u64),
    };
    let values = [
        last_cell(latest(inspections)),
        due_cell(latest(inspections), state.interval, false),
        Cell::Number(open_count(view.orders.as_slice()) as u64),
        Cell::Words(state_name(state.state)),
        owner,
        Cell::Words(verdict_words(state.verify)),
        Cell::Number(u64::from(state.revision.get())),
        Cell::Number(state.rows as u64),
        warnings,
    ];
    page.own("<dl>\n")?;
    for (name, value) in NAMES.iter().zip(&values) {
        if is_told(name, state.state) {
            page.enclose("<div><dt>", name, "</dt><dd>")?;
            push_content(page, value)?;
            page.own("</dd></div>\n")?;
        }
    }
    page.own("</dl>\n")
}
