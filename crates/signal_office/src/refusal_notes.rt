//! Notes on standard error, before the fault, on what an office refused: which intersection,
//! pattern or draft.

use draft_core::refusal::DraftRefusal;
use office_machine::refusal::Refusal;
use signal_office_faults::{Done, Fault, note, note_text};
use signal_office_line::{Request, Shown};
use signal_values::{InterId, PatternNo};

/// The intersection that a report shows, if it shows one.
fn shown_id(shown: &Shown<'_>) -> Option<InterId> {
    match shown {
        Shown::Sheet { id }
        | Shown::Cabinet { id }
        | Shown::Export { id, .. }
        | Shown::Diagram { id, .. }
        | Shown::CompareDraft { id, .. }
        | Shown::CompareRunning { id, .. }
        | Shown::Page { id, .. } => Some(*id),
        Shown::Orders { id, .. } => *id,
        _ => None,
    }
}

/// The intersection that a request names, if it names one.
fn id_of(request: &Request<'_>) -> Option<InterId> {
    match request {
        Request::Show(shown) => shown_id(shown),
        Request::Add { id, .. } | Request::Abandon { id, .. } => Some(*id),
        Request::Edit(edit) => Some(edit.id),
        Request::Fill { .. } | Request::Import { .. } => None,
    }
}

/// Says that an office has no such intersection.
fn note_intersection(rt: &HostRuntime, path: &str, id: InterId) {
    if let Ok(before) = format!(in rt.alloc(); "there is no intersection {} in ", id.get()) {
        note(rt, before.as_str(), path, "");
    }
}

/// Says that the plan of a CSV file, or the committed plan of an intersection, has no such pattern.
fn note_pattern(rt: &HostRuntime, plan: &str, pattern: PatternNo) {
    if let Ok(before) = format!(in rt.alloc();
        "there is no pattern {} in the plan of ",
        pattern.get()
    ) {
        note(rt, before.as_str(), plan, "");
    }
}

/// Says that the plan of a CSV file lacks a pattern, if that is why nothing was shown.
pub(crate) fn note_unshown(
    rt: &HostRuntime,
    plan: &str,
    done: &Result<Done, Fault>,
    pattern: &Option<PatternNo>,
) {
    if let (Err(Fault::UnknownPattern), Some(pattern)) = (done, pattern) {
        note_pattern(rt, plan, *pattern);
    }
}

/// Says that the committed plan of an intersection has no such pattern.
fn note_running(rt: &HostRuntime, id: InterId, pattern: PatternNo) {
    if let Ok(name) = format!(in rt.alloc(); "intersection {}", id.get()) {
        note_pattern(rt, name.as_str(), pattern);
    }
}

/// Says that a clerk does not have the draft of an intersection.
fn note_owner(rt: &HostRuntime, clerk: &str, id: InterId) {
    let id = id.get();
    if let Ok(text) = format!(in rt.alloc();
        "{clerk} does not have the draft of intersection {id}; list says who has it"
    ) {
        note_text(rt, text.as_str());
    }
}

/// Says which intersection, pattern or draft a request was refused for, if the fault is about one.
pub(crate) fn note_refused(rt: &HostRuntime, path: &str, request: &Request<'_>, fault: &Fault) {
    match (fault, request) {
        (Fault::UnknownPattern, Request::Show(Shown::Diagram { id, pattern })) => {
            note_running(rt, *id, *pattern)
        }
        (Fault::Refused(Refusal::Draft(DraftRefusal::NotOwner)), Request::Edit(edit)) => {
            if let Ok(clerk) = edit.clerk.to_words(rt.alloc()) {
                note_owner(rt, clerk.as_str(), edit.id)
            }
        }
        (Fault::UnknownIntersection, request) => {
            if let Some(id) = id_of(request) {
                note_intersection(rt, path, id)
            }
        }
        _ => {}
    }
}
