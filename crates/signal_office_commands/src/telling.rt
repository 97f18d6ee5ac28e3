//! What is printed of a change once it is made.

use crate::counting::{first_text, push_counts};
use crate::editing::{Edited, Revised};
use crate::remarks::{advice_text, checked_status, remarks_text};
use arrayvec::ArrayString;
use office_machine::reply::{OpenDraft, Reply, RunningTiming};
use signal_office_faults::{Done, Fault, LINE_ROOM};
use signal_office_line::Edit;
use signal_plans::{Difference, compare};
use signal_records::{InterId, NoMemory};
use std::alloc::Global;
use std::fmt::Write;

/// The line of a draft that was to be committed and stays open.
const NOT_COMMITTED: &str =
    "not committed: the draft stays open; go on with edit, or drop it with abandon\n";

/// What is printed of a commit if the set that runs could not be read, or memory for the rest was
/// refused.
const COMMITTED: &str = "no violations\ncommitted\n";

/// What is printed of a commit if warnings were asked for, and the set that runs could not be read,
/// or memory for the rest was refused.
const UNREAD_WARNINGS: &str = "no violations\ncommitted\nits warnings could not be read\n";

/// The line on how many records of an import were new, and how many were there already:
/// `added 5, same 2`.
fn imported_line(added: usize, same: usize) -> ArrayString<LINE_ROOM> {
    let mut line = ArrayString::new();
    let _ = writeln!(line, "added {added}, same {same}"); // there is room
    line
}

/// What is printed of the reply to `add` or `import`. It needs no memory, so that what was done is
/// never reported as a fault. They get no replies but these three.
pub fn told(reply: &Reply) -> Done {
    match *reply {
        Reply::Added => Done::telling("added\n"),
        Reply::Same => Done::telling("same\n"),
        Reply::Imported { added, same } => Done::line(imported_line(added, same)),
        _ => Done::telling(""),
    }
}

/// What is printed of a draft that stays open: the rules that it breaks, its warnings if asked for,
/// and whose it is; or, if a commit was asked for, that it was not committed, with status 3 if it
/// breaks a rule.
fn tell_open(alloc: Global, edit: &Edit<'_>, draft: &OpenDraft) -> Result<Done, Fault> {
    let violations = draft.violations.as_slice();
    let mut text = remarks_text(alloc, &draft.rows, violations, edit.explain, edit.advise)?;
    if edit.commit {
        text.extend_from_slice(NOT_COMMITTED.as_bytes())?;
        return Ok(Done::ending(text, checked_status(violations)));
    }
    text.extend_from_slice(open_line(alloc, draft)?.as_bytes())?;
    Ok(Done::with(text))
}

/// The line of a draft that stays open, since no commit was asked for.
fn open_line(alloc: Global, draft: &OpenDraft) -> Result<String, NoMemory> {
    let clerk = draft.owner.as_str();
    Ok(format!(in alloc;
        "the draft of {clerk} stays open; commit it with edit --commit, or drop it with abandon\n"
    )?)
}

/// The line of a commit: the revision, the intersection with its name, and how many rows differ
/// from those before.
fn committed_line(
    alloc: Global,
    id: InterId,
    running: &RunningTiming,
    differences: &[Difference],
) -> Result<String, NoMemory> {
    let (revision, id, name) = (running.revision.get(), id.get(), running.name.as_str());
    let mut line = format!(in alloc; "committed revision {revision} of {id} {name}: ")?;
    push_counts(&mut line, differences)?;
    line.push_str("\n")?;
    Ok(line)
}

/// What is printed of a draft that was committed: its warnings if asked for, the line of the
/// commit, and, if `explain`, its first differences from the set before.
fn committed_text(
    alloc: Global,
    edit: &Edit<'_>,
    before: &RunningTiming,
    running: &RunningTiming,
) -> Result<Vec<u8>, NoMemory> {
    let differences = compare(alloc, &before.rows, &running.rows)?;
    let mut text = Vec::new(alloc);
    text.extend_from_slice(b"no violations\n")?;
    if edit.advise {
        text.extend_from_slice(&advice_text(alloc, &running.rows)?)?;
    }
    let line = committed_line(alloc, edit.id, running, &differences)?;
    text.extend_from_slice(line.as_bytes())?;
    if edit.explain {
        text.extend_from_slice(&first_text(alloc, &differences)?)?;
    }
    Ok(text)
}

/// What is printed of a commit, by the set before and the one that runs now. If that could not be
/// read, or memory is refused, it is a fixed text.
fn tell_committed(
    alloc: Global,
    edit: &Edit<'_>,
    before: &RunningTiming,
    running: &Option<RunningTiming>,
) -> Done {
    if let Some(running) = running {
        if let Ok(text) = committed_text(alloc, edit, before, running) {
            return Done::with(text);
        }
    }
    Done::telling(if edit.advise {
        UNREAD_WARNINGS
    } else {
        COMMITTED
    })
}

/// What is printed of an edited plan. It fails only for a draft that stays open, for want of
/// memory.
pub fn tell_edited(alloc: Global, edit: &Edit<'_>, edited: &Edited) -> Result<Done, Fault> {
    match &edited.revised {
        Revised::Same => Ok(Done::telling("no changes\n")),
        Revised::Open(draft) => tell_open(alloc, edit, draft),
        Revised::Committed(running) => Ok(tell_committed(alloc, edit, &edited.before, running)),
    }
}
