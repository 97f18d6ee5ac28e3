//! What a revision in one step makes of a plan, by who holds the draft that it finds.

use crate::spelling::{changes, plan, words};
use draft_core::{
    Changes, DbState, DraftRefusal, Holder, Move, Revision, Stage, Timing, TimingChange, revise,
};
use std::alloc::Global;
use std::test::Fail;

/// A pattern that breaks no rule, and another.
const SECOND: &str = "pattern,2,60,0,1,1";

const THIRD: &str = "pattern,3,60,0,1,1";

const BOTH: &str = "pattern,2,60,0,1,1;pattern,3,60,0,1,1";

/// A split that leaves pattern 1 a second short.
const SHORT: &str = "split,1,2,34,2,1";

/// The revision and the clerk who handed over a draft, if there is one; the draft rows, Ann's edits
/// and what they make of the committed set; whether she commits; and what comes of it.
const CASES: [(u32, &str, [&str; 3], bool, &str); 11] = [
    (4, "", ["", SECOND, SECOND], true, "5 Normal: new row;"),
    (4, "", ["", SECOND, SECOND], false, "4 open: new draft row;"),
    (4, "", ["", SHORT, SHORT], true, "4 open: new draft row;"),
    (
        4,
        "ann",
        [SECOND, THIRD, BOTH],
        true,
        "5 Normal: a draft row gone;new row;new row;",
    ),
    (
        4,
        "ann",
        [SECOND, THIRD, BOTH],
        false,
        "4 open: new draft row;",
    ),
    (
        4,
        "ann",
        [SHORT, "split,1,2,35,2,1", ""],
        true,
        "5 Normal: a draft row gone;",
    ),
    (
        4,
        "ann",
        [BOTH, "", BOTH],
        true,
        "5 Normal: two draft rows gone;new row;new row;",
    ),
    (4, "bob", [SECOND, THIRD, BOTH], true, "NotOwner"),
    (4, "bob", [SECOND, THIRD, BOTH], false, "NotOwner"),
    (999_999, "", ["", SECOND, SECOND], true, "RevisionFull"),
    (
        999_999,
        "",
        ["", SHORT, SHORT],
        true,
        "999999 open: new draft row;",
    ),
];

/// The plan with these draft rows, of a draft that this clerk handed over.
fn timing(alloc: Global, revision: u32, owner: &str, delta: &str) -> Result<Timing, Fail> {
    let holder = if owner.is_empty() {
        None
    } else {
        Some(Holder {
            stage: Stage::Verify,
            owner: words(alloc, owner)?,
        })
    };
    Ok(Timing {
        revision: Revision::new(revision).ok_or("a revision")?,
        holder,
        committed: plan(alloc, &[])?,
        delta: Changes::new(changes(alloc, delta)?),
    })
}

/// A row that changes, in words.
fn describe(change: &TimingChange) -> &'static str {
    match change {
        TimingChange::CommittedNew(_) => "new row",
        TimingChange::Committed(_) => "row",
        TimingChange::DraftedNew(_) => "new draft row",
        TimingChange::Drafted(_) => "draft row",
        TimingChange::DraftGone(_) => "draft row gone",
        TimingChange::DraftDropped(1) => "a draft row gone",
        TimingChange::DraftDropped(2) => "two draft rows gone",
        TimingChange::DraftDropped(_) => "draft rows gone",
    }
}

/// What comes of a revision, in words.
fn report(alloc: Global, answer: Result<Move, DraftRefusal>) -> Result<String, Fail> {
    let made = match answer {
        Ok(made) => made,
        Err(refusal) => return Ok(format!(in alloc; "{}", refusal.name())?),
    };
    let state = match made.state {
        DbState::Normal => "Normal",
        DbState::Transaction => "open",
        _ => "closed",
    };
    let mut text = format!(in alloc; "{} {state}: ", made.revision.get())?;
    for change in made.changes.as_slice() {
        write!(text, "{};", describe(change))?;
    }
    Ok(text)
}

#[test]
fn plans_are_revised_in_one_step(rt: HostRuntime) -> Result<(), Fail> {
    let alloc = rt.alloc();
    let ann = words(alloc, "ann")?;
    for (revision, owner, [delta, edits, settled], commit, wanted) in CASES {
        let found = timing(alloc, revision, owner, delta)?;
        let (edits, settled) = (changes(alloc, edits)?, changes(alloc, settled)?);
        let came = report(alloc, revise(alloc, &found, &ann, &edits, &settled, commit))?;
        assert_eq!(rt; came.as_str(), wanted, "{revision} {owner}");
    }
    Ok(())
}
