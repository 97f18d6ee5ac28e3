//! What is judged after changes of a plan, at how many seconds phases are compared for it, and what
//! changes make of a plan.

use crate::spelling::{changes, plan};
use draft_core::overlay;
use signal_plans::is_fit_for_the_street;
use signal_records::{Change, Key, TimingSet};
use signal_rules::*;
use std::alloc::Global;
use std::fmt::Display;
use std::test::Fail;

/// Changes of the plan, the subjects that they touch, the violations after them, and the seconds at
/// which a tally compares phases: at each second that starts a phase of a ring, ring by ring, until
/// they differ. A removed phase touches the phase that lists it, the sequence, its split row and
/// the pattern.
const CASES: [(&str, &str, &str, u64); 9] = [
    ("pattern,1,60,0,1,1", "pattern 1;", "", 4),
    (
        "split,1,2,34,2,1",
        "split 1 2;pattern 1;",
        "pattern 1 V12;",
        0,
    ),
    (
        "split,1,6,34,2,1;split,1,8,26,2,0",
        "split 1 6;split 1 8;pattern 1;",
        "pattern 1 V13;",
        4,
    ),
    (
        "split,1,6,60,2,1;split,1,8,0,7,0",
        "split 1 6;split 1 8;pattern 1;",
        "pattern 1 V13;",
        2,
    ),
    ("remove,split,1,4", "pattern 1;", "pattern 1 V9;", 0),
    (
        "split,1,2,60,2,1;split,1,4,0,7,0;split,1,6,60,2,1;split,1,8,0,7,0",
        "split 1 2;split 1 4;split 1 6;split 1 8;pattern 1;",
        "",
        2,
    ),
    (
        "split,1,2,200,2,1;split,1,4,55,2,0;split,1,6,200,2,1;split,1,8,55,2,0;\
         pattern,1,255,255,1,1",
        "split 1 2;split 1 4;split 1 6;split 1 8;pattern 1;",
        "pattern 1 V10;",
        4,
    ),
    (
        "phase,2,1,8,20,40,29,15,6,7,12,490,60,0,0",
        "phase 2;phase 6;sequence 1;split 1 2;pattern 1;",
        "phase 2 V1;",
        4,
    ),
    (
        "remove,phase,8",
        "phase 4;sequence 1;split 1 8;pattern 1;",
        "phase 4 V6;sequence 1 V7;split 1 8 V8;pattern 1 V13;",
        2,
    ),
];

fn keys(alloc: Global, changed: &[Change]) -> Result<Vec<Key>, Fail> {
    let mut keys = Vec::new(alloc);
    for change in changed {
        keys.push(match change {
            Change::Put(row) => row.key(),
            Change::Remove(key) => *key,
        })?;
    }
    Ok(keys)
}

fn text_of<T: Display>(alloc: Global, found: &[T]) -> Result<String, Fail> {
    let mut text = String::new(alloc);
    for one in found {
        write!(text, "{one};")?;
    }
    Ok(text)
}

/// Tells the violations of the set.
fn tell_whole(text: &mut String, alloc: Global, set: &TimingSet) -> Result<(), Fail> {
    let found = text_of(alloc, &violations(alloc, set)?)?;
    write!(text, "{found} whole, ")?;
    Ok(())
}

/// Tells the touched subjects, and the violations of each as a tally judges it by itself.
fn tell_alone(text: &mut String, alloc: Global, set: &TimingSet, keys: &[Key]) -> Result<(), Fail> {
    let mut tally = Tally::new();
    let subjects = touched(alloc, set, keys)?;
    for subject in &subjects {
        write!(text, "{subject};")?;
    }
    text.push_str(" touched, ")?;
    for subject in &subjects {
        for violation in &tally.judge(alloc, set, *subject)? {
            write!(text, "{violation};")?;
        }
    }
    text.push_str(" alone, ")?;
    Ok(())
}

/// Tells the violations of the touched subjects after changes of the plan, how many subjects were
/// judged for them, and the seconds that were compared.
fn tell_touched(
    text: &mut String,
    alloc: Global,
    set: &TimingSet,
    keys: &[Key],
) -> Result<(), Fail> {
    let mut tally = Tally::new();
    let base = plan(alloc, &[])?;
    let found = text_of(
        alloc,
        &violations_touched(alloc, &base, set, keys, &mut tally)?,
    )?;
    let (count, seconds) = (tally.count(), tally.seconds());
    write!(text, "{found} by {count} in {seconds}")?;
    Ok(())
}

/// All that is reported after changes of the plan.
fn report(alloc: Global, changed: &[Change]) -> Result<String, Fail> {
    let set = plan(alloc, changed)?;
    let keys = keys(alloc, changed)?;
    let mut text = String::new(alloc);
    tell_whole(&mut text, alloc, &set)?;
    tell_alone(&mut text, alloc, &set, &keys)?;
    tell_touched(&mut text, alloc, &set, &keys)?;
    Ok(text)
}

/// Three ways give the same violations.
#[test]
fn touched_subjects_give_all_violations(rt: HostRuntime) -> Result<(), Fail> {
    let alloc = rt.alloc();
    for (text, subjects, told, seconds) in CASES {
        let count = subjects.matches(';').count();
        let wanted = format!(in alloc;
            "{told} whole, {subjects} touched, {told} alone, {told} by {count} in {seconds}"
        )?;
        let came = report(alloc, &changes(alloc, text)?)?;
        assert_eq!(rt; came.as_str(), wanted.as_str(), "{text}");
    }
    Ok(())
}

/// Changes lie over a plan, which stays as it was.
#[test]
fn changes_lie_over_a_plan(rt: HostRuntime) -> Result<(), Fail> {
    let alloc = rt.alloc();
    let base = plan(alloc, &[])?;
    for (text, rows) in [
        ("", 11),
        ("remove,pattern,1", 10),
        ("pattern,2,60,0,1,1", 12),
    ] {
        let whole = overlay(alloc, &base, &changes(alloc, text)?)?;
        let came = whole.rows(alloc)?.len();
        assert_eq!(rt; came, rows, "{text}");
    }
    assert_eq!(rt; base.rows(alloc)?.len(), 11);
    Ok(())
}

/// A plan of one phase is fit for the street, and one whose phase lists a phase that is not there
/// is not.
#[test]
fn plans_are_fit_or_not(rt: HostRuntime) -> Result<(), Fail> {
    let alloc = rt.alloc();
    for (text, wanted) in [
        ("phase,2,1,8,20,40,40,15,", true),
        ("phase,2,1,8,20,40,40,15,6", false),
    ] {
        let mut set = TimingSet::new(alloc);
        set.apply(alloc, &changes(alloc, text)?)?;
        assert_eq!(rt; is_fit_for_the_street(alloc, &set)?, wanted, "{text}");
    }
    Ok(())
}
