//! `signal_rules`: violations, whole and touched, and what judges them.

use crate::records::{numbers_of_plan, set};
use signal_records::{Key, TimingSet};
use signal_rules::{
    Judge, Rule, Subject, Tally, Violation, touched, violations, violations_touched,
};
use std::alloc::Global;
use std::test::Fail;

/// How many violations a judge finds if the phase has changed, and in the sequence only.
fn judged<J: Judge>(
    alloc: Global,
    base: &TimingSet,
    draft: &TimingSet,
    judge: &mut J,
) -> Result<(usize, usize), Fail> {
    let at = numbers_of_plan().ok_or("numbers")?;
    let keys = [Key::Phase(at.phase)];
    let all: Vec<Violation> = violations_touched(alloc, base, draft, &keys, judge)?;
    let one: Vec<Violation> = judge.judge(alloc, draft, Subject::Seq(at.seq))?;
    Ok((all.len(), one.len()))
}

/// The phase has mates that are missing, and the sequence lists, after the phase, one that is
/// missing.
#[test]
fn rules(rt: HostRuntime) -> Result<(), Fail> {
    let alloc = rt.alloc();
    let at = numbers_of_plan().ok_or("numbers")?;
    let set = set(alloc)?;
    let found = violations(alloc, &set)?;
    let wanted = Violation {
        subject: Subject::Phase(at.phase),
        rule: Rule::V6,
    };
    assert!(rt; found.first() == Some(&wanted));
    let subjects: Vec<Subject> = touched(alloc, &set, &[Key::Phase(at.phase)])?;
    let is_right = subjects.last() == Some(&Subject::Split(at.split, at.phase));
    assert!(rt; is_right && subjects.len() == 3);
    let mut tally = Tally::new();
    let base = TimingSet::new(alloc);
    assert_eq!(rt; judged(alloc, &base, &set, &mut tally)?, (2, 1));
    assert_eq!(rt; (tally.count(), tally.seconds()), (4, 0));
    Ok(())
}
