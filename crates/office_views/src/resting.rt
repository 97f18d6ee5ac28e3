//! Rings that fall short of the cycle by exactly the time of another ring's phases with which none
//! of theirs may time: there they have no phase at all, not one that rests.

use signal_records::{NoMemory, Pattern, PatternNo, PhaseNo, RingNo, TimingSet};
use signal_rules::{
    Explained, PatternReason, Reason, Subject, lists, pattern_at, phase_at, phases_of, split_at,
    time_of, used_rings,
};
use std::alloc::{AllocError, Global};
use std::fmt::Write;

/// The phases of a ring, by number, that list no phase of another ring.
fn phases_beside(
    alloc: Global,
    set: &TimingSet,
    phases: &[PhaseNo],
    ring: RingNo,
    other: RingNo,
) -> Result<Vec<PhaseNo>, NoMemory> {
    let mut found = Vec::new(alloc);
    for p in phases {
        let is_joined = phases
            .iter()
            .any(|q| is_of(set, *q, other) && lists(set, *p, *q));
        if is_of(set, *p, ring) && !is_joined {
            found.push(*p)?;
        }
    }
    Ok(found)
}

/// Whether a phase of the set is in a ring.
fn is_of(set: &TimingSet, p: PhaseNo, ring: RingNo) -> bool {
    phase_at(set, p).is_some_and(|phase| phase.ring == ring)
}

/// How many seconds some phases have in the split of a pattern.
fn seconds_of(set: &TimingSet, pattern: &Pattern, phases: &[PhaseNo]) -> u32 {
    phases.iter().fold(0, |sum: u32, p| {
        sum.saturating_add(time_of(split_at(set, pattern.split, *p)))
    })
}

/// The first other ring whose phases that list no phase of `short` have exactly so many seconds in
/// a pattern, and these phases.
fn rest_of(
    alloc: Global,
    set: &TimingSet,
    pattern: &Pattern,
    short: RingNo,
    seconds: u32,
) -> Result<Option<(RingNo, Vec<PhaseNo>)>, NoMemory> {
    let phases = phases_of(alloc, set)?;
    let rings = used_rings(alloc, set)?;
    for ring in &rings {
        if *ring != short {
            let beside = phases_beside(alloc, set, &phases, *ring, short)?;
            if seconds_of(set, pattern, &beside) == seconds {
                return Ok(Some((*ring, beside)));
            }
        }
    }
    Ok(None)
}

/// Appends which ring times what a ring lacks, and with which phases.
fn push_found(text: &mut String, ring: RingNo, phases: &[PhaseNo]) -> Result<(), AllocError> {
    write!(
        text,
        "; exactly what ring {} times where this ring has no phase:",
        ring.get()
    )?;
    for p in phases {
        write!(text, " {}", p.get())?;
    }
    Ok(())
}

/// What is added after the reason why a ring of a pattern falls short of the cycle.
fn remark_on(
    alloc: Global,
    set: &TimingSet,
    n: PatternNo,
    ring: RingNo,
    seconds: u32,
) -> Result<String, NoMemory> {
    let mut text = String::new(alloc);
    let Some(pattern) = pattern_at(set, n) else {
        return Ok(text);
    };
    if let Some((other, phases)) = rest_of(alloc, set, &pattern, ring, seconds)? {
        push_found(&mut text, other, &phases)?;
    }
    Ok(text)
}

/// The ring that a reason names and the seconds that it lacks of the cycle, if that is the reason.
fn lack_of(reason: &Reason) -> Option<(RingNo, u32)> {
    match reason {
        Reason::Pattern(PatternReason::OtherSum { ring, sum, cycle }) if *sum < cycle.get() => {
            Some((*ring, cycle.get().saturating_sub(*sum)))
        }
        _ => None,
    }
}

/// What is added after a reason why a plan breaks a rule: if a ring falls short of the cycle by
/// exactly the splits of another ring's phases that list none of its own, that ring and these
/// phases; else nothing.
pub(crate) fn rest_remark(
    alloc: Global,
    set: &TimingSet,
    explained: &Explained,
) -> Result<String, NoMemory> {
    let Some((ring, seconds)) = lack_of(&explained.reason) else {
        return Ok(String::new(alloc));
    };
    match &explained.violation.subject {
        Subject::Pattern(n) => remark_on(alloc, set, *n, ring, seconds),
        _ => Ok(String::new(alloc)),
    }
}

/// A line for each violation of a plan with its reason, in order, as `pattern 1 V10: offset 60 s,
/// cycle 60 s`, and what is added after it; or the one line `no violations`. Each line ends in a
/// line feed.
pub fn reasons_text(
    alloc: Global,
    set: &TimingSet,
    found: &[Explained],
) -> Result<Vec<u8>, NoMemory> {
    let mut text = String::new(alloc);
    for explained in found {
        let remark = rest_remark(alloc, set, explained)?;
        writeln!(text, "{explained}{remark}")?;
    }
    if found.is_empty() {
        text.push_str("no violations\n")?;
    }
    Ok(text.into_bytes())
}
