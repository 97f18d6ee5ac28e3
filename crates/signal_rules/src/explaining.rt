//! The violations of a timing set with their reasons, subject by subject.

ghost use Rattle.std.specs.Prelude.{◌≡◌, Contains, ◌++◌, map, IfOk, OnOk};
ghost use Rattle.signal_rules.specs.declared.reason.Reason.{Reason as ReasonOf};
ghost use Rattle.signal_rules.specs.declared.violation.Rule.{Rule as RuleOf};
ghost use Rattle.signal_rules.specs.declared.violation.Subject.{Subject as SubjectOf};
ghost use Rattle.signal_rules.specs.Cases.{all_true, further};
ghost use Rattle.signal_rules.specs.PatternRules.{rings_cases};
ghost use Rattle.signal_rules.specs.Violations.{violations_at, broken_sum, further_sums, reasons_at, AreReasons, IsReason};

use crate::judging::judge;
use crate::lanes::{lane_seconds, rings_of};
use crate::lookup::{pattern_at, phases_of};
use crate::pattern::rows_reason;
use crate::reason::{Explained, PatternReason, Reason};
use crate::subjects::subjects_of;
use crate::violation::{Rule, Subject, Violation};
use signal_records::{NoMemory, Pattern, PatternNo, RingNo, TimingSet};
use std::alloc::Global;

/// The violations of a set in their order, each with the first of its reasons, and V12 once for
/// each ring that does not fill the cycle. Any true reason of a rule on a subject shows that the
/// subject breaks the rule.
#[tactic(auto, unfolding(crate::specs::Violations::reasons_of))]
pub fn reasons(alloc: Global, set: &TimingSet) -> Result<Vec<Explained>, NoMemory>
    ensures told { IfOk result (λ found. AreReasons set.now found.items) }
    ensures shows { (s : SubjectOf) (r : RuleOf) (why : ReasonOf) → IsReason set.now s r why →
        Contains (violations_at set.now s) (record { subject = s; rule = r }) }
{
    let mut found = Vec::new(alloc);
    for subject in &subjects_of(alloc, set)? {
        push_reasons(alloc, set, *subject, &mut found)?;
    }
    Ok(found)
}

/// The rules that one subject breaks, each with the first of its reasons, and V12 once for each
/// ring that does not fill the cycle. There are none if the set does not have the subject.
pub fn reasons_at(
    alloc: Global,
    set: &TimingSet,
    subject: Subject,
) -> Result<Vec<Explained>, NoMemory>
    ensures { IfOk result (λ found. found.items ≡ reasons_at set.now subject) }
{
    let mut found = Vec::new(alloc);
    push_reasons(alloc, set, subject, &mut found)?;
    Ok(found)
}

/// Adds the rules that a subject breaks, with their reasons, and V12 once for each ring.
fn push_reasons(
    alloc: Global,
    set: &TimingSet,
    subject: Subject,
    found: &mut Vec<Explained>,
) -> Result<(), NoMemory>
    ensures { OnOk result (found.new.items ≡ found.old.items ++ reasons_at set.now subject) }
{
    let mut ticks = 0;
    judge(alloc, set, subject, &mut ticks, found)?;
    match &subject {
        Subject::Pattern(n) => push_further_sums(alloc, set, *n, pattern_at(set, *n), found),
        _ => Ok(()),
    }
}

/// Adds V12 of a pattern with each ring that does not fill the cycle, without the first of these;
/// nothing without a pattern, or if V9 does not hold.
fn push_further_sums(
    alloc: Global,
    set: &TimingSet,
    n: PatternNo,
    pattern: Option<Pattern>,
    found: &mut Vec<Explained>,
) -> Result<(), NoMemory>
    ensures { OnOk result (found.new.items ≡ found.old.items ++ further_sums set.now n pattern) }
{
    let Some(pattern) = pattern else {
        return Ok(());
    };
    let phases = phases_of(alloc, set)?;
    if rows_reason(set, &phases, &pattern).is_some() {
        return Ok(());
    }
    push_after_first(set, n, &pattern, &rings_of(alloc, set, &phases)?, found)
}

/// Adds V12 with each of some rings that does not fill the cycle, without the first of these.
fn push_after_first(
    set: &TimingSet,
    n: PatternNo,
    pattern: &Pattern,
    rings: &[RingNo],
    found: &mut Vec<Explained>,
) -> Result<(), NoMemory>
    ensures { OnOk result (found.new.items ≡ found.old.items
        ++ map (broken_sum n) (further (rings_cases set.now pattern.now rings.now))) }
{
    let [ring, later @ ..] = rings else {
        return Ok(());
    };
    if lane_seconds(set, pattern, *ring) == pattern.cycle.get() {
        return push_after_first(set, n, pattern, later, found);
    }
    push_sums(set, n, pattern, later, found)
}

/// Adds V12 with each of some rings that does not fill the cycle.
fn push_sums(
    set: &TimingSet,
    n: PatternNo,
    pattern: &Pattern,
    rings: &[RingNo],
    found: &mut Vec<Explained>,
) -> Result<(), NoMemory>
    ensures { OnOk result (found.new.items ≡ found.old.items
        ++ map (broken_sum n) (all_true (rings_cases set.now pattern.now rings.now))) }
{
    let cycle = pattern.cycle;
    for ring in rings {
        let sum = lane_seconds(set, pattern, *ring);
        if sum != cycle.get() {
            let ring = *ring;
            found.push(Explained {
                violation: Violation {
                    subject: Subject::Pattern(n),
                    rule: Rule::V12,
                },
                reason: Reason::Pattern(PatternReason::OtherSum { ring, sum, cycle }),
            })?;
        }
    }
    Ok(())
}
