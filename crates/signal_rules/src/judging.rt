//! The violations of a timing set, subject by subject.

ghost use Rattle.std.specs.Prelude.{◌≡◌, [], ◌++◌, false, map, length, Some, OnOk, IfOk};
ghost use Rattle.signal_rules.specs.declared.reason.Explained.{Explained as ExplainedOf};
ghost use Rattle.signal_rules.specs.declared.reason.Reason.{Reason as ReasonOf};
ghost use Rattle.signal_rules.specs.Cases.{first_true, holds};
ghost use Rattle.signal_rules.specs.Counts.{RisesAtMost, sequence_entries, most_seconds};
ghost use Rattle.signal_rules.specs.Lookup as set_has;
ghost use Rattle.signal_rules.specs.Slots.{agree_where_begun, conflicts_in};
ghost use Rattle.signal_rules.specs.Violations.{violations_of, with_reason, explained_at, broken, phase_findings, lane_findings, pattern_findings};

use crate::lanes::{Slot, rings_of};
use crate::lookup::{pattern_at, phase_at, phases_of, split_at};
use crate::reason::{Explained, Reason};
use crate::sequence::{has_sequence, sequence_reason};
use crate::split::split_reason;
use crate::subjects::subjects_of;
use crate::violation::{Rule, Subject, Violation};
use crate::{pattern, phase};
use signal_records::{Cycle, NoMemory, Pattern, PatternNo, Phase, PhaseNo, SeqNo, TimingSet};
use std::alloc::Global;

/// What is collected of each rule that does not hold: the violation, alone or with its reason.
pub(crate) trait Finding: Copy {
    ghost of: { ExplainedOf → Self };

    /// What is collected of a violation with this reason.
    fn of(violation: Violation, reason: Reason) -> Self
        ensures { result ≡ of (record { violation = violation; reason = reason }) };

    /// What is collected of a violation of V13 by slots that conflict. A search for the first
    /// second at which they do is made only where the reason is collected too.
    fn of_conflict(violation: Violation, slots: &[Slot<'_>], cycle: Cycle) -> Self
        requires { holds (conflicts_in cycle slots.now) ≡ false }
        ensures { (why : ReasonOf) → first_true (conflicts_in cycle slots.now) ≡ Some why →
            result ≡ of (record { violation = violation; reason = why }) };
}

impl Finding for Violation {
    ghost of = { λ explained. explained.violation };

    fn of(violation: Violation, _reason: Reason) -> Violation {
        violation
    }

    fn of_conflict(violation: Violation, _slots: &[Slot<'_>], _cycle: Cycle) -> Violation {
        violation
    }
}

impl Finding for Explained {
    ghost of = { λ explained. explained };

    fn of(violation: Violation, reason: Reason) -> Explained {
        Explained { violation, reason }
    }

    fn of_conflict(violation: Violation, slots: &[Slot<'_>], cycle: Cycle) -> Explained {
        let Some(reason) = pattern::conflict_reason(slots, cycle) else {
            unreachable!();
        };
        Explained { violation, reason }
    }
}

/// The violations of a set: phases, sequences, split rows and patterns, each by ascending number,
/// and for each the rules that it breaks in their order, each once.
#[tactic(auto, unfolding(crate::specs::Violations::violations_of))]
pub fn violations(alloc: Global, set: &TimingSet) -> Result<Vec<Violation>, NoMemory>
    ensures { IfOk result (λ found. found.items ≡ violations_of set.now) }
{
    let mut found = Vec::new(alloc);
    let mut ticks = 0;
    for subject in &subjects_of(alloc, set)? {
        judge(alloc, set, *subject, &mut ticks, &mut found)?;
    }
    Ok(found)
}

/// Adds the rules that the subject breaks; none if the set does not have the subject. Each
/// comparison that V13 makes, at a second where a ring starts a phase, is counted as a tick.
pub(crate) fn judge<F: Finding>(
    alloc: Global,
    set: &TimingSet,
    subject: Subject,
    ticks: &mut u64,
    found: &mut Vec<F>,
) -> Result<(), NoMemory>
    ensures found { OnOk result (found.new.items ≡ found.old.items
        ++ map F.of (explained_at set.now subject)) }
    ensures ticks { RisesAtMost (most_seconds set.now subject) ticks.old ticks.new }
{
    match subject {
        Subject::Phase(p) => match phase_at(set, p) {
            Some(phase) => judge_phase(set, p, phase, found),
            None => Ok(()),
        },
        Subject::Seq(n) => judge_sequence(alloc, set, n, found),
        Subject::Split(n, p) => match split_at(set, n, p) {
            Some(split) => report(split_reason(set, p, split), subject, Rule::V8, found),
            None => Ok(()),
        },
        Subject::Pattern(n) => match pattern_at(set, n) {
            Some(pattern) => judge_pattern(alloc, set, n, &pattern, ticks, found),
            None => Ok(()),
        },
    }
}

/// Adds the violation of a rule by a subject, if there is a reason for it.
fn report<F: Finding>(
    reason: Option<Reason>,
    subject: Subject,
    rule: Rule,
    found: &mut Vec<F>,
) -> Result<(), NoMemory>
    ensures { OnOk result (found.new.items ≡ found.old.items
        ++ map F.of (with_reason subject rule reason [])) }
{
    if let Some(reason) = reason {
        found.push(F::of(Violation { subject, rule }, reason))?;
    }
    Ok(())
}

/// Adds the rules of a phase that it breaks, in order: V1 and V2 of its intervals, V3 to V5 of its
/// crossing, V6 of its mates, V14 of its lead.
fn judge_phase<F: Finding>(
    set: &TimingSet,
    p: PhaseNo,
    phase: &Phase,
    found: &mut Vec<F>,
) -> Result<(), NoMemory>
    ensures { OnOk result (found.new.items ≡ found.old.items
        ++ map F.of (broken (Subject.Phase p) (phase_findings set.now p phase.now))) }
{
    report(
        phase::yellow_reason(phase),
        Subject::Phase(p),
        Rule::V1,
        found,
    )?;
    report(phase::red_reason(phase), Subject::Phase(p), Rule::V2, found)?;
    report(
        phase::walk_reason(phase),
        Subject::Phase(p),
        Rule::V3,
        found,
    )?;
    report(
        phase::clearance_reason(phase),
        Subject::Phase(p),
        Rule::V4,
        found,
    )?;
    report(
        phase::setback_reason(phase),
        Subject::Phase(p),
        Rule::V5,
        found,
    )?;
    report(
        phase::mates_reason(set, p, phase),
        Subject::Phase(p),
        Rule::V6,
        found,
    )?;
    report(
        phase::lead_reason(phase),
        Subject::Phase(p),
        Rule::V14,
        found,
    )
}

/// Adds V7, if a sequence has a row and breaks the rule.
fn judge_sequence<F: Finding>(
    alloc: Global,
    set: &TimingSet,
    n: SeqNo,
    found: &mut Vec<F>,
) -> Result<(), NoMemory>
    ensures { OnOk result (found.new.items ≡ found.old.items
        ++ map F.of (explained_at set.now (Subject.Seq n))) }
{
    if has_sequence(set, n) {
        let phases = phases_of(alloc, set)?;
        let reason = sequence_reason(set, &phases, n);
        report(reason, Subject::Seq(n), Rule::V7, found)?;
    }
    Ok(())
}

/// Adds those of V9 to V13 that a pattern breaks, in order. Each comparison that V13 makes, at a
/// second where a ring starts a phase, is counted as a tick.
fn judge_pattern<F: Finding>(
    alloc: Global,
    set: &TimingSet,
    n: PatternNo,
    pattern: &Pattern,
    ticks: &mut u64,
    found: &mut Vec<F>,
) -> Result<(), NoMemory>
    ensures ticks { RisesAtMost (sequence_entries set.now pattern.now.seq) ticks.old ticks.new }
    ensures found { OnOk result (found.new.items ≡ found.old.items
        ++ map F.of (broken (Subject.Pattern n) (pattern_findings set.now pattern.now))) }
{
    let phases = phases_of(alloc, set)?;
    let rows = pattern::rows_reason(set, &phases, pattern);
    let has_rows = rows.is_none();
    report(rows, Subject::Pattern(n), Rule::V9, found)?;
    let offset = pattern::offset_reason(pattern);
    report(offset, Subject::Pattern(n), Rule::V10, found)?;
    let coordination = pattern::coordination_reason(set, &phases, pattern);
    report(coordination, Subject::Pattern(n), Rule::V11, found)?;
    if has_rows {
        judge_lanes(alloc, set, &phases, n, pattern, ticks, found)?;
    }
    Ok(())
}

/// Adds V12 if the lanes of a pattern break it, else V13 if they break that: V13 is judged only if
/// the lanes fill the cycle. The phases are those of the set.
fn judge_lanes<F: Finding>(
    alloc: Global,
    set: &TimingSet,
    phases: &[PhaseNo],
    n: PatternNo,
    pattern: &Pattern,
    ticks: &mut u64,
    found: &mut Vec<F>,
) -> Result<(), NoMemory>
    requires { phases.now ≡ set_has.phases set.now }
    ensures ticks { RisesAtMost (sequence_entries set.now pattern.now.seq) ticks.old ticks.new }
    ensures found { OnOk result (found.new.items ≡ found.old.items
        ++ map F.of (broken (Subject.Pattern n) (lane_findings set.now pattern.now))) }
{
    let rings = rings_of(alloc, set, phases)?;
    let mut slots = Vec::new(alloc);
    let sum = pattern::sum_reason(set, pattern, &rings, &mut slots)?;
    let fill = sum.is_none();
    report(sum, Subject::Pattern(n), Rule::V12, found)?;
    if fill {
        judge_slots(&slots, pattern.cycle, Subject::Pattern(n), ticks, found)?;
    }
    Ok(())
}

/// Adds V13, if slots that fill the cycle conflict. Each comparison, at a second where a ring
/// starts a phase, is counted as a tick.
fn judge_slots<F: Finding>(
    slots: &[Slot<'_>],
    cycle: Cycle,
    subject: Subject,
    ticks: &mut u64,
    found: &mut Vec<F>,
) -> Result<(), NoMemory>
    requires { holds (conflicts_in cycle slots.now) ≡ agree_where_begun slots.now slots.now }
    ensures ticks { RisesAtMost (length slots.now) ticks.old ticks.new }
    ensures found { OnOk result (found.new.items ≡ found.old.items
        ++ map F.of (with_reason subject Rule.V13 (first_true (conflicts_in cycle slots.now)) [])) }
{
    if !pattern::rings_agree(slots, ticks) {
        let rule = Rule::V13;
        found.push(F::of_conflict(Violation { subject, rule }, slots, cycle))?;
    }
    Ok(())
}
