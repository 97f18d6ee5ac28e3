//! The warnings of a timing set, subject by subject.

ghost use Rattle.std.specs.Prelude.{◌≡◌, ◌++◌, Some, OnOk, IfOk};
ghost use Rattle.std.specs.List.{flat_map};
ghost use Rattle.signal_rules.specs.Lookup as set_has;
ghost use Rattle.signal_rules.specs.Violations.{split_rows};
ghost use Rattle.signal_plans.specs.Parts.{AreParts};
ghost use Rattle.signal_plans.specs.Warnings.{told_cases, warning_of, phase_warnings, row_warnings, pattern_warnings, warnings_at, warnings_of, warnings_of_pattern};

use crate::pattern::{coordination_advice, crowding_advice};
use crate::phase::{crossing_cases, phase_cases};
use crate::plan::{PlanParts, parts_of, plan_cases};
use crate::split::split_cases;
use crate::warning::{Advice, Scope, Warning};
use signal_records::{NoMemory, Pattern, PatternNo, Phase, PhaseNo, Split, SplitNo, TimingSet};
use signal_rules::{Subject, pattern_at, phase_at, phases_of, split_at, subjects_of};
use std::alloc::Global;

/// The warnings of a set: phases, split rows and patterns, each by ascending number, then the plan
/// as a whole; for each what an engineer is warned of, in one order, each once.
#[tactic(auto, unfolding(crate::specs::Warnings::warnings_of))]
pub fn warnings(alloc: Global, set: &TimingSet) -> Result<Vec<Warning>, NoMemory>
    ensures { IfOk result (λ found. found.items ≡ warnings_of set.now) }
{
    let parts = parts_of(alloc, set)?;
    let mut found = Vec::new(alloc);
    for subject in &subjects_of(alloc, set)? {
        warn(alloc, set, &parts, *subject, &mut found)?;
    }
    tell(&Scope::Plan, &plan_cases(set, &parts), &mut found)?;
    Ok(found)
}

/// The warnings of a pattern: those of the rows of its split number by ascending phase, then its
/// own. There are none if the set has no such pattern. Other patterns and splits add no cost.
#[tactic(auto, unfolding(crate::specs::Warnings::warnings_of_pattern))]
pub fn warnings_of_pattern(
    alloc: Global,
    set: &TimingSet,
    n: PatternNo,
) -> Result<Vec<Warning>, NoMemory>
    ensures { IfOk result (λ found. found.items ≡ warnings_of_pattern set.now n) }
{
    let mut found = Vec::new(alloc);
    let Some(pattern) = pattern_at(set, n) else {
        return Ok(found);
    };
    let phases = phases_of(alloc, set)?;
    warn_rows(set, pattern.split, &mut found)?;
    warn_pattern(alloc, set, &phases, n, &pattern, &mut found)?;
    Ok(found)
}

/// Adds the warnings of a subject; none if the set does not have it.
fn warn(
    alloc: Global,
    set: &TimingSet,
    parts: &PlanParts,
    subject: Subject,
    found: &mut Vec<Warning>,
) -> Result<(), NoMemory>
    requires { AreParts set.now parts.now }
    ensures { OnOk result (found.new.items ≡ found.old.items ++ warnings_at set.now subject) }
{
    match subject {
        Subject::Phase(p) => match phase_at(set, p) {
            Some(phase) => warn_phase(set, parts, p, phase, found),
            None => Ok(()),
        },
        Subject::Seq(_) => Ok(()),
        Subject::Split(n, p) => match split_at(set, n, p) {
            Some(split) => warn_split(set, n, p, &split, found),
            None => Ok(()),
        },
        Subject::Pattern(n) => match pattern_at(set, n) {
            Some(pattern) => warn_pattern(alloc, set, &parts.phases, n, &pattern, found),
            None => Ok(()),
        },
    }
}

/// Adds the warnings of a phase, and then of its crossing.
fn warn_phase(
    set: &TimingSet,
    parts: &PlanParts,
    p: PhaseNo,
    phase: &Phase,
    found: &mut Vec<Warning>,
) -> Result<(), NoMemory>
    requires { AreParts set.now parts.now }
    ensures { OnOk result (found.new.items ≡ found.old.items
        ++ phase_warnings set.now p (Some phase.now)) }
{
    let scope = Scope::Subject(Subject::Phase(p));
    tell(&scope, &phase_cases(set, parts, p, phase), found)?;
    match &phase.ped {
        Some(ped) => tell(&scope, &crossing_cases(ped), found),
        None => Ok(()),
    }
}

/// Adds the warnings of the split row of a phase; none if the set does not have the phase.
fn warn_split(
    set: &TimingSet,
    n: SplitNo,
    p: PhaseNo,
    split: &Split,
    found: &mut Vec<Warning>,
) -> Result<(), NoMemory>
    ensures { OnOk result (found.new.items ≡ found.old.items
        ++ row_warnings set.now n p (Some split.now)) }
{
    let Some(phase) = phase_at(set, p) else {
        return Ok(());
    };
    let scope = Scope::Subject(Subject::Split(n, p));
    tell(&scope, &split_cases(phase, split), found)
}

/// Adds the warnings of the rows of a split number, by ascending phase.
fn warn_rows(set: &TimingSet, n: SplitNo, found: &mut Vec<Warning>) -> Result<(), NoMemory>
    ensures { OnOk result (found.new.items ≡ found.old.items
        ++ flat_map (warnings_at set.now) (split_rows set.now n)) }
{
    for p in PhaseNo::all() {
        if let Some(split) = split_at(set, n, p) {
            warn_split(set, n, p, &split, found)?;
        }
    }
    Ok(())
}

/// Adds the warnings of a pattern itself. The phases are those of the set.
fn warn_pattern(
    alloc: Global,
    set: &TimingSet,
    phases: &[PhaseNo],
    n: PatternNo,
    pattern: &Pattern,
    found: &mut Vec<Warning>,
) -> Result<(), NoMemory>
    requires { phases.now ≡ set_has.phases set.now }
    ensures { OnOk result (found.new.items ≡ found.old.items
        ++ pattern_warnings set.now n (Some pattern.now)) }
{
    let scope = Scope::Subject(Subject::Pattern(n));
    let apart = coordination_advice(alloc, set, phases, pattern)?;
    tell_any(&scope, apart, found)?;
    tell_any(&scope, crowding_advice(set, pattern, phases, phases), found)
}

/// Adds the warning of a piece of advice, if there is one.
fn tell_any(scope: &Scope, advice: Option<Advice>, found: &mut Vec<Warning>) -> Result<(), NoMemory>
    ensures { OnOk result (found.new.items ≡ found.old.items ++ warning_of scope.now advice) }
{
    match advice {
        Some(advice) => tell(scope, &[(true, advice)], found),
        None => Ok(()),
    }
}

/// Adds a warning for each case that holds, in the order of the cases.
fn tell(scope: &Scope, cases: &[(bool, Advice)], found: &mut Vec<Warning>) -> Result<(), NoMemory>
    ensures { OnOk result (found.new.items ≡ found.old.items ++ told_cases scope.now cases.now) }
{
    for (is_so, advice) in cases {
        if *is_so {
            found.push(Warning {
                subject: *scope,
                advice: *advice,
            })?;
        }
    }
    Ok(())
}
