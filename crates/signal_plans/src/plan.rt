//! What an engineer is warned of in a plan as a whole, and what is looked up in it once.

ghost use Rattle.std.specs.Prelude.{◌≡◌, length, IfOk};
ghost use Rattle.std.specs.List.{list_all};
ghost use Rattle.signal_rules.specs.Lookup as set_has;
ghost use Rattle.signal_rules.specs.Lookup.{phase_at};
ghost use Rattle.signal_plans.specs.Parts.{AreParts};
ghost use Rattle.signal_plans.specs.PhaseWarnings.{patterns};
ghost use Rattle.signal_plans.specs.PlanWarnings.{may_time, may_time_with_all, has_no_conflict, lacks_pattern, lacks_conflict, plan_cases};

use crate::warning::Advice;
use signal_records::{NoMemory, Pattern, PatternNo, PhaseNo, TimingSet};
use signal_rules::{pattern_at, phase_at, phases_of, used_rings};
use std::alloc::Global;

/// What is looked up in a set once: its phases and its patterns, each ascending, and how many rings
/// have a phase.
#[derive(Drop)]
pub(crate) struct PlanParts {
    pub(crate) phases: Vec<PhaseNo>,
    pub(crate) patterns: Vec<Pattern>,
    pub(crate) rings: usize,
}

/// Looks up the phases and the patterns of a set, and how many rings have a phase.
pub(crate) fn parts_of(alloc: Global, set: &TimingSet) -> Result<PlanParts, NoMemory>
    ensures { IfOk result (λ parts. AreParts set.now parts) }
{
    let phases = phases_of(alloc, set)?;
    let patterns = patterns_of(alloc, set)?;
    let rings = used_rings(alloc, set)?.len();
    Ok(PlanParts {
        phases,
        patterns,
        rings,
    })
}

/// The patterns of a set, ascending.
fn patterns_of(alloc: Global, set: &TimingSet) -> Result<Vec<Pattern>, NoMemory>
    ensures { IfOk result (λ found. found.items ≡ patterns set.now) }
{
    let mut found = Vec::new(alloc);
    for n in PatternNo::all() {
        if let Some(pattern) = pattern_at(set, n) {
            found.push(pattern)?;
        }
    }
    Ok(found)
}

/// What an engineer may be warned of in a plan as a whole, each with whether it holds. The parts
/// are those of the set.
pub(crate) fn plan_cases(set: &TimingSet, parts: &PlanParts) -> [(bool, Advice); 2]
    requires { AreParts set.now parts.now }
    ensures { result ≡ plan_cases set.now }
{
    let phases = parts.phases.as_slice();
    let rings = parts.rings;
    [
        (
            lacks_pattern(phases, &parts.patterns),
            Advice::NoPattern {
                phases: phases.len(),
            },
        ),
        (
            lacks_conflict(set, phases, rings),
            Advice::NoConflict { rings },
        ),
    ]
}

/// Whether there are phases and no pattern.
fn lacks_pattern(phases: &[PhaseNo], patterns: &[Pattern]) -> bool
    ensures { result ≡ lacks_pattern (length phases.now) (length patterns.now) }
{
    !phases.is_empty() && patterns.is_empty()
}

/// Whether there is more than one ring, and no phase of the set conflicts with one of another ring.
fn lacks_conflict(set: &TimingSet, phases: &[PhaseNo], rings: usize) -> bool
    requires { phases.now ≡ set_has.phases set.now }
    ensures { result ≡ lacks_conflict set.now rings }
{
    1 < rings && has_no_conflict(set, phases)
}

/// Whether no phase of the set conflicts with one of another ring.
fn has_no_conflict(set: &TimingSet, phases: &[PhaseNo]) -> bool
    requires { phases.now ≡ set_has.phases set.now }
    ensures { result ≡ has_no_conflict set.now }
{
    for p in phases {
        if !may_time_with_all(set, phases, *p) {
            return false;
        }
    }
    true
}

/// Whether nothing but a ring keeps a phase from timing with each of some others.
fn may_time_with_all(set: &TimingSet, others: &[PhaseNo], p: PhaseNo) -> bool
    ensures { result ≡ may_time_with_all set.now others.now p }
{
    for q in others {
        if !may_time(set, p, *q) {
            return false;
        }
    }
    true
}

/// Whether nothing but a ring keeps a phase from timing with another one: the set has both, and
/// they are in one ring, or the first lists the second.
fn may_time(set: &TimingSet, p: PhaseNo, q: PhaseNo) -> bool
    ensures { result ≡ may_time (phase_at set.now p) q (phase_at set.now q) }
{
    match (phase_at(set, p), phase_at(set, q)) {
        (Some(phase), Some(other)) => {
            phase.ring == other.ring || phase.mates.as_slice().contains(&q)
        }
        _ => false,
    }
}
