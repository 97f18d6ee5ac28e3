//! What a plan without violations gives on the street, and what one without warnings adds.

ghost use Rattle.std.specs.Prelude.{◌≡◌, ◌↔◌, [], IsTrue, IfOk};
ghost use Rattle.signal_rules.specs.Violations.{violations_of};
ghost use Rattle.signal_plans.specs.HoweverCalled.{LawsHoweverCalled};
ghost use Rattle.signal_plans.specs.StreetLaws.{StreetLaws};
ghost use Rattle.signal_plans.specs.Warnings.{warnings_of};

use crate::advising::warnings;
use signal_records::{NoMemory, TimingSet};
use signal_rules::violations;
use std::alloc::Global;

/// Whether a set breaks no rule. The laws of the street hold for such a set.
pub fn is_fit_for_the_street(alloc: Global, set: &TimingSet) -> Result<bool, NoMemory>
    ensures told { IfOk result (λ fit. IsTrue fit ↔ (violations_of set.now ≡ [])) }
    ensures laws { IfOk result (λ fit. IsTrue fit → StreetLaws set.now) }
{
    let breaks = violations(alloc, set)?;
    Ok(breaks.is_empty())
}

/// Whether a set breaks no rule and has no warning. The laws of the street hold for such a set, and
/// a walk has its time, whatever calls it, the split mode or a button: each crossing is measured
/// and has room in each split that is not omitted. Each coordinated phase has green.
pub fn is_fit_however_called(alloc: Global, set: &TimingSet) -> Result<bool, NoMemory>
    ensures told { IfOk result (λ fit.
        IsTrue fit ↔ ((violations_of set.now ≡ []) × (warnings_of set.now ≡ []))) }
    ensures laws { IfOk result (λ fit.
        IsTrue fit → StreetLaws set.now × LawsHoweverCalled set.now) }
{
    let is_fit = is_fit_for_the_street(alloc, set)?;
    if !is_fit {
        return Ok(false);
    }
    let found = warnings(alloc, set)?;
    Ok(found.is_empty())
}
