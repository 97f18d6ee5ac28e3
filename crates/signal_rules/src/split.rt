//! V8, the rule of a split row.

ghost use Rattle.std.specs.Prelude.{◌≡◌};
ghost use Rattle.signal_rules.specs.Cases.{first_true};
ghost use Rattle.signal_rules.specs.Lookup.{phase_at};
ghost use Rattle.signal_rules.specs.SplitRule.{split_cases};

use crate::lookup::phase_at;
use crate::need::split_need;
use crate::reason::{Reason, SplitReason};
use signal_records::{PhaseNo, Split, SplitMode, TimingSet};

/// The reason that breaks V8, if any: the phase of a split row is not in the set, or is omitted and
/// has time or is coordinated, or is not omitted and has no time, or less than it needs.
pub(crate) fn split_reason(set: &TimingSet, p: PhaseNo, split: Split) -> Option<Reason>
    ensures { result ≡ first_true (split_cases p (phase_at set.now p) split) }
{
    let Some(phase) = phase_at(set, p) else {
        return Some(Reason::Split(SplitReason::NotInPlan { phase: p }));
    };
    let Split { time, mode, coord } = split;
    if mode == SplitMode::PhaseOmitted {
        return if time != 0 {
            Some(Reason::Split(SplitReason::TimeOmitted { time, coord }))
        } else if coord {
            Some(Reason::Split(SplitReason::CoordinatedOmitted))
        } else {
            None
        };
    }
    if time == 0 {
        return Some(Reason::Split(SplitReason::NoTime));
    }
    let need = split_need(phase, mode);
    if 10 * u32::from(time) < need.tenths {
        return Some(Reason::Split(SplitReason::Short { time, need }));
    }
    None
}
