//! Judges of subjects, which count what they do, and the violations that a change can have made.

ghost use Rattle.std.specs.Prelude.{◌≡◌, ℕ, ◌+◌, ◌<◌, ◌≤◌, List, [], length, IfOk, OnOk};
ghost use Rattle.std.specs.List.{flat_map};
ghost use Rattle.signal_records.specs.TimingSet.{Rows};
ghost use Rattle.signal_rules.specs.declared.violation.Subject.{Subject as SubjectOf};
ghost use Rattle.signal_rules.specs.declared.violation.Violation.{Violation as ViolationOf};
ghost use Rattle.signal_rules.specs.Counts.{greatest, RisesAtMost, most_seconds, most_seconds_of};
ghost use Rattle.signal_rules.specs.Touched.{touched_subjects, IsRightOnTouched};
ghost use Rattle.signal_rules.specs.Violations.{violations_at, violations_of};
ghost use Rattle.signal_rules.specs.Difference.{DiffersAtMost};

use crate::judging;
use crate::reach::touched;
use crate::violation::{Subject, Violation};
use signal_records::{Key, NoMemory, TimingSet};
use std::alloc::Global;

/// Answers for a subject of a set, and keeps two counts: of its calls, and of the seconds at which
/// it compared phases, once for each phase that starts there. A count never falls and never passes
/// `u64::MAX`.
pub trait Judge {
    /// The answer for a subject of a set.
    ghost answers: { Rows → SubjectOf → List ViolationOf };

    /// The count of calls.
    ghost calls: { Self → ℕ };

    /// The count of seconds at which phases were compared.
    ghost seconds: { Self → ℕ };

    /// The answer for a subject of a set, which counts as one call. A refusal of memory may leave
    /// the counts raised, by no more than an answer raises them.
    fn judge(
        &mut self,
        alloc: Global,
        set: &TimingSet,
        subject: Subject,
    ) -> Result<Vec<Violation>, NoMemory>
        ensures answer { IfOk result (λ found. found.items ≡ answers set.now subject) }
        ensures call { RisesAtMost 1 (calls self.old) (calls self.new) }
        ensures counted { OnOk result
            (calls self.old < greatest → calls self.new ≡ calls self.old + 1) }
        ensures compared { RisesAtMost (most_seconds set.now subject)
            (seconds self.old) (seconds self.new) };

    ghost calls_within: { (judge : Self) → calls judge ≤ greatest };

    ghost seconds_within: { (judge : Self) → seconds judge ≤ greatest };
}

/// A judge that answers the subject's part of the violations.
#[derive(Clone, Copy)]
pub struct Tally {
    calls: u64,
    seconds: u64,
    // Both counts are at most `u64::MAX`, as the laws of a judge ask.
    ghost within: { (calls ≤ greatest) × (seconds ≤ greatest) },
}

impl Tally {
    /// A tally whose counts are both 0.
    pub fn new() -> Tally
        ensures calls { ⟦<Tally as Judge>⟧.calls result ≡ 0 }
        ensures seconds { ⟦<Tally as Judge>⟧.seconds result ≡ 0 }
    {
        Tally {
            calls: 0,
            seconds: 0,
        }
    }

    /// How many calls there were so far; `u64::MAX` if there were more.
    pub fn count(&self) -> u64
        ensures { result ≡ ⟦<Tally as Judge>⟧.calls self.now }
    {
        self.calls
    }

    /// At how many seconds phases were compared so far; `u64::MAX` if there were more.
    pub fn seconds(&self) -> u64
        ensures { result ≡ ⟦<Tally as Judge>⟧.seconds self.now }
    {
        self.seconds
    }
}

impl Judge for Tally {
    ghost answers = { violations_at };

    ghost calls = { λ tally. tally.calls };

    ghost seconds = { λ tally. tally.seconds };

    ghost calls_within = { λ tally. tally.within.0 };

    ghost seconds_within = { λ tally. tally.within.1 };

    /// The violations of the subject. The call is counted first, so that one that ends in
    /// `NoMemory` is counted too.
    fn judge(
        &mut self,
        alloc: Global,
        set: &TimingSet,
        subject: Subject,
    ) -> Result<Vec<Violation>, NoMemory>
        ensures answer { IfOk result (λ found. found.items ≡ violations_at set.now subject) }
        ensures call { RisesAtMost 1 self.old.calls self.new.calls }
        ensures counted { self.old.calls < greatest → self.new.calls ≡ self.old.calls + 1 }
        ensures compared { RisesAtMost (most_seconds set.now subject)
            self.old.seconds self.new.seconds }
    {
        let Tally { calls, seconds } = self;
        *calls = calls.saturating_add(1);
        let mut found = Vec::new(alloc);
        let judged = judging::judge(alloc, set, subject, seconds, &mut found);
        // The count is read, so that its range is known.
        let _seconds = *seconds;
        judged?;
        Ok(found)
    }
}

/// The judge's answers on the subjects of the draft that a key reaches, in their order. They are
/// the violations of the draft if the base has none, the sets differ at most at the keys, and the
/// judge answers with the violations of each of these subjects.
///
/// A refusal of memory may leave the judge's counts raised, by no more than the answers raise them.
pub fn violations_touched<J: Judge>(
    alloc: Global,
    base: &TimingSet,
    draft: &TimingSet,
    keys: &[Key],
    judge: &mut J,
) -> Result<Vec<Violation>, NoMemory>
    ensures answers { IfOk result (λ found. found.items ≡
        flat_map (J.answers draft.now) (touched_subjects draft.now keys.now)) }
    ensures whole { violations_of base.now ≡ [] → DiffersAtMost base.now draft.now keys.now →
        IsRightOnTouched J.answers draft.now keys.now →
        IfOk result (λ found. found.items ≡ violations_of draft.now) }
    ensures calls { RisesAtMost (length (touched_subjects draft.now keys.now))
        (J.calls judge.old) (J.calls judge.new) }
    ensures seconds { RisesAtMost (most_seconds_of draft.now (touched_subjects draft.now keys.now))
        (J.seconds judge.old) (J.seconds judge.new) }
{
    let mut found = Vec::new(alloc);
    for subject in &touched(alloc, draft, keys)? {
        let part = judge.judge(alloc, draft, *subject)?;
        found.extend_from_slice(&part)?;
    }
    Ok(found)
}
