//! The subjects that a change of some rows touches.

ghost use Rattle.std.specs.Prelude.{◌≡◌, IfOk};
ghost use Rattle.signal_rules.specs.Touched.{reaches, reaches_any, touched_subjects};

use crate::lanes::lists;
use crate::lookup::pattern_at;
use crate::subjects::subjects_of;
use crate::violation::Subject;
use signal_records::{Key, NoMemory, TimingSet};
use std::alloc::Global;

/// The subjects of the draft that one of the keys reaches, in the order of the subjects, each once.
///
/// A key reaches its own subject, which for a sequence row is the sequence. A phase also reaches
/// the phases that list it, every sequence, its split rows and every pattern; a sequence row
/// reaches the patterns with that sequence, and a split row those with that split number.
#[tactic(auto, unfolding(crate::specs::Touched::touched_subjects))]
pub fn touched(alloc: Global, draft: &TimingSet, keys: &[Key]) -> Result<Vec<Subject>, NoMemory>
    ensures { IfOk result (λ found. found.items ≡ touched_subjects draft.now keys.now) }
{
    let mut found = Vec::new(alloc);
    for subject in &subjects_of(alloc, draft)? {
        if reaches_any(draft, keys, subject) {
            found.push(*subject)?;
        }
    }
    Ok(found)
}

fn reaches_any(set: &TimingSet, keys: &[Key], subject: &Subject) -> bool
    ensures { result ≡ reaches_any set.now keys.now subject.now }
{
    for key in keys {
        if reaches(set, *key, *subject) {
            return true;
        }
    }
    false
}

fn reaches(set: &TimingSet, key: Key, subject: Subject) -> bool
    ensures { result ≡ reaches set.now key subject }
{
    match key {
        Key::Phase(q) => match subject {
            Subject::Phase(p) => p == q || lists(set, p, q),
            Subject::Seq(_) => true,
            Subject::Split(_, p) => p == q,
            Subject::Pattern(_) => true,
        },
        Key::Seq(m, _) => match subject {
            Subject::Seq(n) => n == m,
            Subject::Pattern(n) => matches!(pattern_at(set, n), Some(used) if used.seq == m),
            _ => false,
        },
        Key::Split(m, q) => match subject {
            Subject::Split(n, p) => n == m && p == q,
            Subject::Pattern(n) => matches!(pattern_at(set, n), Some(used) if used.split == m),
            _ => false,
        },
        Key::Pattern(m) => match subject {
            Subject::Pattern(n) => n == m,
            _ => false,
        },
    }
}
