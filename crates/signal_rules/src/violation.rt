//! What a timing set can break, and how it is written.

ghost use Rattle.std.specs.Prelude.{◌≡◌};
ghost use Rattle.signal_rules.specs.Texts.{number_of};

use signal_records::{PatternNo, PhaseNo, SeqNo, SplitNo};
use std::fmt;

/// The rules, by their numbers.
#[derive(Clone, Copy, PartialEq, Eq)]
pub enum Rule {
    /// The yellow change interval of a phase is 3 to 6 seconds.
    V1 = 1,
    /// The red clearance interval of a phase is at most 6 seconds.
    V2,
    /// The walk interval of a phase is at least 7 seconds, or 4 where a short one is allowed.
    V3,
    /// Pedestrian clearance, yellow and red are enough to cross at 3.5 feet a second.
    V4,
    /// Walk, pedestrian clearance, yellow and red are enough to cross from the setback at 3 feet a
    /// second.
    V5,
    /// Each mate of a phase is in the set, is in another ring, and lists the phase.
    V6,
    /// Each phase is exactly once in a sequence, in the row of its ring, and nothing else is.
    V7,
    /// The phase of a split row is in the set. If it is omitted, it has no time and is not
    /// coordinated; else it has the time that it needs.
    V8,
    /// A pattern's sequence has a row, and its split number has one for each phase of the set.
    V9,
    /// A pattern's offset is less than its cycle.
    V10,
    /// A pattern's split number coordinates a phase of the set.
    V11,
    /// The splits of each ring that has a phase sum up to the cycle; judged where V9 holds.
    V12,
    /// Phases that time together list each other, at each second of the cycle; judged where V9 and
    /// V12 hold.
    V13,
    /// The walk leads the green by no time, or by 3 seconds or more and at most the walk.
    V14,
}

/// What a rule is about.
#[derive(Clone, Copy, PartialEq, Eq)]
pub enum Subject {
    Phase(PhaseNo),
    /// A sequence that has a row.
    Seq(SeqNo),
    /// A split row: split number and phase.
    Split(SplitNo, PhaseNo),
    Pattern(PatternNo),
}

/// A rule that a subject breaks.
#[derive(Clone, Copy, PartialEq, Eq)]
pub struct Violation {
    pub subject: Subject,
    pub rule: Rule,
}

impl Rule {
    /// The number of the rule: 1 to 14.
    pub fn number(self) -> u32
        ensures { result ≡ number_of self }
    {
        self as u32
    }
}

/// Writes the rule's name, as `V13`.
impl fmt::Display for Rule {
    ghost use Rattle.std.specs.Prelude.{Some};
    ghost use Rattle.signal_rules.specs.Texts.{rule_text};

    ghost output = { λ rule. Some (rule_text rule) };

    fn fmt<W: fmt::Write>(&self, f: &mut fmt::Formatter<W>) -> fmt::Result {
        let number = self.number();
        write!(f, "V{number}")
    }
}

/// Writes the subject's kind and numbers, as `split 1 8`.
impl fmt::Display for Subject {
    ghost use Rattle.std.specs.Prelude.{Some};
    ghost use Rattle.signal_rules.specs.Texts.{subject_text};

    ghost output = { λ subject. Some (subject_text subject) };

    fn fmt<W: fmt::Write>(&self, f: &mut fmt::Formatter<W>) -> fmt::Result {
        match self {
            Subject::Phase(p) => write!(f, "phase {}", p.get()),
            Subject::Seq(n) => write!(f, "sequence {}", n.get()),
            Subject::Split(n, p) => write!(f, "split {} {}", n.get(), p.get()),
            Subject::Pattern(n) => write!(f, "pattern {}", n.get()),
        }
    }
}

/// Writes the subject and the rule, as `pattern 1 V13`.
impl fmt::Display for Violation {
    ghost use Rattle.std.specs.Prelude.{Some};
    ghost use Rattle.signal_rules.specs.Texts.{violation_text};

    ghost output = { λ violation. Some (violation_text violation) };

    fn fmt<W: fmt::Write>(&self, f: &mut fmt::Formatter<W>) -> fmt::Result {
        let subject = self.subject;
        let rule = self.rule;
        write!(f, "{subject} {rule}")
    }
}
