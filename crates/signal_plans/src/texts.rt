//! How warnings are written.

use crate::warning::{Advice, Scope, Warning};
use signal_records::NoMemory;
use signal_rules::{NeedPart, SplitNeed, Tenths};
use std::alloc::Global;
use std::fmt;
use std::fmt::Write;

/// Writes the subject's kind and numbers, as `split 1 8`, or `plan`.
impl fmt::Display for Scope {
    fn fmt<W: fmt::Write>(&self, f: &mut fmt::Formatter<W>) -> fmt::Result {
        match self {
            Scope::Subject(subject) => write!(f, "{subject}"),
            Scope::Plan => f.write_str("plan"),
        }
    }
}

/// The words for the part of a phase that decides how long its split is to be, as `walk and
/// clearance`.
fn governing_words(part: NeedPart) -> &'static str {
    match part {
        NeedPart::Green => "lead and minimum green",
        NeedPart::Walk => "walk and clearance",
    }
}

/// Writes what an engineer is warned of, with its numbers, as `the minimum green is 0 s`.
impl fmt::Display for Advice {
    fn fmt<W: fmt::Write>(&self, f: &mut fmt::Formatter<W>) -> fmt::Result {
        match self {
            Advice::MaximumBelowMinimum { maximum, minimum } => write!(
                f,
                "the maximum green is {maximum} s, less than the minimum green of {minimum} s"
            ),
            Advice::NoMinimumGreen => f.write_str("the minimum green is 0 s"),
            Advice::NoConcurrentPhase { rings } => {
                write!(
                    f,
                    "no phase may time with it, and the plan has {rings} rings"
                )
            }
            Advice::NeverServed => f.write_str("no pattern serves it"),
            Advice::ShortPassage { passage } => {
                let passage = Tenths(u32::from(*passage));
                write!(f, "the passage is {passage} s, less than 0.5 s")
            }
            Advice::ShortRed { red } => {
                write!(f, "red is {} s, less than 0.5 s", Tenths(u32::from(*red)))
            }
            Advice::NoClearance { width } => {
                write!(
                    f,
                    "the crossing of {} ft has a clearance of 0 s",
                    Tenths(*width)
                )
            }
            Advice::NotMeasured => {
                f.write_str("the width of the crossing is 0 ft, not measured")
            }
            Advice::NarrowCrossing { width } => {
                let width = Tenths(*width);
                write!(f, "the crossing is {width} ft wide, less than 20.0 ft")
            }
            Advice::WideCrossing { width } => {
                let width = Tenths(*width);
                write!(f, "the crossing is {width} ft wide, more than 200.0 ft")
            }
            Advice::WalkIfCalled { time, need } => write_walk_if_called(f, *time, *need),
            Advice::RecallWithoutWalk => {
                f.write_str("the mode calls the walk of a phase that has no crossing")
            }
            Advice::NoGreen { time, besides } => write!(
                f,
                "coordinated without a second of green: the split has {time} s, and lead, \
                 yellow and red are {} s",
                Tenths(*besides)
            ),
            Advice::AllCoordinated { phases } => {
                write!(f, "each of the {phases} phases is coordinated")
            }
            Advice::CoordinatedApart { phase, other } => write!(
                f,
                "phases {} and {} are coordinated and do not time together",
                phase.get(),
                other.get()
            ),
            Advice::LongSplit {
                phase,
                time,
                cycle,
                other,
            } => write!(
                f,
                "phase {} takes {time} s of the cycle of {cycle} s, and phase {} has no second \
                 more than it needs",
                phase.get(),
                other.get()
            ),
            Advice::NoPattern { phases } => write!(f, "{phases} phases, and no pattern"),
            Advice::NoConflict { rings } => write!(
                f,
                "each phase may time with every phase of the other rings: none of the {rings} \
                 rings waits for another"
            ),
        }
    }
}

/// Writes that a split of so many seconds is too short if a button calls the walk.
fn write_walk_if_called<W: fmt::Write>(
    f: &mut fmt::Formatter<W>,
    time: u8,
    need: SplitNeed,
) -> fmt::Result {
    let SplitNeed { tenths, governs } = need;
    write!(
        f,
        "if a button calls the walk, {} s are needed, the split has {time} s: {} are {} s too long",
        Tenths(tenths),
        governing_words(governs),
        Tenths(tenths.saturating_sub(10 * u32::from(time)))
    )
}

/// Writes the subject and the advice, as `phase 2: the minimum green is 0 s`.
impl fmt::Display for Warning {
    fn fmt<W: fmt::Write>(&self, f: &mut fmt::Formatter<W>) -> fmt::Result {
        write!(f, "{}: {}", self.subject, self.advice)
    }
}

/// A line for each warning, as `warning: phase 2: the minimum green is 0 s`, and nothing if there
/// is none. Each line ends in a line feed.
pub fn warnings_text(alloc: Global, found: &[Warning]) -> Result<Vec<u8>, NoMemory> {
    let mut text = String::new(alloc);
    for warning in found {
        writeln!(text, "warning: {warning}")?;
    }
    Ok(text.into_bytes())
}
