//! The pictures of a plan's patterns.

use super::cell::Tenths;
use safe_markup::Markup;
use signal_diagram::{figure, most_seconds};
use signal_records::{Pattern, PatternNo, Ped, Phase, PhaseNo, Row, Split, TimingSet};
use signal_rules::split_at;
use std::fmt::{self, Write};

/// The tenths of a second that a split has before yellow: its time less yellow and red, or 0.
fn before_yellow(split: &Split, phase: &Phase) -> u32 {
    let time = split.time;
    let after = u32::from(phase.yellow) + u32::from(phase.red);
    (10 * u32::from(time)).saturating_sub(after)
}

/// Writes a note below the picture of a pattern where the split of a phase ends its walk and
/// clearance.
fn push_cut_note(
    page: &mut Markup,
    set: &TimingSet,
    pattern: &Pattern,
    p: PhaseNo,
    phase: &Phase,
) -> fmt::Result {
    let (Some(split), Some(ped)) = (split_at(set, pattern.split, p), phase.ped) else {
        return Ok(());
    };
    let Ped { walk, clear, .. } = ped;
    let crossing = u32::from(walk) + u32::from(clear);
    let left = before_yellow(&split, phase);
    if split.time == 0 || 10 * crossing <= left {
        return Ok(());
    }
    let (p, time, left) = (p.get(), split.time, Tenths(i64::from(left)));
    page.own("<p>")?;
    write!(
        page,
        "Phase {p}: walk and pedestrian clearance take {crossing} s, and the split of {time} s has \
         {left} s before yellow. The picture ends them there, at the wedge."
    )?;
    page.own("</p>\n")
}

/// Writes the picture of a pattern, with room for so many seconds, and below it the notes on what
/// it cannot show.
fn push_picture(
    page: &mut Markup,
    set: &TimingSet,
    rows: &[Row],
    room: u16,
    n: PatternNo,
    pattern: &Pattern,
) -> fmt::Result {
    page.own("<figure tabindex='0'>\n")?;
    if let Some(picture) = figure(page.alloc(), set, n, room)? {
        page.append(&picture)?;
    }
    for row in rows {
        if let Row::Phase(p, phase) = row {
            push_cut_note(page, set, pattern, *p, phase)?;
        }
    }
    page.own("</figure>\n")
}

/// Writes the pictures of all patterns in the rows of a set, all in one scale.
pub(crate) fn push_pictures(page: &mut Markup, set: &TimingSet, rows: &[Row]) -> fmt::Result {
    let room = most_seconds(page.alloc(), set)?;
    for row in rows {
        if let Row::Pattern(n, pattern) = row {
            push_picture(page, set, rows, room, *n, pattern)?;
        }
    }
    Ok(())
}
