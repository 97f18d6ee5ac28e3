//! What the picture of a pattern shows, as a value.

ghost use Rattle.std.specs.Prelude.{◌≡◌, ◌≤◌, ◌↔◌, IfOk, IfSome, IsSome, length};
ghost use Rattle.signal_rules.specs.Lookup.{pattern_at};
ghost use Rattle.signal_diagram.specs.Shapes.{shapes_of};
ghost use Rattle.signal_diagram.specs.Picture.{told_below, DrawsChart};

use crate::chart::{Lane, lanes_of, longest};
use crate::lines::{lines_of, ticks_of};
use crate::phases::add_lanes;
use crate::shapes::Shape;
use signal_plans::{Warning, warnings_of_pattern};
use signal_records::{NoMemory, Pattern, PatternNo, TimingSet};
use signal_rules::{Explained, Rule, Subject, pattern_at, reasons_at};
use std::alloc::Global;

/// What a picture is drawn for.
#[derive(Clone, Copy)]
pub enum Sizing {
    /// A sheet of paper, landscape, which the picture fills whatever the cycle.
    Sheet,
    /// A place in a page: the picture is as wide and as high as its units.
    Figure,
}

/// What the picture of a pattern shows.
#[derive(Drop)]
pub struct Picture {
    pub number: PatternNo,
    pub pattern: Pattern,
    /// The first reason why the pattern breaks V9, V12 or V13, if it breaks one.
    pub broken: Option<Explained>,
    /// How many lanes the picture has room for.
    pub lanes: u32,
    /// How many seconds it has room for.
    pub seconds: u16,
    /// The phases in their lanes, the lines over them and the scale below them.
    pub shapes: Vec<Shape>,
    /// The warnings below the scale.
    pub warnings: Vec<Warning>,
}

/// The first of some reasons that a picture shows: one of V9, V12 or V13.
fn first_noted(broken: &[Explained]) -> Option<Explained> {
    broken
        .iter()
        .find(|explained| matches!(explained.violation.rule, Rule::V9 | Rule::V12 | Rule::V13))
        .copied()
}

/// The warnings below the picture of a pattern: none in a page, which has them below its rows.
fn told_below(
    alloc: Global,
    sizing: Sizing,
    set: &TimingSet,
    n: PatternNo,
) -> Result<Vec<Warning>, NoMemory>
    ensures { IfOk result (λ found. found.items ≡ told_below sizing set.now n) }
{
    match sizing {
        Sizing::Sheet => warnings_of_pattern(alloc, set, n),
        Sizing::Figure => Ok(Vec::new(alloc)),
    }
}

/// The shapes of a pattern: its lanes, the lines over them, and the scale below them.
fn shapes_of(
    alloc: Global,
    set: &TimingSet,
    pattern: &Pattern,
    lanes: &[Lane],
) -> Result<Vec<Shape>, NoMemory>
    requires few { length lanes.now ≤ 8 }
    ensures { IfOk result (λ shapes. shapes.items ≡ shapes_of set.now pattern.now lanes.now) }
{
    let cycle = pattern.cycle.get() as u16;
    let seconds = longest(cycle, lanes);
    let count = lanes.len() as u32;
    let mut shapes = Vec::new(alloc);
    add_lanes(&mut shapes, set, pattern, lanes)?;
    shapes.extend_from_slice(&lines_of(alloc, set, cycle, lanes)?)?;
    shapes.push(Shape::Scale(count, 10 * u32::from(seconds)))?;
    shapes.extend_from_slice(&ticks_of(alloc, seconds, count)?)?;
    Ok(shapes)
}

/// The picture of the pattern with this number: each ring that has a phase has a lane with its
/// phases in the order of the pattern's sequence, each as long as its split. A phase has a lead
/// before its green, yellow and red at its end, and below it walk and clearance. Lines cross all
/// lanes where all rings change phase, and at the end of the cycle; a scale has a tick each 10
/// seconds. If the pattern breaks V9, V12 or V13, its lanes need not end with the cycle. A sheet
/// has its warnings.
///
/// `None` if the set has no such pattern.
pub fn picture_of(
    alloc: Global,
    sizing: Sizing,
    set: &TimingSet,
    number: PatternNo,
) -> Result<Option<Picture>, NoMemory>
    ensures found { IfOk result (λ shown. IsSome shown ↔ IsSome (pattern_at set.now number)) }
    // It shows the chart of the pattern and its warnings.
    ensures chart { IfOk result (λ shown. IfSome shown
        (λ drawn. DrawsChart sizing set.now number drawn)) }
{
    let Some(pattern) = pattern_at(set, number) else {
        return Ok(None);
    };
    let broken = first_noted(&reasons_at(alloc, set, Subject::Pattern(number))?);
    let lanes = lanes_of(alloc, set, &pattern)?;
    let warnings = told_below(alloc, sizing, set, number)?;
    let shapes = shapes_of(alloc, set, &pattern, &lanes)?;
    Ok(Some(Picture {
        number,
        pattern,
        broken,
        lanes: lanes.len() as u32,
        seconds: longest(pattern.cycle.get() as u16, &lanes),
        shapes,
        warnings,
    }))
}
