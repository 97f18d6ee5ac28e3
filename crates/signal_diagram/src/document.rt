//! The picture of a pattern as an SVG text, for a sheet of paper or for a page of HTML.

ghost use Rattle.std.specs.Prelude.{◌↔◌, ◌<◌, ◌^◌, IfOk, IsSome};
ghost use Rattle.signal_rules.specs.Lookup.{pattern_at};

use crate::chart::{lanes_of, longest};
use crate::picture::{Picture, Sizing, picture_of};
use crate::svg::{draw_shapes, put, top_of};
use crate::words::{PlanOf, draw_head, draw_owner, draw_warnings};
use safe_markup::Markup;
use signal_records::{NoMemory, PatternNo, TimingSet};
use signal_rules::pattern_at;
use std::alloc::Global;
use std::fmt;

/// Opens a picture on a sheet, so many units wide and high.
fn open_sheet(svg: &mut Markup, width: u64, height: u64) -> fmt::Result {
    svg.own("<svg xmlns='http://www.w3.org/2000/svg' width='260mm' height='180mm'")?;
    put(svg, " viewBox='0 0 ", width)?;
    put(svg, " ", height)?;
    svg.own("' preserveAspectRatio='xMidYMin'")
}

/// Opens a picture in a page, as wide and as high as its units, and at least so wide that its
/// letters, 20 units high, are 13 pixels. Its label says what it shows, for those who can't see it.
fn open_figure(svg: &mut Markup, n: PatternNo, width: u64, height: u64) -> fmt::Result
    requires { width < 2 ^ 20 }
{
    svg.own("<svg xmlns='http://www.w3.org/2000/svg' role='img'")?;
    put(svg, " aria-label='Pattern ", u64::from(n.get()))?;
    svg.own(": the phases of each ring in turn, each as long as its split'")?;
    put(svg, " width='", width)?;
    put(svg, "' height='", height)?;
    put(svg, "' style='min-width:", 13 * (width / 20))?;
    put(svg, "px' viewBox='0 0 ", width)?;
    put(svg, " ", height)?;
    svg.own("'")
}

/// Draws a picture: its opening and white ground, the words above its lanes, the lanes, and the
/// warnings below them. It has room for so many seconds, or for its own, if these are more.
fn draw_picture(
    svg: &mut Markup,
    sizing: Sizing,
    picture: &Picture,
    room: u16,
    of: Option<&PlanOf<'_>>,
) -> fmt::Result {
    let seconds = picture.seconds.max(room);
    let width = 180 + (10 * u64::from(seconds)).max(900);
    let bottom = top_of(picture.lanes) + 60;
    let height = bottom.saturating_add(22u64.saturating_mul(picture.warnings.len() as u64));
    match sizing {
        Sizing::Sheet => open_sheet(svg, width, height)?,
        Sizing::Figure => open_figure(svg, picture.number, width, height)?,
    }
    svg.own(" font-family='sans-serif' font-size='20'>\n")?;
    svg.own("<rect width='100%' height='100%' fill='white'/>\n")?;
    draw_owner(svg, of)?;
    draw_head(svg, picture)?;
    draw_shapes(svg, &picture.shapes)?;
    draw_warnings(svg, bottom, &picture.warnings)?;
    svg.own("</svg>\n")
}

/// The picture of a pattern as SVG; `None` if the set has no such pattern.
fn svg_of(
    alloc: Global,
    sizing: Sizing,
    set: &TimingSet,
    number: PatternNo,
    room: u16,
    of: Option<&PlanOf<'_>>,
) -> Result<Option<Markup>, NoMemory>
    ensures { IfOk result (λ shown. IsSome shown ↔ IsSome (pattern_at set.now number)) }
{
    let Some(picture) = picture_of(alloc, sizing, set, number)? else {
        return Ok(None);
    };
    let mut svg = Markup::new(alloc);
    match draw_picture(&mut svg, sizing, &picture, room, of) {
        Ok(()) => Ok(Some(svg)),
        Err(fmt::Error) => Err(NoMemory),
    }
}

/// The most seconds that a picture of a pattern of a set has; 0 if the set has no pattern. With
/// room for so many, all pictures of the set have one scale.
pub fn most_seconds(alloc: Global, set: &TimingSet) -> Result<u16, NoMemory> {
    let mut most = 0;
    for n in PatternNo::all() {
        if let Some(pattern) = pattern_at(set, n) {
            let lanes = lanes_of(alloc, set, &pattern)?;
            most = longest(most.max(pattern.cycle.get() as u16), &lanes);
        }
    }
    Ok(most)
}

/// The picture of a pattern for a sheet, which prints on one page, landscape, and says whose plan
/// it is, if that is given: an SVG text in UTF-8; `None` if the set has no such pattern.
pub fn diagram(
    alloc: Global,
    set: &TimingSet,
    number: PatternNo,
    of: Option<&PlanOf<'_>>,
) -> Result<Option<Vec<u8>>, NoMemory>
    ensures { IfOk result (λ shown. IsSome shown ↔ IsSome (pattern_at set.now number)) }
{
    let room = most_seconds(alloc, set)?;
    match svg_of(alloc, Sizing::Sheet, set, number, room, of)? {
        Some(svg) => Ok(Some(svg.into_bytes())),
        None => Ok(None),
    }
}

/// The picture of a pattern for a page of HTML, which may scale it, with room for so many seconds:
/// markup in ASCII; `None` if the set has no such pattern.
pub fn figure(
    alloc: Global,
    set: &TimingSet,
    number: PatternNo,
    room: u16,
) -> Result<Option<Markup>, NoMemory>
    ensures { IfOk result (λ shown. IsSome shown ↔ IsSome (pattern_at set.now number)) }
{
    svg_of(alloc, Sizing::Figure, set, number, room, None)
}
