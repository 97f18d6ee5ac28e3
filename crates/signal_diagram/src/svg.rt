//! A shape as SVG. A unit is a tenth of a second across, and as long down, so that all coordinates
//! are whole numbers.

ghost use Rattle.std.specs.Prelude.{◌<◌, ◌^◌};

use crate::shapes::{Band, Shape};
use safe_markup::Markup;
use std::fmt::{self, Write};

/// Appends a constant and a number after it.
pub(crate) fn put(svg: &mut Markup, own: &'static str, number: u64) -> fmt::Result {
    svg.own(own)?;
    write!(svg, "{number}")
}

/// The place of a tenth of a second across, in units.
fn x_of(tenth: u32) -> u64
    ensures { result < 2 ^ 40 }
{
    120 + u64::from(tenth)
}

/// The top of a lane, in units; the first has the number 0.
pub(crate) fn top_of(lane: u32) -> u64
    ensures { result < 2 ^ 40 }
{
    140 + 120 * u64::from(lane)
}

impl Band {
    /// How far below the top of its lane the interval begins, and how high it is, in units.
    fn place(self) -> (u8, u8) {
        match self {
            Band::Walk | Band::Clearance => (70, 16),
            _ => (34, 30),
        }
    }

    /// The colour of the interval and its edge; yellow is light and red dark, so that they differ
    /// in black and white too. An interval that only a button may call is an edge in dashes.
    pub(crate) fn style(self, comes: bool) -> &'static str {
        if !comes {
            return "fill='none' stroke='black' stroke-width='1' stroke-dasharray='6 4'";
        }
        match self {
            Band::Green => "fill='#dcefd8' stroke='black' stroke-width='1'",
            Band::Lead => "fill='#9fb4c7' stroke='black' stroke-width='1'",
            Band::Yellow => "fill='#ffd84d' stroke='black' stroke-width='1'",
            Band::Red => "fill='#b3261e' stroke='black' stroke-width='1'",
            Band::Walk => "fill='#ffffff' stroke='black' stroke-width='1'",
            Band::Clearance => "fill='#f2a65a' stroke='black' stroke-width='1'",
        }
    }
}

/// The style of the edge of a phase, thick if it is coordinated.
fn edge_style(coordinated: bool) -> &'static str {
    match coordinated {
        true => "fill='none' stroke='black' stroke-width='5'",
        false => "fill='none' stroke='black' stroke-width='1'",
    }
}

/// Draws a rectangle from its left upper corner.
pub(crate) fn draw_rect(
    svg: &mut Markup,
    x: u64,
    y: u64,
    width: u32,
    height: u8,
    style: &'static str,
) -> fmt::Result {
    put(svg, "<rect x='", x)?;
    put(svg, "' y='", y)?;
    put(svg, "' width='", u64::from(width))?;
    put(svg, "' height='", u64::from(height))?;
    svg.own("' ")?;
    svg.own(style)?;
    svg.own("/>\n")
}

/// Draws a black line from one point to another.
pub(crate) fn draw_line(
    svg: &mut Markup,
    x1: u64,
    y1: u64,
    x2: u64,
    y2: u64,
    width: u64,
) -> fmt::Result {
    put(svg, "<line x1='", x1)?;
    put(svg, "' y1='", y1)?;
    put(svg, "' x2='", x2)?;
    put(svg, "' y2='", y2)?;
    put(svg, "' stroke='black' stroke-width='", width)?;
    svg.own("'/>\n")
}

/// Draws a black wedge, 10 units long and 16 high, with its point at a tenth and its top at `y`.
pub(crate) fn draw_wedge(svg: &mut Markup, at: u32, y: u64) -> fmt::Result
    requires { y < 2 ^ 41 }
{
    let left = 110 + u64::from(at);
    put(svg, "<polygon points='", left)?;
    put(svg, ",", y)?;
    put(svg, " ", x_of(at))?;
    put(svg, ",", y + 8)?;
    put(svg, " ", left)?;
    put(svg, ",", y + 16)?;
    svg.own("' fill='black'/>\n")
}

/// Opens words that begin at a point, up to the end of their tag.
pub(crate) fn open_words(svg: &mut Markup, x: u64, y: u64) -> fmt::Result {
    put(svg, "<text x='", x)?;
    put(svg, "' y='", y)
}

/// Draws the number of a phase, a star if it is coordinated, and its seconds, if these are 10 or
/// more: there is no room for fewer.
fn draw_label(svg: &mut Markup, phase: u32, coordinated: bool, seconds: u16) -> fmt::Result {
    put(svg, "'>", u64::from(phase))?;
    if coordinated {
        svg.own("*")?;
    }
    if seconds >= 10 {
        put(svg, ": ", u64::from(seconds))?;
        svg.own(" s")?;
    }
    svg.own("</text>\n")
}

fn draw_scale(svg: &mut Markup, y: u64, to: u32) -> fmt::Result
    requires { y < 2 ^ 41 }
{
    open_words(svg, 12, y + 32)?;
    svg.own("'>Seconds</text>\n")?;
    draw_line(svg, x_of(0), y, x_of(to), y, 1)
}

fn draw_tick(svg: &mut Markup, y: u64, at: u32) -> fmt::Result
    requires { y < 2 ^ 41 }
{
    let x = x_of(at);
    draw_line(svg, x, y, x, y + 10, 1)?;
    open_words(svg, x, y + 32)?;
    put(svg, "' text-anchor='middle'>", u64::from(at / 10))?;
    svg.own("</text>\n")
}

/// Draws a shape at its place.
fn draw(svg: &mut Markup, shape: Shape) -> fmt::Result {
    match shape {
        Shape::Ring(lane, ring) => {
            open_words(svg, 12, top_of(lane) + 40)?;
            put(svg, "'>Ring ", u64::from(ring.get()))?;
            svg.own("</text>\n")
        }
        Shape::Interval(lane, band, comes, from, to) => {
            let (top, height) = band.place();
            let y = top_of(lane) + u64::from(top);
            let width = to.saturating_sub(from);
            draw_rect(svg, x_of(from), y, width, height, band.style(comes))
        }
        Shape::Cut(lane, at) => draw_wedge(svg, at, top_of(lane) + 70),
        Shape::Edge(lane, from, to, coordinated) => {
            let width = to.saturating_sub(from);
            let style = edge_style(coordinated);
            draw_rect(svg, x_of(from), top_of(lane), width, 64, style)
        }
        Shape::Label(lane, from, phase, seconds, coordinated) => {
            open_words(svg, x_of(from) + 8, top_of(lane) + 25)?;
            draw_label(svg, phase.get(), coordinated, seconds)
        }
        Shape::Line(lanes, at, barrier) => {
            let width = if barrier { 5 } else { 2 };
            let bottom = 128 + 120 * u64::from(lanes);
            draw_line(svg, x_of(at), 128, x_of(at), bottom, width)
        }
        Shape::Scale(lanes, to) => draw_scale(svg, top_of(lanes), to),
        Shape::Tick(lanes, at) => draw_tick(svg, top_of(lanes), at),
    }
}

/// Draws some shapes, in their order.
pub(crate) fn draw_shapes(svg: &mut Markup, shapes: &[Shape]) -> fmt::Result {
    for shape in shapes {
        draw(svg, *shape)?;
    }
    Ok(())
}
