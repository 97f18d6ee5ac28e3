//! The words above and below the lanes of a picture.

use crate::picture::Picture;
use crate::shapes::Band;
use crate::svg::{draw_line, draw_rect, draw_wedge, open_words, put};
use safe_markup::Markup;
use signal_plans::Warning;
use signal_records::{InterId, Pattern, PatternNo};
use std::fmt;
use unicode_width::UnicodeWidthStr;

/// Whose plan a picture shows.
#[derive(Clone, Copy)]
pub struct PlanOf<'a> {
    /// The number of the intersection.
    pub id: InterId,
    /// The name of the intersection.
    pub name: &'a str,
    /// How often a plan of the intersection was committed.
    pub revision: u32,
}

/// The longest name that is drawn beside its number and revision at its usual width, in columns of
/// a terminal; a longer one is drawn narrower.
const LONGEST_NAME: usize = 60;

/// Writes whose plan it is, if that is given, above the title, in letters so small that a name of
/// usual length fits the narrowest picture.
pub(crate) fn draw_owner(svg: &mut Markup, of: Option<&PlanOf<'_>>) -> fmt::Result {
    let Some(of) = of else {
        return Ok(());
    };
    svg.own("<text x='120' y='14' font-size='16'")?;
    if of.name.width() > LONGEST_NAME {
        svg.own(" textLength='940' lengthAdjust='spacingAndGlyphs'")?;
    }
    svg.enclose(
        ">Intersection ",
        &of.id.get(),
        ": <tspan unicode-bidi='isolate'>",
    )?;
    svg.enclose("", &of.name, "</tspan>, revision ")?;
    svg.enclose("", &of.revision, "</text>\n")
}

/// Writes the title: the pattern's number, its cycle and offset in seconds, its split and its
/// sequence.
fn draw_title(svg: &mut Markup, n: PatternNo, pattern: &Pattern) -> fmt::Result {
    svg.own("<text x='120' y='44' font-size='28'>")?;
    put(svg, "Pattern ", u64::from(n.get()))?;
    put(svg, ": cycle ", u64::from(pattern.cycle.get()))?;
    put(svg, " s, offset ", u64::from(pattern.offset))?;
    put(svg, " s, split ", u64::from(pattern.split.get()))?;
    put(svg, ", sequence ", u64::from(pattern.seq.get()))?;
    svg.own("</text>\n")
}

/// Draws an interval, and what it means.
fn draw_key(
    svg: &mut Markup,
    x: u16,
    y: u16,
    band: Band,
    comes: bool,
    words: &'static str,
) -> fmt::Result {
    draw_rect(svg, u64::from(x), u64::from(y), 20, 16, band.style(comes))?;
    open_words(svg, u64::from(x) + 28, u64::from(y) + 15)?;
    svg.own("'>")?;
    svg.own(words)?;
    svg.own("</text>\n")
}

/// Draws what the intervals, the marks and the lines mean.
fn draw_legend(svg: &mut Markup) -> fmt::Result {
    draw_key(svg, 120, 80, Band::Green, true, "green")?;
    draw_key(svg, 215, 80, Band::Lead, true, "lead")?;
    draw_key(svg, 300, 80, Band::Yellow, true, "yellow")?;
    draw_key(svg, 405, 80, Band::Red, true, "red")?;
    svg.own("<text x='480' y='95'>* coordinated</text>\n")?;
    draw_line(svg, 630, 80, 630, 96, 5)?;
    svg.own("<text x='640' y='95'>barrier</text>\n")?;
    draw_line(svg, 730, 80, 730, 96, 2)?;
    svg.own("<text x='740' y='95'>all rings change, or cycle ends</text>\n")?;
    draw_key(svg, 120, 104, Band::Walk, true, "walk")?;
    draw_key(svg, 240, 104, Band::Clearance, true, "pedestrian clearance")?;
    draw_key(svg, 510, 104, Band::Walk, false, "walk, if called")?;
    draw_wedge(svg, 610, 104)?;
    svg.own("<text x='738' y='119'>not over when yellow begins</text>\n")
}

/// Writes the words above the lanes: the title, the broken rule that the picture names, if there is
/// one, and what the marks mean.
pub(crate) fn draw_head(svg: &mut Markup, picture: &Picture) -> fmt::Result {
    draw_title(svg, picture.number, &picture.pattern)?;
    if let Some(broken) = &picture.broken {
        svg.enclose("<text x='120' y='68'>", &broken.violation.rule, ": ")?;
        svg.enclose("", &broken.reason, "</text>\n")?;
    }
    draw_legend(svg)
}

/// Writes a line for each warning, the first so many units down and each other one 22 units below
/// the one before, in letters so small that the longest, of 135, fits the narrowest picture.
pub(crate) fn draw_warnings(svg: &mut Markup, top: u64, warnings: &[Warning]) -> fmt::Result {
    let mut y = top;
    for warning in warnings {
        put(svg, "<text x='12' y='", y)?;
        svg.enclose("' font-size='15'>Warning: ", warning, "</text>\n")?;
        y = y.saturating_add(22);
    }
    Ok(())
}
