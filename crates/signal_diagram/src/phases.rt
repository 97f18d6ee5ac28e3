//! The shapes of the phases of a lane.

ghost use Rattle.std.specs.Prelude.{◌≡◌, ◌++◌, ◌≤◌, OnOk, length};
ghost use Rattle.std.specs.Option.{option_copied};
ghost use Rattle.signal_diagram.specs.Shapes.{calls_walk, tenth_after, tenth_before, green_from, interval, walk_intervals, intervals, phase_shapes, lane_shapes, lanes_shapes};

use crate::chart::{Bar, Lane};
use crate::shapes::{Band, Shape};
use signal_records::{Pattern, Ped, Phase, Split, SplitMode, TimingSet};
use signal_rules::{is_coordinated, phase_at, split_at};
use std::alloc::AllocError;

/// Whether the split mode calls the walk of the phase: both pedestrian recalls do. Without a split
/// row, nothing calls it.
fn calls_walk(split: Option<Split>) -> bool
    ensures { result ≡ calls_walk split }
{
    split.is_some_and(|split| {
        matches!(
            split.mode,
            SplitMode::PedestrianRecall | SplitMode::MaximumVehicleAndPedestrianRecall
        )
    })
}

/// The tenth so many seconds after a phase begins, or a limit, whichever comes first.
fn tenth_after(bar: &Bar, limit: u32, seconds: u16) -> u32
    ensures { result ≡ tenth_after bar.now limit seconds }
{
    let from = bar.from;
    limit.min(10 * (u32::from(from) + u32::from(seconds)))
}

/// The tenth so many tenths before a phase ends, or the one at which it begins, whichever comes
/// last.
fn tenth_before(bar: &Bar, tenths: u16) -> u32
    ensures { result ≡ tenth_before bar.now tenths }
{
    let Bar { from, to, .. } = *bar;
    let begin = 10 * u32::from(from);
    begin.max((10 * u32::from(to)).saturating_sub(u32::from(tenths)))
}

/// The tenth at which the green of a phase begins: after a lead that comes without a button, else
/// where the phase begins.
fn green_from(bar: &Bar, limit: u32, comes: bool, ped: Option<Ped>) -> u32
    ensures { result ≡ green_from bar.now limit comes ped }
{
    let from = bar.from;
    match ped {
        Some(ped) if comes => tenth_after(bar, limit, ped.lead.get() as u16),
        _ => 10 * u32::from(from),
    }
}

/// Adds an interval of a phase in a lane, from a tenth to another; an empty one is not drawn.
fn add_interval(
    shapes: &mut Vec<Shape>,
    lane: u32,
    band: Band,
    comes: bool,
    from: u32,
    to: u32,
) -> Result<(), AllocError>
    ensures { OnOk result (shapes.new.items
        ≡ shapes.old.items ++ interval lane band comes from to) }
{
    if from < to {
        shapes.push(Shape::Interval(lane, band, comes, from, to))?;
    }
    Ok(())
}

/// Adds the lead, the walk and the clearance of a phase that has them, up to a limit, each with
/// whether the split mode calls it, and the mark of a walk that is cut there.
fn add_walking(
    shapes: &mut Vec<Shape>,
    lane: u32,
    comes: bool,
    bar: &Bar,
    limit: u32,
    ped: Option<Ped>,
) -> Result<(), AllocError>
    ensures { OnOk result (shapes.new.items
        ≡ shapes.old.items ++ walk_intervals lane comes bar.now limit ped) }
{
    let Some(ped) = ped else {
        return Ok(());
    };
    let from = bar.from;
    let begin = 10 * u32::from(from);
    let lead_to = tenth_after(bar, limit, ped.lead.get() as u16);
    let walk_to = tenth_after(bar, limit, u16::from(ped.walk));
    let clear_to = tenth_after(bar, limit, u16::from(ped.walk) + u16::from(ped.clear));
    add_interval(shapes, lane, Band::Lead, comes, begin, lead_to)?;
    add_interval(shapes, lane, Band::Walk, comes, begin, walk_to)?;
    add_interval(shapes, lane, Band::Clearance, comes, walk_to, clear_to)?;
    let over = u32::from(from) + u32::from(ped.walk) + u32::from(ped.clear);
    if limit < 10 * over {
        shapes.push(Shape::Cut(lane, limit))?;
    }
    Ok(())
}

/// Adds the intervals of a phase: its green, lead, walk and clearance, none past its yellow, then
/// yellow and red. A phase that is not in the set has none.
fn add_intervals(
    shapes: &mut Vec<Shape>,
    lane: u32,
    comes: bool,
    bar: &Bar,
    phase: Option<&Phase>,
) -> Result<(), AllocError>
    ensures { OnOk result (shapes.new.items
        ≡ shapes.old.items ++ intervals lane comes bar.now (option_copied phase.entry)) }
{
    let Some(phase) = phase else {
        return Ok(());
    };
    let to = bar.to;
    let limit = tenth_before(bar, u16::from(phase.yellow) + u16::from(phase.red));
    let begin = green_from(bar, limit, comes, phase.ped);
    let red_from = tenth_before(bar, u16::from(phase.red));
    add_interval(shapes, lane, Band::Green, true, begin, limit)?;
    add_walking(shapes, lane, comes, bar, limit, phase.ped)?;
    add_interval(shapes, lane, Band::Yellow, true, limit, red_from)?;
    add_interval(shapes, lane, Band::Red, true, red_from, 10 * u32::from(to))
}

/// Adds the intervals, the edge and the words of a phase, by its split row.
fn add_phase(
    shapes: &mut Vec<Shape>,
    set: &TimingSet,
    pattern: &Pattern,
    lane: u32,
    bar: &Bar,
) -> Result<(), AllocError>
    ensures { OnOk result (shapes.new.items
        ≡ shapes.old.items ++ phase_shapes set.now pattern.now lane bar.now) }
{
    let split = split_at(set, pattern.split, bar.phase);
    let coordinated = is_coordinated(split);
    let Bar { phase, from, to } = *bar;
    let begin = 10 * u32::from(from);
    let end = 10 * u32::from(to);
    add_intervals(shapes, lane, calls_walk(split), bar, phase_at(set, phase))?;
    let seconds = to.saturating_sub(from);
    shapes.push(Shape::Edge(lane, begin, end, coordinated))?;
    shapes.push(Shape::Label(lane, begin, phase, seconds, coordinated))?;
    Ok(())
}

/// Adds a lane, by its number from the top: the name of its ring, and its phases.
fn add_lane(
    shapes: &mut Vec<Shape>,
    set: &TimingSet,
    pattern: &Pattern,
    index: u32,
    lane: &Lane,
) -> Result<(), AllocError>
    ensures { OnOk result (shapes.new.items
        ≡ shapes.old.items ++ lane_shapes set.now pattern.now index lane.now) }
{
    shapes.push(Shape::Ring(index, lane.ring))?;
    for bar in &lane.bars {
        add_phase(shapes, set, pattern, index, bar)?;
    }
    Ok(())
}

/// Adds the lanes of a pattern, from the top.
pub(crate) fn add_lanes(
    shapes: &mut Vec<Shape>,
    set: &TimingSet,
    pattern: &Pattern,
    lanes: &[Lane],
) -> Result<(), AllocError>
    requires { length lanes.now ≤ 8 }
    ensures { OnOk result (shapes.new.items
        ≡ shapes.old.items ++ lanes_shapes set.now pattern.now 0 lanes.now) }
{
    let mut index: u32 = 0;
    for lane in lanes {
        add_lane(shapes, set, pattern, index, lane)?;
        index += 1;
    }
    Ok(())
}
