//! The lines over the lanes of a picture, and the scale below them.

ghost use Rattle.std.specs.Prelude.{◌≡◌, ◌==◌, ◌≤◌, IfOk, length};
ghost use Rattle.std.specs.List.{list_any, list_all};
ghost use Rattle.signal_rules.specs.Lanes.{list_each_other};
ghost use Rattle.signal_diagram.specs.Chart.{changes, all_change, has_line, behind, conflicts_with_lane, conflicts_with_all, lane_conflicts, is_barrier};
ghost use Rattle.signal_diagram.specs.Shapes.{line_shapes, tick_shapes};

use crate::chart::{Bar, Lane};
use crate::shapes::Shape;
use signal_records::{PhaseNo, TimingSet};
use signal_rules::lists;
use std::alloc::{AllocError, Global};

fn ends_at(second: u16, bars: &[Bar]) -> bool
    ensures { result ≡ list_any (λ bar. bar.to == second) bars.now }
{
    bars.iter().any(|bar| bar.to == second)
}

fn begins_at(second: u16, bars: &[Bar]) -> bool
    ensures { result ≡ list_any (λ bar. bar.from == second) bars.now }
{
    bars.iter().any(|bar| bar.from == second)
}

/// Whether a ring changes phase: one of its phases ends at second `ends`, and one begins at second
/// `begins`.
fn changes(ends: u16, begins: u16, lane: &Lane) -> bool
    ensures { result ≡ changes ends begins lane.now }
{
    ends_at(ends, lane.bars.as_slice()) && begins_at(begins, lane.bars.as_slice())
}

fn each_changes(ends: u16, begins: u16, lanes: &[Lane]) -> bool
    ensures { result ≡ list_all (changes ends begins) lanes.now }
{
    lanes.iter().all(|lane| changes(ends, begins, lane))
}

/// Whether each ring has a phase that ends at second `ends`, and one that begins at second
/// `begins`; without a ring nothing changes.
fn all_change(ends: u16, begins: u16, lanes: &[Lane]) -> bool
    ensures { result ≡ all_change ends begins lanes.now }
{
    0 < lanes.len() && each_changes(ends, begins, lanes)
}

/// Whether there is a line at a second: at the end of the cycle, and where all rings change phase.
fn has_line(cycle: u16, lanes: &[Lane], second: u16) -> bool
    ensures { result ≡ has_line cycle lanes.now second }
{
    second == cycle || all_change(second, second, lanes)
}

/// The second at which the phases after a line begin: 0 after the end of the cycle, where the first
/// ones follow.
fn behind(cycle: u16, second: u16) -> u16
    ensures { result ≡ behind cycle second }
{
    if second == cycle { 0 } else { second }
}

/// Whether two phases list each other, and so may time together.
fn list_each_other(set: &TimingSet, p: PhaseNo, q: PhaseNo) -> bool
    ensures { result ≡ list_each_other set.now p q }
{
    lists(set, p, q) && lists(set, q, p)
}

/// Whether a phase may time together with no phase of a lane that begins at a second.
fn conflicts_with_lane(set: &TimingSet, begins: u16, p: PhaseNo, lane: &Lane) -> bool
    ensures { result ≡ conflicts_with_lane set.now begins p lane.now }
{
    lane.bars.iter().all(|bar| bar.from != begins || !list_each_other(set, p, bar.phase))
}

/// Whether a phase may time together with no phase of these lanes that begins at a second.
fn conflicts_with_all(set: &TimingSet, begins: u16, p: PhaseNo, lanes: &[Lane]) -> bool
    ensures { result ≡ conflicts_with_all set.now begins p lanes.now }
{
    lanes
        .iter()
        .all(|lane| conflicts_with_lane(set, begins, p, lane))
}

/// Whether no phase of a lane that ends at a second may time together with one that begins at
/// another.
fn lane_conflicts(set: &TimingSet, ends: u16, begins: u16, lanes: &[Lane], lane: &Lane) -> bool
    ensures { result ≡ lane_conflicts set.now ends begins lanes.now lane.now }
{
    lane.bars.iter().all(|bar| bar.to != ends || conflicts_with_all(set, begins, bar.phase, lanes))
}

fn all_conflict(set: &TimingSet, ends: u16, begins: u16, lanes: &[Lane]) -> bool
    ensures { result ≡ list_all (lane_conflicts set.now ends begins lanes.now) lanes.now }
{
    lanes
        .iter()
        .all(|lane| lane_conflicts(set, ends, begins, lanes, lane))
}

/// Whether the line at a second is a barrier: all rings change phase there, and no phase that ends
/// there may time together with one that begins there (at the end of the cycle: at second 0).
fn is_barrier(set: &TimingSet, cycle: u16, lanes: &[Lane], second: u16) -> bool
    ensures { result ≡ is_barrier set.now cycle lanes.now second }
{
    let begins = behind(cycle, second);
    all_change(second, begins, lanes) && all_conflict(set, second, begins, lanes)
}

/// A line at each second from 1 up to the cycle at which all rings change phase, and at the end of
/// the cycle, each with whether it is a barrier.
pub(crate) fn lines_of(
    alloc: Global,
    set: &TimingSet,
    cycle: u16,
    lanes: &[Lane],
) -> Result<Vec<Shape>, AllocError>
    requires few { length lanes.now ≤ 8 }
    requires small { cycle ≤ 255 }
    ensures { IfOk result (λ lines. lines.items ≡ line_shapes set.now cycle lanes.now) }
{
    let count = lanes.len() as u32;
    let at = |second: u16| {
        let barrier = is_barrier(set, cycle, lanes, second);
        Shape::Line(count, 10 * u32::from(second), barrier)
    };
    (1..cycle + 1)
        .filter(|second| has_line(cycle, lanes, *second))
        .map(at)
        .collect(alloc)
}

/// The ticks of a scale over so many seconds, one each 10 seconds.
pub(crate) fn ticks_of(alloc: Global, seconds: u16, lanes: u32) -> Result<Vec<Shape>, AllocError>
    ensures { IfOk result (λ ticks. ticks.items ≡ tick_shapes seconds lanes) }
{
    (0..seconds / 10 + 1)
        .map(|tens| Shape::Tick(lanes, 100 * u32::from(tens)))
        .collect(alloc)
}
