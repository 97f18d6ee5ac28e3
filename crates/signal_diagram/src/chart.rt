//! The chart of a pattern: which phase each ring has from which second of the cycle to which.

ghost use Rattle.std.specs.Prelude.{◌≡◌, ◌≤◌, IfOk, length};
ghost use Rattle.signal_rules.specs.SequenceRule.{ring_row};
ghost use Rattle.signal_rules.specs.Starts.{times};
ghost use Rattle.signal_diagram.specs.Chart.{bars_from, with_time, end_of, lanes_of, longest};

use signal_records::{NoMemory, Pattern, PhaseNo, RingNo, TimingSet};
use signal_rules::{ring_row, split_at, time_of, used_rings};
use std::alloc::Global;
use std::marker::Model;

/// A phase, from the second of the cycle at which it begins to the one at which it ends; a lane
/// that is too long has seconds past the cycle.
#[derive(Clone, Copy)]
pub(crate) struct Bar {
    pub phase: PhaseNo,
    pub from: u16,
    pub to: u16,
}

/// A ring with its phases, in the order in which they time.
#[derive(Drop)]
pub(crate) struct Lane {
    pub ring: RingNo,
    pub bars: Vec<Bar>,
}

impl Model for Lane {
    ghost use Rattle.signal_diagram.specs.Lane.{RingLane};

    ghost Value = { RingLane };

    ghost view = { λ lane. record { ring = lane.ring; bars = lane.bars.items } };
}

/// The phases that have time in the ring's row of the pattern's sequence, the first from second 0
/// on, each other phase from the end of the one before.
fn bars_of(
    alloc: Global,
    set: &TimingSet,
    pattern: &Pattern,
    ring: RingNo,
) -> Result<Vec<Bar>, NoMemory>
    ensures { let time = times set.now pattern.now.split in
        IfOk result (λ bars. bars.items
        ≡ bars_from time 0 (with_time time (ring_row set.now pattern.now.seq ring))) }
{
    let mut bars = Vec::new(alloc);
    let mut from: u16 = 0;
    for p in ring_row(set, pattern.seq, ring) {
        let time = time_of(split_at(set, pattern.split, *p)) as u16;
        if time != 0 {
            bars.push(Bar {
                phase: *p,
                from,
                to: from + time,
            })?;
        }
        from += time;
    }
    Ok(bars)
}

/// The lanes of the rings that have a phase, in their order: the phases of each ring's row in the
/// pattern's sequence, each as long as the pattern's split.
pub(crate) fn lanes_of(
    alloc: Global,
    set: &TimingSet,
    pattern: &Pattern,
) -> Result<Vec<Lane>, NoMemory>
    ensures lanes { IfOk result (λ lanes. lanes.items ≡ lanes_of set.now pattern.now) }
    ensures few { IfOk result (λ lanes. length lanes.items ≤ 8) }
{
    let rings = used_rings(alloc, set)?;
    let mut lanes = Vec::new(alloc);
    for ring in &rings {
        let bars = bars_of(alloc, set, pattern, *ring)?;
        lanes.push(Lane { ring: *ring, bars })?;
    }
    Ok(lanes)
}

/// The second at which the last phase of a lane ends; 0 if it has no phase.
fn end_of(lane: &Lane) -> u16
    ensures { result ≡ end_of 0 lane.now.bars }
{
    lane.bars.iter().fold(0, |_, bar| bar.to)
}

/// The greatest of a number of seconds and the seconds at which the lanes end.
pub(crate) fn longest(seconds: u16, lanes: &[Lane]) -> u16
    ensures { result ≡ longest seconds lanes.now }
{
    lanes
        .iter()
        .fold(seconds, |most, lane| most.max(end_of(lane)))
}
