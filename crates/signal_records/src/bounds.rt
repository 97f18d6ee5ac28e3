//! What the types of the records guarantee to callers: every row and change is within today's
//! limits, so that what is written of it is read back.

ghost use Rattle.std.specs.Prelude.{◌≡◌, ◌≤◌, ◌↔◌, IsTrue};
ghost use Rattle.std.specs.Int.{IsInRange};
ghost use Rattle.signal_records.specs.PhaseList.{is_phase_list};
ghost use Rattle.signal_records.specs.Within.{current_limits, version_1_limits, IsAnyPedWithin, IsPhaseWithin, IsSplitWithin, IsPatternWithin, IsRowWithin, IsKeyWithin, IsChangeWithin};

use crate::key::Key;
use crate::limits::VERSION_1_LIMITS;
use crate::record::{Change, Pattern, Ped, Phase, Row, SeqRow, Split};
use signal_values::{PatternNo, PhaseNo, RingNo, SeqNo, SplitNo};

/// Shows that every row is within today's limits, as its types say; it does nothing else.
pub fn row_is_within(row: &Row)
    ensures { IsRowWithin current_limits row.now }
{
    match row {
        Row::Phase(p, phase) => phase_is_within(*p, phase),
        Row::Seq(n, ring, row) => seq_is_within(*n, *ring, row),
        Row::Split(n, p, split) => split_is_within(*n, *p, *split),
        Row::Pattern(n, pattern) => pattern_is_within(*n, *pattern),
    }
}

/// Shows that every key is within today's limits, as its types say; it does nothing else.
pub fn key_is_within(_key: Key)
    ensures { IsKeyWithin current_limits _key }
{}

/// Whether version 1 had the key: phases go to 16 there, and rings to 4.
pub fn is_key_v1(key: &Key) -> bool
    ensures { IsTrue result ↔ IsKeyWithin version_1_limits key.now }
{
    let key = *key;
    match key {
        Key::Phase(p) => p.get() <= VERSION_1_LIMITS.phases,
        Key::Seq(_, ring) => ring.get() <= VERSION_1_LIMITS.rings,
        Key::Split(_, p) => p.get() <= VERSION_1_LIMITS.phases,
        Key::Pattern(n) => {
            let _number = n.get();
            true
        }
    }
}

/// Shows that every change is within today's limits, as its types say; it does nothing else.
pub fn change_is_within(change: &Change)
    ensures { IsChangeWithin current_limits change.now }
{
    match change {
        Change::Put(row) => row_is_within(row),
        Change::Remove(key) => key_is_within(*key),
    }
}

fn phase_is_within(p: PhaseNo, phase: &Phase)
    ensures { IsPhaseWithin current_limits p phase.now }
{
    let _place = (p.get(), phase.ring.get());
    let _greens = (byte(phase.min_green), byte(phase.passage), byte(phase.max1));
    let _clearance = (byte(phase.yellow), byte(phase.red));
    let _mates = phase.mates.as_slice();
    ped_is_within(&phase.ped);
}

fn byte(n: u8) -> u8
    ensures same { result ≡ n }
    ensures small { n ≤ 255 }
{
    n
}

fn ped_is_within(ped: &Option<Ped>)
    ensures { IsAnyPedWithin current_limits.has_lead ped.now }
{
    if let Some(ped) = ped {
        let _crossing = (
            byte(ped.walk),
            byte(ped.clear),
            ped.width.get(),
            ped.setback.get(),
            ped.lead.get(),
        );
    }
}

fn seq_is_within(n: SeqNo, ring: RingNo, row: &SeqRow)
    ensures number { IsInRange 1 20 n }
    ensures ring { IsInRange 1 current_limits.rings ring }
    ensures list { IsTrue (is_phase_list current_limits.phases row.now.list) }
{
    let _place = (n.get(), ring.get());
    let _list = row.list.as_slice();
}

fn split_is_within(n: SplitNo, p: PhaseNo, split: Split)
    ensures { IsSplitWithin current_limits n p split }
{
    let _place = (n.get(), p.get());
    let _time = split.time;
}

fn pattern_is_within(n: PatternNo, pattern: Pattern)
    ensures { IsPatternWithin n pattern }
{
    let _place = (n.get(), pattern.cycle.get());
    let _offset = pattern.offset;
    let _rows = (pattern.split.get(), pattern.seq.get());
}
