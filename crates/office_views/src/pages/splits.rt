//! What a plan says of its splits beyond their rows: needs, and the phases that are coordinated.

use super::cell::{Cell, DASH, EMPTY, PhaseSet, Tenths, in_tenths};
use signal_records::{PHASES, Phase, PhaseNo, Split, SplitMode, SplitNo, TimingSet, need};
use signal_rules::{
    NeedPart, SplitNeed, has_phase, is_coordinated, need_if_called, phase_at, split_at,
};

/// The part that governs a need, and by how much a split of so many tenths of a second is too short
/// for the need.
fn governs_cell(need: SplitNeed, time: u32) -> Cell<'static> {
    let part = match need.governs {
        NeedPart::Green => "green",
        NeedPart::Walk => "walk",
    };
    if time < need.tenths {
        Cell::Short(part, Tenths(i64::from(need.tenths - time)))
    } else {
        Cell::Words(part)
    }
}

/// The needs of a phase in a split of so many tenths of a second: what it needs, what the split has
/// to spare (below zero if the need is longer), what it needs if the walk is called, and the part
/// that governs that.
fn cells_of_needs(phase: &Phase, mode: SplitMode, time: u32) -> [Cell<'static>; 4] {
    let need = need(phase, mode);
    let spare = Cell::Tenths(Tenths(i64::from(time) - i64::from(need)));
    if phase.ped.is_none() {
        return [in_tenths(need), spare, DASH, Cell::Words("-")];
    }
    let called = need_if_called(phase);
    let governs = governs_cell(called, time);
    [in_tenths(need), spare, in_tenths(called.tenths), governs]
}

/// The needs of phase `p` in its split; empty if the mode omits the phase or the plan does not have
/// it.
pub(crate) fn need_cells(set: &TimingSet, p: PhaseNo, split: &Split) -> [Cell<'static>; 4] {
    let Split { time, mode, .. } = *split;
    match phase_at(set, p) {
        Some(phase) if mode != SplitMode::PhaseOmitted => {
            cells_of_needs(phase, mode, 10 * u32::from(time))
        }
        _ => [EMPTY, EMPTY, EMPTY, EMPTY],
    }
}

/// The phases of the set that split number `n` coordinates.
pub(crate) fn coordinated_in(set: &TimingSet, n: SplitNo) -> PhaseSet {
    let mut phases = [false; PHASES as usize + 1];
    for p in PhaseNo::all() {
        if has_phase(set, p) && is_coordinated(split_at(set, n, p)) {
            phases[p.get() as usize] = true;
        }
    }
    phases
}
