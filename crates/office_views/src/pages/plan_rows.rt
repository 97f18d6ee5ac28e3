//! The rows of a timing set as rows of tables.

use super::cell::{Cell, DASH, in_tenths};
use super::splits::{coordinated_in, need_cells};
use super::table::Column;
use signal_records::{Pattern, PatternNo, Ped, Phase, PhaseNo, Row, SplitMode, TimingSet};
use std::alloc::{AllocError, Global};

/// The name and the columns of each table, in their order. The number of a kind of rows is the
/// place of its table.
pub(crate) const TABLES: [(&str, &[Column]); 4] = [
    ("Patterns", &PATTERN_COLUMNS),
    ("Sequences", &SEQUENCE_COLUMNS),
    ("Splits", &SPLIT_COLUMNS),
    ("Phases", &PHASE_COLUMNS),
];

pub(crate) fn kind_of_row(row: &Row) -> usize {
    match row {
        Row::Pattern(_, _) => 0,
        Row::Seq(_, _, _) => 1,
        Row::Split(_, _, _) => 2,
        Row::Phase(_, _) => 3,
    }
}

const PATTERN_COLUMNS: [Column; 6] = [
    Column::Numbers("Pattern"),
    Column::Numbers("Cycle (s)"),
    Column::Numbers("Offset (s)"),
    Column::Numbers("Split"),
    Column::Numbers("Sequence"),
    Column::Words("Coordinated phases"),
];

const SEQUENCE_COLUMNS: [Column; 3] = [
    Column::Numbers("Sequence"),
    Column::Numbers("Ring"),
    Column::Words("Phases in turn"),
];

const SPLIT_COLUMNS: [Column; 9] = [
    Column::Numbers("Split"),
    Column::Numbers("Phase"),
    Column::Numbers("Time (s)"),
    Column::Numbers("Need (s)"),
    Column::Numbers("Spare (s)"),
    Column::Numbers("Need if the walk is called (s)"),
    Column::Words("Governed by"),
    Column::Words("Mode"),
    Column::Words("Coordinated"),
];

const PHASE_COLUMNS: [Column; 14] = [
    Column::Numbers("Phase"),
    Column::Numbers("Ring"),
    Column::Numbers("Min green (s)"),
    Column::Numbers("Passage (s)"),
    Column::Numbers("Max green (s)"),
    Column::Numbers("Yellow (s)"),
    Column::Numbers("Red (s)"),
    Column::Numbers("Walk (s)"),
    Column::Numbers("Pedestrian clearance (s)"),
    Column::Numbers("Crossing (ft)"),
    Column::Numbers("Setback (ft)"),
    Column::Words("Short walk"),
    Column::Numbers("Lead (s)"),
    Column::Words("Concurrent phases"),
];

fn pattern_cells(set: &TimingSet, n: PatternNo, pattern: &Pattern) -> [Cell<'static>; 6] {
    [
        Cell::Head(n.get()),
        Cell::Number(u64::from(pattern.cycle.get())),
        Cell::Number(u64::from(pattern.offset)),
        Cell::Number(u64::from(pattern.split.get())),
        Cell::Number(u64::from(pattern.seq.get())),
        Cell::PhaseSet(coordinated_in(set, pattern.split)),
    ]
}

fn mode_words(mode: SplitMode) -> &'static str {
    match mode {
        SplitMode::NoRecall => "none",
        SplitMode::MinimumVehicleRecall => "minimum vehicle recall",
        SplitMode::MaximumVehicleRecall => "maximum vehicle recall",
        SplitMode::PedestrianRecall => "pedestrian recall",
        SplitMode::MaximumVehicleAndPedestrianRecall => "maximum vehicle and pedestrian recall",
        SplitMode::PhaseOmitted => "phase omitted",
    }
}

fn flag(set: bool) -> Cell<'static> {
    Cell::Words(if set { "yes" } else { "no" })
}

/// The first cells of a phase; those of its pedestrian part follow.
fn phase_cells(p: PhaseNo, phase: &Phase) -> [Cell<'static>; 7] {
    [
        Cell::Head(p.get()),
        Cell::Number(u64::from(phase.ring.get())),
        Cell::Number(u64::from(phase.min_green)),
        in_tenths(u32::from(phase.passage)),
        Cell::Number(u64::from(phase.max1)),
        in_tenths(u32::from(phase.yellow)),
        in_tenths(u32::from(phase.red)),
    ]
}

/// The cells of a phase's pedestrian part, or a dash in each if there is none.
fn ped_cells(ped: &Option<Ped>) -> [Cell<'static>; 6] {
    match ped {
        None => [DASH, DASH, DASH, DASH, Cell::Words("-"), DASH],
        Some(ped) => [
            Cell::Number(u64::from(ped.walk)),
            Cell::Number(u64::from(ped.clear)),
            in_tenths(ped.width.get()),
            in_tenths(ped.setback.get()),
            flag(ped.short),
            Cell::Number(u64::from(ped.lead.get())),
        ],
    }
}

/// The cells of a row of the set, in the order of its table's columns.
pub(crate) fn cells_of<'a>(
    alloc: Global,
    set: &TimingSet,
    row: &'a Row,
) -> Result<Vec<Cell<'a>>, AllocError> {
    let mut cells = Vec::new(alloc);
    match row {
        Row::Phase(p, phase) => {
            cells.extend_from_slice(&phase_cells(*p, phase))?;
            cells.extend_from_slice(&ped_cells(&phase.ped))?;
            cells.extend_from_slice(&[Cell::Phases(phase.mates.as_slice())])?;
        }
        Row::Seq(n, ring, seq) => cells.extend_from_slice(&[
            Cell::Head(n.get()),
            Cell::Head(ring.get()),
            Cell::Phases(seq.list.as_slice()),
        ])?,
        Row::Split(n, p, split) => {
            let time = Cell::Number(u64::from(split.time));
            let mode = Cell::Words(mode_words(split.mode));
            cells.extend_from_slice(&[Cell::Head(n.get()), Cell::Head(p.get()), time])?;
            cells.extend_from_slice(&need_cells(set, *p, split))?;
            cells.extend_from_slice(&[mode, flag(split.coord)])?;
        }
        Row::Pattern(n, pattern) => cells.extend_from_slice(&pattern_cells(set, *n, pattern))?,
    }
    Ok(cells)
}
