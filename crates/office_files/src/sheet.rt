//! The timing sheet of an intersection.

ghost use Rattle.std.specs.Prelude.{◌≡◌, ◌++◌, OnOk, IfOk, string_bytes};
ghost use Rattle.std.specs.FinMap as finmap;
ghost use Rattle.office_files.specs.Sheet.{interval_columns, ped_columns, phases_section, sequences_section, splits_section, patterns_section, sections, title, phase_line, sequence_line, split_line, pattern_line, sheet_text};

use crate::cells::{push_flag, push_number, push_numbers, push_tenths};
use signal_records::revision::Revision;
use signal_records::{InterId, NoMemory, Ped, Phase, PhaseNo, Row, TimingSet, Words, mode_code};
use std::alloc::Global;
use std::fmt::Write;

/// Appends the six columns of a pedestrian part, or a dash in each if the phase has none.
fn push_ped(text: &mut String, ped: &Option<Ped>) -> Result<(), NoMemory>
    ensures { OnOk result (string_bytes text.new ≡ string_bytes text.old ++ ped_columns ped.now) }
{
    let Some(ped) = ped else {
        return text.push_str("     -     -     -     -     -     -");
    };
    push_number(text, u32::from(ped.walk))?;
    push_number(text, u32::from(ped.clear))?;
    push_tenths(text, ped.width.get())?;
    push_tenths(text, ped.setback.get())?;
    push_flag(text, ped.short)?;
    push_number(text, ped.lead.get())
}

/// Appends the columns of a phase before its pedestrian part's. Tenths have a point.
fn push_intervals(text: &mut String, p: PhaseNo, phase: &Phase) -> Result<(), NoMemory>
    ensures { OnOk result (string_bytes text.new ≡ string_bytes text.old
        ++ interval_columns p phase.now) }
{
    push_number(text, p.get())?;
    push_number(text, phase.ring.get())?;
    push_number(text, u32::from(phase.min_green))?;
    push_tenths(text, u32::from(phase.passage))?;
    push_number(text, u32::from(phase.max1))?;
    push_tenths(text, u32::from(phase.yellow))?;
    push_tenths(text, u32::from(phase.red))
}

/// Appends the line of a phase, and nothing for a row of another kind.
fn push_phase(text: &mut String, row: &Row) -> Result<(), NoMemory>
    ensures { OnOk result (string_bytes text.new ≡ string_bytes text.old ++ phase_line row.now) }
{
    let Row::Phase(p, phase) = row else {
        return Ok(());
    };
    push_intervals(text, *p, phase)?;
    push_ped(text, &phase.ped)?;
    push_numbers(text, phase.mates.as_slice())?;
    text.push_str("\n")
}

/// Appends the line of a sequence and ring, and nothing for a row of another kind.
fn push_sequence(text: &mut String, row: &Row) -> Result<(), NoMemory>
    ensures { OnOk result (string_bytes text.new ≡ string_bytes text.old ++ sequence_line row.now) }
{
    let Row::Seq(n, ring, seq) = row else {
        return Ok(());
    };
    push_number(text, n.get())?;
    push_number(text, ring.get())?;
    push_numbers(text, seq.list.as_slice())?;
    text.push_str("\n")
}

/// Appends the line of a split and phase, and nothing for a row of another kind.
fn push_split(text: &mut String, row: &Row) -> Result<(), NoMemory>
    ensures { OnOk result (string_bytes text.new ≡ string_bytes text.old ++ split_line row.now) }
{
    let Row::Split(n, p, split) = row else {
        return Ok(());
    };
    push_number(text, n.get())?;
    push_number(text, p.get())?;
    push_number(text, u32::from(split.time))?;
    push_number(text, mode_code(split.mode))?;
    push_flag(text, split.coord)?;
    text.push_str("\n")
}

/// Appends the line of a pattern, and nothing for a row of another kind.
fn push_pattern(text: &mut String, row: &Row) -> Result<(), NoMemory>
    ensures { OnOk result (string_bytes text.new ≡ string_bytes text.old ++ pattern_line row.now) }
{
    let Row::Pattern(n, pattern) = row else {
        return Ok(());
    };
    push_number(text, n.get())?;
    push_number(text, pattern.cycle.get())?;
    push_number(text, u32::from(pattern.offset))?;
    push_number(text, pattern.split.get())?;
    push_number(text, pattern.seq.get())?;
    text.push_str("\n")
}

fn push_phases(text: &mut String, rows: &[Row]) -> Result<(), NoMemory>
    ensures { OnOk result (string_bytes text.new ≡ string_bytes text.old
        ++ phases_section rows.now) }
{
    text.push_str(
        "Phases\n    No  Ring   Min  Pass   Max   Yel   Red  Walk Clear Width Setbk Short  \
         Lead Mates\n",
    )?;
    for row in rows {
        push_phase(text, row)?;
    }
    Ok(())
}

fn push_sequences(text: &mut String, rows: &[Row]) -> Result<(), NoMemory>
    ensures { OnOk result (string_bytes text.new ≡ string_bytes text.old
        ++ sequences_section rows.now) }
{
    text.push_str("Sequences\n    No  Ring Phases\n")?;
    for row in rows {
        push_sequence(text, row)?;
    }
    Ok(())
}

fn push_splits(text: &mut String, rows: &[Row]) -> Result<(), NoMemory>
    ensures { OnOk result (string_bytes text.new ≡ string_bytes text.old
        ++ splits_section rows.now) }
{
    text.push_str("Splits\n    No Phase  Time  Mode Coord\n")?;
    for row in rows {
        push_split(text, row)?;
    }
    Ok(())
}

fn push_patterns(text: &mut String, rows: &[Row]) -> Result<(), NoMemory>
    ensures { OnOk result (string_bytes text.new ≡ string_bytes text.old
        ++ patterns_section rows.now) }
{
    text.push_str("Patterns\n    No Cycle  Offs Split   Seq\n")?;
    for row in rows {
        push_pattern(text, row)?;
    }
    Ok(())
}

/// Appends the four sections of a sheet: phases, sequences, splits and patterns.
fn push_sections(text: &mut String, rows: &[Row]) -> Result<(), NoMemory>
    ensures { OnOk result (string_bytes text.new ≡ string_bytes text.old ++ sections rows.now) }
{
    push_phases(text, rows)?;
    push_sequences(text, rows)?;
    push_splits(text, rows)?;
    push_patterns(text, rows)
}

/// Appends the two lines at the top of a sheet: the intersection's number and name, the revision.
fn push_title(
    text: &mut String,
    id: InterId,
    name: &Words<120>,
    revision: Revision,
) -> Result<(), NoMemory>
    ensures { OnOk result (string_bytes text.new ≡ string_bytes text.old
        ++ title id name.now revision) }
{
    let id = id.get();
    let name = name.as_str();
    let revision = revision.get();
    write!(text, "Intersection {id}: {name}\nRevision {revision}\n")
}

/// The timing sheet of an intersection, in UTF-8: its number, name and revision, and then its
/// phases, sequences, splits and patterns, a line for each row in key order. A number is
/// right-aligned in six places, tenths with a point, and each number of a list follows a space. A
/// phase without a pedestrian part has a dash in each of its six columns, and an empty list is a
/// dash.
pub fn timing_sheet(
    alloc: Global,
    id: InterId,
    name: &Words<120>,
    revision: Revision,
    set: &TimingSet,
) -> Result<Vec<u8>, NoMemory>
    ensures { IfOk result (λ text.
        text.items ≡ sheet_text id name.now revision (finmap.values set.now)) }
{
    let rows = set.rows(alloc)?;
    let mut text = String::new(alloc);
    push_title(&mut text, id, name, revision)?;
    push_sections(&mut text, &rows)?;
    Ok(text.into_bytes())
}
