//! The subjects that a timing set has, from its rows.

ghost use Rattle.std.specs.Prelude.{◌≡◌, ◌++◌, true, OnOk, IfOk, map};
ghost use Rattle.std.specs.List.{flat_map, list_all};
ghost use Rattle.signal_rules.specs.RowWalk.{subject_of, of_kind, sequences_after, is_within};
ghost use Rattle.signal_rules.specs.Violations.{subjects};

use crate::violation::Subject;
use signal_records::{NoMemory, Row, TimingSet};
use std::alloc::Global;

/// The subjects of a set: its phases, its sequences that have a row, its split rows and its
/// patterns, each by ascending number.
pub fn subjects_of(alloc: Global, set: &TimingSet) -> Result<Vec<Subject>, NoMemory>
    ensures { IfOk result (λ found. found.items ≡ subjects set.now) }
{
    let rows = set.rows(alloc)?;
    read_numbers(&rows);
    let mut subjects = Vec::new(alloc);
    add_kind(&rows, 1, &mut subjects)?;
    add_sequences(&rows, &mut subjects)?;
    add_kind(&rows, 3, &mut subjects)?;
    add_kind(&rows, 4, &mut subjects)?;
    Ok(subjects)
}

/// Reads the numbers in the keys of rows, so that a proof knows their ranges.
fn read_numbers(rows: &[Row])
    ensures { list_all is_within rows.now ≡ true }
{
    for row in rows {
        read_number(row);
    }
}

fn read_number(row: &Row)
    ensures { is_within row.now ≡ true }
{
    match row {
        Row::Phase(p, _) => {
            let _phase = p.get();
        }
        Row::Seq(n, ring, _) => {
            let _sequence = n.get();
            let _ring = ring.get();
        }
        Row::Split(n, p, _) => {
            let _split = n.get();
            let _phase = p.get();
        }
        Row::Pattern(n, _) => {
            let _pattern = n.get();
        }
    }
}

/// Adds the subject of each row of a kind: 1 for phases, 3 for split rows, 4 for patterns.
fn add_kind(rows: &[Row], kind: u32, subjects: &mut Vec<Subject>) -> Result<(), NoMemory>
    ensures { OnOk result (subjects.new.items
        ≡ subjects.old.items ++ flat_map (of_kind kind) rows.now) }
{
    for row in rows {
        if row.key().kind() == kind {
            subjects.push(subject_of(row))?;
        }
    }
    Ok(())
}

/// The subject to which a row belongs: for a sequence row its sequence, for any other the row
/// itself.
pub fn subject_of(row: &Row) -> Subject
    ensures { result ≡ subject_of row.now }
{
    match row {
        Row::Phase(p, _) => Subject::Phase(*p),
        Row::Seq(n, _, _) => Subject::Seq(*n),
        Row::Split(n, p, _) => Subject::Split(*n, *p),
        Row::Pattern(n, _) => Subject::Pattern(*n),
    }
}

/// Adds each sequence that has a row, once. Rows are in the order of their keys, so that the rows
/// of a sequence follow each other.
fn add_sequences(rows: &[Row], subjects: &mut Vec<Subject>) -> Result<(), NoMemory>
    ensures { OnOk result (subjects.new.items ≡ subjects.old.items
        ++ map (λ n. Subject.Seq n) (sequences_after 0 rows.now)) }
{
    let mut last = 0;
    for row in rows {
        match row {
            Row::Seq(n, _, _) if n.get() != last => {
                subjects.push(Subject::Seq(*n))?;
                last = n.get();
            }
            _ => {}
        }
    }
    Ok(())
}
