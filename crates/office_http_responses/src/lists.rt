//! The items of lists, in JSON: rows, broken rules, numbers, parts and overdue intersections.
ghost use Rattle.std.specs.Prelude.{map, string_bytes};
ghost use Rattle.office_http_responses.specs.Json.{array_of, text};
ghost use Rattle.office_http_responses.specs.Trees.{rows_tree};
ghost use Rattle.office_http_responses.specs.Writing.{AddsTree};

use crate::writing::Scalar::{Number, Text};
use crate::writing::{WriteJson, array, due_or_null, object};
use cabinet_core::{Hand, OverdueRow, PartCode};
use json::Writer;
use signal_records::{RecordNo, Row, TimingSet, write_row};
use signal_rules::Violation;
use std::alloc::{AllocError, Global};

impl WriteJson for String {
    ghost use Rattle.std.specs.Prelude.{string_bytes};
    ghost use Rattle.office_http_responses.specs.Json.{text};

    ghost tree = { λ bytes. text (string_bytes bytes) };

    fn write_json(&self, _alloc: Global, to: &mut Writer) -> Result<(), AllocError> {
        to.string(self.as_str())
    }
}

// Writes an array of these texts.
fn texts(alloc: Global, to: &mut Writer, texts: &[String]) -> Result<(), AllocError>
    ensures { AddsTree result to.old to.new (array_of text (map string_bytes texts.now)) }
{
    array(alloc, to, texts)
}

// A timing row, as the array of its fields, which are texts.
impl WriteJson for Row {
    ghost use Rattle.office_http_responses.specs.Trees.{row_tree};

    ghost tree = { row_tree };

    fn write_json(&self, alloc: Global, to: &mut Writer) -> Result<(), AllocError> {
        let fields = write_row(alloc, self)?;
        texts(alloc, to, fields.as_slice())
    }
}

/// Writes the rows of a timing set as an array, in the order of their keys.
pub(crate) fn write_rows(alloc: Global, to: &mut Writer, set: &TimingSet) -> Result<(), AllocError>
    ensures { AddsTree result to.old to.new (rows_tree set.now) }
{
    let rows = set.rows(alloc)?;
    array(alloc, to, rows.as_slice())
}

// A violation, as the rule and the subject that breaks it.
impl WriteJson for Violation {
    ghost use Rattle.office_http_responses.specs.Trees.{violation_tree};

    ghost tree = { violation_tree };

    fn write_json(&self, alloc: Global, to: &mut Writer) -> Result<(), AllocError> {
        let rule = self.rule;
        let subject = self.subject;
        let rule = format!(in alloc; "{rule}")?;
        let subject = format!(in alloc; "{subject}")?;
        to.begin_object()?;
        to.key("rule")?;
        to.string(rule.as_str())?;
        to.key("subject")?;
        to.string(subject.as_str())?;
        to.end_object()?;
        Ok(())
    }
}

impl WriteJson for RecordNo {
    ghost use Rattle.office_http_responses.specs.Json.{count};

    ghost tree = { count };

    fn write_json(&self, _alloc: Global, to: &mut Writer) -> Result<(), AllocError> {
        to.u64(u64::from(self.get()))
    }
}

// A part, by its code, and how many of it are on hand.
impl WriteJson for (PartCode, Hand) {
    ghost use Rattle.office_http_responses.specs.RegisterTrees.{hand_tree};

    ghost tree = { hand_tree };

    fn write_json(&self, alloc: Global, to: &mut Writer) -> Result<(), AllocError> {
        object(
            alloc,
            to,
            &[
                ("count", Number(u64::from(self.1.get()))),
                ("part", Text(self.0.as_str())),
            ],
        )
    }
}

// An intersection that is overdue, and the day on which its inspection fell due, or null if there
// never was one.
impl WriteJson for OverdueRow {
    ghost use Rattle.cabinet_core.specs.Overdue.{listed_of};
    ghost use Rattle.office_http_responses.specs.RegisterTrees.{listed_tree};

    ghost tree = { λ row. listed_tree (listed_of row) };

    fn write_json(&self, alloc: Global, to: &mut Writer) -> Result<(), AllocError> {
        object(
            alloc,
            to,
            &[
                ("due", due_or_null(self.due)),
                ("id", Number(u64::from(self.id.get()))),
                ("name", Text(self.name.as_str())),
            ],
        )
    }
}
