//! CSV texts, each under the one key of a JSON object.
ghost use Rattle.std.specs.Prelude.{IsUtf8};
ghost use Rattle.office_files.specs.Records.{records_csv_text};
ghost use Rattle.office_files.specs.Timing.{timing_csv_text};
ghost use Rattle.office_http_responses.specs.Trees.{csv_tree};
ghost use Rattle.office_http_responses.specs.Writing.{AddsTree};

use crate::writing::Scalar::Text;
use crate::writing::object;
use cabinet_core::CabinetView;
use json::Writer;
use office_files::{records_csv, timing_csv};
use signal_records::{InterId, TimingSet};
use std::alloc::{AllocError, Global};
use std::str;

// A CSV text, under the one key of an object.
fn write_csv(alloc: Global, to: &mut Writer, csv: &[u8]) -> Result<(), AllocError>
    requires { IsUtf8 csv.now }
    ensures { AddsTree result to.old to.new (csv_tree csv.now) }
{
    let Ok(csv) = str::from_utf8(csv) else {
        unreachable!();
    };
    object(alloc, to, &[("csv", Text(csv))])
}

/// Writes the rows of a timing set, in the order of their keys, as a CSV text under the key `csv`.
pub(crate) fn write_timing_csv(
    alloc: Global,
    to: &mut Writer,
    set: &TimingSet,
) -> Result<(), AllocError>
    ensures { AddsTree result to.old to.new (csv_tree (timing_csv_text set.now)) }
{
    let csv = timing_csv(alloc, set)?;
    write_csv(alloc, to, csv.as_slice())
}

/// Writes the records that make the cabinet of an intersection, as a CSV text under the key `csv`.
pub(crate) fn write_cabinet_csv(
    alloc: Global,
    to: &mut Writer,
    id: InterId,
    shown: &CabinetView,
) -> Result<(), AllocError>
    ensures { AddsTree result to.old to.new (csv_tree (records_csv_text id shown.now)) }
{
    let csv = records_csv(alloc, id, shown)?;
    write_csv(alloc, to, csv.as_slice())
}
