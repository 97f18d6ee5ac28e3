//! Days, in JSON.
ghost use Rattle.office_http_responses.specs.RegisterTrees.{day_tree};
ghost use Rattle.office_http_responses.specs.Writing.{AddsTree};

use cabinet_core::{Date, write_date};
use json::Writer;
use std::alloc::{AllocError, Global};

/// Writes a date as a text, `YYYY-MM-DD`.
pub(crate) fn date_in_json(alloc: Global, to: &mut Writer, date: Date) -> Result<(), AllocError>
    ensures { AddsTree result to.old to.new (day_tree date) }
{
    let text = write_date(alloc, date)?;
    to.string(text.as_str())
}
