//! Replies, in JSON.
ghost use Rattle.std.specs.Prelude.{◌≡◌};
ghost use Rattle.office_http_responses.specs.Trees.{tree_of, csv_tree_of, tree_in, refusal_tree, state_tree, timing_tree, draft_tree, verdict_name};
ghost use Rattle.office_http_responses.specs.Json.{or_null, text};
ghost use Rattle.office_http_responses.specs.RegisterTrees.{overdue_tree};
ghost use Rattle.office_http_responses.specs.Writing.{AddsTree, scalar_tree};

use crate::cabinet::write_cabinet;
use crate::csv_text::{write_cabinet_csv, write_timing_csv};
use crate::lists::write_rows;
use crate::writing::Scalar::{Null, Number, Text};
use crate::writing::{Scalar, array, object, object_of_array};
use draft_core::refusal::DraftRefusal;
use draft_core::state::Verdict;
use json::Writer;
use office_http_requests::Form;
use office_machine::refusal::Refusal;
use office_machine::reply::{
    IntersectionState, OpenDraft, OverdueList, Reply, RunningTiming, state_name,
};
use std::alloc::{AllocError, Global};

// The name of a verdict, as the verify status has it (NTCIP 1201, `dbVerifyStatus`).
fn verdict_word(verdict: Verdict) -> &'static str
    ensures { result.now ≡ verdict_name verdict }
{
    match verdict {
        Verdict::NotDone => "notDone",
        Verdict::DoneWithError => "doneWithError",
        Verdict::DoneWithNoError => "doneWithNoError",
    }
}

fn write_refusal(alloc: Global, to: &mut Writer, refusal: Refusal) -> Result<(), AllocError>
    ensures { AddsTree result to.old to.new (refusal_tree refusal) }
{
    let error = Text(refusal.name());
    let number = Number(u64::from(refusal.number()));
    match refusal {
        Refusal::Draft(DraftRefusal::VerifyFailed(count)) => object(
            alloc,
            to,
            &[
                ("count", Number(count as u64)),
                ("error", error),
                ("number", number),
            ],
        ),
        Refusal::ImportRow { at, cause } => object(
            alloc,
            to,
            &[
                ("cause", Number(u64::from(cause))),
                ("error", error),
                ("number", number),
                ("record", Number(at as u64)),
            ],
        ),
        _ => object(alloc, to, &[("error", error), ("number", number)]),
    }
}

// Who holds the intersection's draft, or null where nobody does.
fn owner_of(shown: &IntersectionState) -> Scalar<'_>
    ensures { scalar_tree result ≡ or_null text shown.now.owner }
{
    match &shown.owner {
        Some(clerk) => Text(clerk.as_str()),
        None => Null,
    }
}

fn write_state(alloc: Global, to: &mut Writer, shown: &IntersectionState) -> Result<(), AllocError>
    ensures { AddsTree result to.old to.new (state_tree shown.now) }
{
    object(
        alloc,
        to,
        &[
            ("id", Number(u64::from(shown.id.get()))),
            ("interval", Number(u64::from(shown.interval.get()))),
            ("name", Text(shown.name.as_str())),
            ("owner", owner_of(shown)),
            ("revision", Number(u64::from(shown.revision.get()))),
            ("rows", Number(shown.rows as u64)),
            ("state", Text(state_name(shown.state))),
            ("verify", Text(verdict_word(shown.verify))),
        ],
    )
}

fn write_timing(alloc: Global, to: &mut Writer, shown: &RunningTiming) -> Result<(), AllocError>
    ensures { AddsTree result to.old to.new (timing_tree shown.now) }
{
    to.begin_object()?;
    to.key("revision")?;
    to.u64(u64::from(shown.revision.get()))?;
    to.key("rows")?;
    write_rows(alloc, to, &shown.rows)?;
    to.end_object()?;
    Ok(())
}

fn write_draft(alloc: Global, to: &mut Writer, shown: &OpenDraft) -> Result<(), AllocError>
    ensures { AddsTree result to.old to.new (draft_tree shown.now) }
{
    to.begin_object()?;
    to.key("owner")?;
    to.string(shown.owner.as_str())?;
    to.key("rows")?;
    write_rows(alloc, to, &shown.rows)?;
    to.key("violations")?;
    array(alloc, to, shown.violations.as_slice())?;
    to.end_object()?;
    Ok(())
}

fn write_overdue(alloc: Global, to: &mut Writer, rows: &OverdueList) -> Result<(), AllocError>
    ensures { AddsTree result to.old to.new (overdue_tree rows.now) }
{
    object_of_array(alloc, to, "overdue", rows.as_slice())
}

// Writes a reply in JSON.
fn write_reply(alloc: Global, to: &mut Writer, reply: &Reply) -> Result<(), AllocError>
    ensures { AddsTree result to.old to.new (tree_of reply.now) }
{
    match reply {
        Reply::Added => object(alloc, to, &[("result", Text("added"))]),
        Reply::Same => object(alloc, to, &[("result", Text("same"))]),
        Reply::Moved {
            revision,
            state,
            verdict,
        } => object(
            alloc,
            to,
            &[
                ("revision", Number(u64::from(revision.get()))),
                ("state", Text(state_name(*state))),
                ("verify", Text(verdict_word(*verdict))),
            ],
        ),
        Reply::Imported { added, same } => object(
            alloc,
            to,
            &[
                ("added", Number(*added as u64)),
                ("same", Number(*same as u64)),
            ],
        ),
        Reply::State(shown) => write_state(alloc, to, shown),
        Reply::Timing(shown) => write_timing(alloc, to, shown),
        Reply::Draft(shown) => write_draft(alloc, to, shown),
        Reply::Cabinet(shown) => write_cabinet(alloc, to, &shown.view),
        Reply::OpenOrders(numbers) => object_of_array(alloc, to, "open", numbers.as_slice()),
        Reply::Stock(parts) => object_of_array(alloc, to, "hand", parts.as_slice()),
        Reply::Overdue(rows) => write_overdue(alloc, to, rows),
        Reply::Refused(refusal) => write_refusal(alloc, to, *refusal),
    }
}

// Writes what the query Timing or the query Cabinet shows in CSV, and any other reply in JSON.
fn write_in_csv(alloc: Global, to: &mut Writer, reply: &Reply) -> Result<(), AllocError>
    ensures { AddsTree result to.old to.new (csv_tree_of reply.now) }
{
    match reply {
        Reply::Timing(shown) => write_timing_csv(alloc, to, &shown.rows),
        Reply::Cabinet(shown) => write_cabinet_csv(alloc, to, shown.id, &shown.view),
        _ => write_reply(alloc, to, reply),
    }
}

/// Writes a reply in a form; one that has no CSV form is in JSON.
pub(crate) fn write_in_form(
    alloc: Global,
    to: &mut Writer,
    reply: &Reply,
    form: Form,
) -> Result<(), AllocError>
    ensures { AddsTree result to.old to.new (tree_in form reply.now) }
{
    match form {
        Form::Json => write_reply(alloc, to, reply),
        Form::Csv => write_in_csv(alloc, to, reply),
    }
}
