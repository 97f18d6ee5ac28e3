//! JSON objects and arrays, written a token at a time, with members in the order given.
ghost use Rattle.std.specs.Prelude.{◌≡◌, [], ◌∷◌, map, flat_map, option_map};
ghost use Rattle.office_http_responses.specs.Json.{keys, array_of, or_null, text as text_tree};
ghost use Rattle.office_http_responses.specs.RegisterTrees.{day_tree};
ghost use Rattle.office_http_responses.specs.Writing.{Adds, AddsTree, entry_of, member_tokens, scalar_tree, tokens_of};

use crate::day::date_in_json;
use cabinet_core::{Date, Day};
use json::Writer;
use signal_records::Words;
use std::alloc::{AllocError, Global};

/// A JSON value without parts.
#[derive(Drop)]
pub(crate) enum Scalar<'a> {
    Null,
    Number(u64),
    Text(&'a str),
    /// A day, or a date on which an inspection falls due, as the text `YYYY-MM-DD`.
    Day(Date),
}

/// A clerk as a text, or null where there is none.
pub(crate) fn clerk_or_null(clerk: Option<&Words<40>>) -> Scalar<'_>
    ensures { scalar_tree result ≡ or_null text_tree (option_map (λ clerk. clerk.now) clerk.entry) }
{
    match clerk {
        Some(clerk) => Scalar::Text(clerk.as_str()),
        None => Scalar::Null,
    }
}

/// A day as a text, or null where there is none.
pub(crate) fn day_or_null(day: Option<Day>) -> Scalar<'static>
    ensures { scalar_tree result ≡ or_null day_tree day }
{
    match day {
        Some(day) => Scalar::Day(day.date()),
        None => Scalar::Null,
    }
}

/// The day on which an inspection falls due, as a text, or null where there is none.
pub(crate) fn due_or_null(due: Option<Date>) -> Scalar<'static>
    ensures { scalar_tree result ≡ or_null day_tree due }
{
    match due {
        Some(due) => Scalar::Day(due),
        None => Scalar::Null,
    }
}

fn write_scalar(alloc: Global, to: &mut Writer, value: &Scalar<'_>) -> Result<(), AllocError>
    ensures { AddsTree result to.old to.new (scalar_tree value.now) }
{
    match value {
        Scalar::Null => to.null(),
        Scalar::Number(n) => to.u64(*n),
        Scalar::Text(text) => to.string(text),
        Scalar::Day(date) => date_in_json(alloc, to, *date),
    }
}

fn write_member(
    alloc: Global,
    to: &mut Writer,
    member: &(&str, Scalar<'_>),
) -> Result<(), AllocError>
    ensures { Adds result to.old to.new (member_tokens (entry_of member.now)) }
{
    to.key(member.0)?;
    write_scalar(alloc, to, &member.1)
}

/// Writes members of an object, by key and value, in the order given.
pub(crate) fn write_members(
    alloc: Global,
    to: &mut Writer,
    members: &[(&str, Scalar<'_>)],
) -> Result<(), AllocError>
    ensures { Adds result to.old to.new (flat_map member_tokens (map entry_of members.now)) }
{
    for member in members {
        write_member(alloc, to, member)?;
    }
    Ok(())
}

/// Writes an object of these members, whose values have no parts.
pub(crate) fn object(
    alloc: Global,
    to: &mut Writer,
    members: &[(&str, Scalar<'_>)],
) -> Result<(), AllocError>
    ensures { AddsTree result to.old to.new (keys (map entry_of members.now)) }
{
    to.begin_object()?;
    write_members(alloc, to, members)?;
    to.end_object()?;
    Ok(())
}

/// A value that is written as JSON.
pub(crate) trait WriteJson {
    ghost use Rattle.serde_json.specs.Data.{Data};
    ghost use Rattle.office_http_responses.specs.RegisterTrees.{day_tree};
    ghost use Rattle.office_http_responses.specs.Writing.{AddsTree};

    // The JSON tree of a value, which is written for it.
    ghost tree: { Self → Data };

    fn write_json(&self, alloc: Global, to: &mut Writer) -> Result<(), AllocError>
        ensures { AddsTree result to.old to.new (tree self.now) };
}

fn write_items<T: WriteJson>(alloc: Global, to: &mut Writer, items: &[T]) -> Result<(), AllocError>
    ensures { Adds result to.old to.new (flat_map tokens_of (map T.tree items.now)) }
{
    for item in items {
        item.write_json(alloc, to)?;
    }
    Ok(())
}

/// Writes an array of these items, in order.
pub(crate) fn array<T: WriteJson>(
    alloc: Global,
    to: &mut Writer,
    items: &[T],
) -> Result<(), AllocError>
    ensures { AddsTree result to.old to.new (array_of T.tree items.now) }
{
    to.begin_array()?;
    write_items(alloc, to, items)?;
    to.end_array()?;
    Ok(())
}

/// Writes an object with this one key, whose value is the array of the items.
pub(crate) fn object_of_array<T: WriteJson>(
    alloc: Global,
    to: &mut Writer,
    key: &str,
    items: &[T],
) -> Result<(), AllocError>
    ensures { AddsTree result to.old to.new (keys ((key.now, array_of T.tree items.now) ∷ [])) }
{
    to.begin_object()?;
    to.key(key)?;
    array(alloc, to, items)?;
    to.end_object()?;
    Ok(())
}
