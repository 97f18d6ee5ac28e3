//! Compares two timing sets, key by key.

ghost use Rattle.std.specs.Prelude.{◌≡◌, drop, IfOk, OnOk};
ghost use Rattle.signal_records.specs.TimingSet.{after_changes};
ghost use Rattle.signal_plans.specs.Difference.{AreTold, difference_changes};
ghost use Rattle.signal_plans.specs.Merging.{KeysAscend, AreDifferences, TellsChange, next_order};

use crate::difference::Difference;
use signal_records::{NoMemory, Row, TimingSet};
use std::alloc::Global;
use std::cmp::Ordering;

/// How the keys of the first rows of two lists compare. A list without a row comes last; if neither
/// has one, there is no answer.
fn next_order(first: &[Row], second: &[Row]) -> Option<Ordering>
    ensures { result ≡ next_order first.now second.now }
{
    match (first, second) {
        ([], []) => None,
        ([], [_, ..]) => Some(Ordering::Greater),
        ([_, ..], []) => Some(Ordering::Less),
        ([a, ..], [b, ..]) => Some(a.key().cmp(&b.key())),
    }
}

/// The rows after the first; none of an empty list.
fn after_first(rows: &[Row]) -> &[Row]
    ensures { result.now ≡ drop 1 rows.now }
{
    match rows {
        [] => rows,
        [_, rest @ ..] => rest,
    }
}

/// Appends the difference of two rows of the same key, if they differ.
fn push_changed(
    differences: &mut Vec<Difference>,
    before: &Row,
    after: &Row,
) -> Result<(), NoMemory>
    ensures { OnOk result
        (TellsChange before.now after.now differences.old.items differences.new.items) }
{
    if before != after {
        differences.push(Difference::Changed {
            before: before.clone()?,
            after: after.clone()?,
        })?;
    }
    Ok(())
}

/// The differences of two lists of rows, both lists and the result in the order of their keys.
fn differences_of(
    alloc: Global,
    mut first: &[Row],
    mut second: &[Row],
) -> Result<Vec<Difference>, NoMemory>
    requires first { KeysAscend first.now }
    requires second { KeysAscend second.now }
    ensures { IfOk result (λ differences. AreDifferences first.now second.now differences.items) }
{
    let mut differences = Vec::new(alloc);
    while let Some(order) = next_order(first, second) {
        match order {
            Ordering::Less => {
                differences.push(Difference::Removed(first[0].clone()?))?;
                first = after_first(first);
            }
            Ordering::Greater => {
                differences.push(Difference::Added(second[0].clone()?))?;
                second = after_first(second);
            }
            Ordering::Equal => {
                push_changed(&mut differences, &first[0], &second[0])?;
                first = after_first(first);
                second = after_first(second);
            }
        }
    }
    Ok(differences)
}

/// How the second set differs from the first: in the order of the keys, one difference for each key
/// at which the sets differ, with the rows that they have there. The changes of the differences
/// turn the first set into the second. It takes time in proportion to the rows of both.
pub fn compare(
    alloc: Global,
    first: &TimingSet,
    second: &TimingSet,
) -> Result<Vec<Difference>, NoMemory>
    ensures told { IfOk result (λ found. AreTold first.now second.now found.items) }
    ensures makes { IfOk result
        (λ found. after_changes first.now (difference_changes found.items) ≡ second.now) }
{
    let before = first.rows(alloc)?;
    let after = second.rows(alloc)?;
    differences_of(alloc, &before, &after)
}
