//! A difference of two timing sets, and the change that makes it.

ghost use Rattle.std.specs.Prelude.{◌≡◌, IfOk};
ghost use Rattle.signal_plans.specs.Difference.{change_of, difference_changes};

use signal_records::{Change, NoMemory, Row};
use std::alloc::Global;

/// What two timing sets have under a key at which they differ.
#[derive(Drop)]
pub enum Difference {
    /// The row of the second set, where the first has none.
    Added(Row),
    /// The row of the first set, where the second has none.
    Removed(Row),
    /// The row of the first set and that of the second, under the same key.
    Changed { before: Row, after: Row },
}

/// The change after which the first set has at the key what the second set has there.
fn change_of(difference: &Difference) -> Result<Change, NoMemory>
    ensures { IfOk result (λ change. change ≡ change_of difference.now) }
{
    Ok(match difference {
        Difference::Added(row) => Change::Put(row.clone()?),
        Difference::Removed(row) => Change::Remove(row.key()),
        Difference::Changed { after, .. } => Change::Put(after.clone()?),
    })
}

/// The changes that turn the first set into the second, in the order of the differences: a row that
/// was added or changed is put, and the key of a row that was removed is removed.
pub fn changes(alloc: Global, differences: &[Difference]) -> Result<Vec<Change>, NoMemory>
    ensures { IfOk result (λ changes. changes.items ≡ difference_changes differences.now) }
{
    let mut changes = Vec::new(alloc);
    for difference in differences {
        changes.push(change_of(difference)?)?;
    }
    Ok(changes)
}
