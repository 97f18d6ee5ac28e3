//! The key of a changed row.

ghost use Rattle.std.specs.Prelude.{◌≡◌};
ghost use Rattle.signal_records.specs.ChangedRows as rows;

use crate::{Change, Key};

/// The key that a change names.
pub fn changed_key(change: &Change) -> Key
    ensures { result ≡ rows.changed_key change.now }
{
    match change {
        Change::Put(row) => row.key(),
        Change::Remove(key) => *key,
    }
}
