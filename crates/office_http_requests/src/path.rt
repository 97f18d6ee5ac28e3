//! The segments of a path, and the fields that they spell.
ghost use Rattle.std.specs.Prelude.{◌≡◌, ◌≤◌, length, position};
ghost use Rattle.std.specs.List.{position_or_len, after_first};
ghost use Rattle.office_http_requests.specs.Paths.{is_slash, segment as segment_of, id_at, order_at, day_at};

use crate::fault::AskFault;
use crate::field::Field;
use crate::value::day_spelled;
use cabinet_core::Day;
use signal_records::{InterId, RecordNo};

fn first_slash(path: &[u8]) -> Option<usize>
    ensures { result ≡ position is_slash path.now }
{
    path.iter().position(|b| *b == b'/')
}

// The index of the path's first slash, or the path's length where it has none.
fn slash_at(path: &[u8]) -> usize
    ensures value { result ≡ position_or_len is_slash path.now }
    ensures bound { result ≤ length path.now }
{
    first_slash(path).unwrap_or(path.len())
}

// What follows the path's first slash; nothing where it has none.
fn after_slash(path: &[u8]) -> &[u8]
    ensures { result.now ≡ after_first is_slash path.now }
{
    let slash = slash_at(path);
    if slash < path.len() {
        &path[slash + 1..]
    } else {
        &[]
    }
}

/// A segment of a path, counted from 0; segment 0 is what comes before the first slash. It is empty
/// if the path has fewer.
pub(crate) fn segment(path: &[u8], index: usize) -> &[u8]
    ensures { result.now ≡ segment_of index path.now }
{
    let mut rest = path;
    for _ in 0..index {
        rest = after_slash(rest);
    }
    &rest[..slash_at(rest)]
}

/// The number of an intersection, 1 to 9999, in the third segment of a path, or the fault of the
/// field `id`.
#[tactic(auto, unfolding(crate::specs::Paths::id_at))]
pub(crate) fn id(path: &[u8]) -> Result<InterId, AskFault>
    ensures { result ≡ id_at path.now }
{
    InterId::parse(segment(path, 2)).ok_or(AskFault::Field(Field::Id))
}

/// The number of an order, 1 to 999,999, in the fifth segment of a path, or the fault of the field
/// `order`.
#[tactic(auto, unfolding(crate::specs::Paths::order_at))]
pub(crate) fn order(path: &[u8]) -> Result<RecordNo, AskFault>
    ensures { result ≡ order_at path.now }
{
    RecordNo::parse(segment(path, 4)).ok_or(AskFault::Field(Field::Order))
}

/// The day, `YYYY-MM-DD`, in the third segment of a path, or the fault of the field `day`.
#[tactic(auto, unfolding(crate::specs::Paths::day_at))]
pub(crate) fn day(path: &[u8]) -> Result<Day, AskFault>
    ensures { result ≡ day_at path.now }
{
    day_spelled(segment(path, 2)).ok_or(AskFault::Field(Field::Day))
}
