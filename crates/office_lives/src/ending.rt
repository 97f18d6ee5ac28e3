//! What comes back from work over files, which were closed after it or not.

ghost use Rattle.std.specs.Prelude.{IfSome};
ghost use Rattle.office_lives.specs.Life.{IsClosedWith, IsUnclosedWith};

use signal_office_file::{Ended, FileLeft};
use sqlite_disk::{Disk, Files};

/// The result of work, and its files, if they were closed after it; else `None`.
pub(crate) fn closed_after<D: Disk + Drop, T: Drop>(ended: Ended<T, D>) -> Option<(T, Files<D>)>
    ensures { IfSome result (λ it. IsClosedWith ended it.0 it.1) }
{
    match ended {
        Ended::Closed(done, files) => Some((done, files)),
        _ => None,
    }
}

/// What is left of files, if they could not be closed after work; else `None`.
pub(crate) fn left_after<D: Disk + Drop, T: Drop>(ended: Ended<T, D>) -> Option<FileLeft<D>>
    ensures { IfSome result (λ left. IsUnclosedWith ended left) }
{
    match ended {
        Ended::Unclosed(_fault, left) => Some(left),
        _ => None,
    }
}
