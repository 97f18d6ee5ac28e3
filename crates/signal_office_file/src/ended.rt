//! How work over the two files of an office ended.

ghost use Rattle.std.specs.Prelude.{◌≡◌, MatchResult};
ghost use Rattle.signal_office_file.specs.Ended.{told_by};

use crate::left::FileLeft;
use signal_office_faults::Fault;
use sqlite_disk::{Disk, Files};

/// How work over the two files of an office ended: `T` is the result of the work.
#[derive(Drop)]
pub enum Ended<T, D: Disk> {
    /// The files were refused, and no work was done: why, and what is left of them.
    Refused(Fault, FileLeft<D>),
    /// The files were closed. The result of the work may be a fault of its own.
    Closed(T, Files<D>),
    /// The files could not be closed. The fault is that of the work, if it had one, or else that of
    /// closing.
    Unclosed(Fault, FileLeft<D>),
}

impl<T: Drop, D: Disk + Drop> Ended<T, D> {
    /// The result of the work, if the files were closed; else the fault with which they were
    /// refused or not closed. The files, or what is left of them, are dropped.
    pub fn told(self) -> Result<T, Fault>
        ensures { result ≡ told_by self }
    {
        match self {
            Ended::Refused(fault, _left) => Err(fault),
            Ended::Closed(done, _files) => Ok(done),
            Ended::Unclosed(fault, _left) => Err(fault),
        }
    }
}

/// The fault that is reported of work whose files were not closed: that of the work, if it had one,
/// or else `closing`.
pub(crate) fn first_fault<T: Drop, E>(done: Result<T, E>, closing: Fault) -> Fault
where
    Fault: From<E>,
    ensures { MatchResult done (λ _. result ≡ closing)
        (λ cause. ⟦<Fault as From<E>>⟧.from_gives cause result) }
{
    match done {
        Ok(_) => closing,
        Err(fault) => Fault::from(fault),
    }
}
