//! What is wrong with a CSV file.

ghost use Rattle.std.specs.Prelude.{◌≡◌};
ghost use Rattle.office_files.specs.CsvFault.{told_at};

use signal_records::{NoMemory, RowFault};
use std::alloc::AllocFailed;
use std::fmt;

/// A record that spells nothing.
#[derive(Clone, Copy, Debug, PartialEq, Eq)]
pub struct BadRow {
    /// Which record, counted from 1. Empty lines are no records.
    pub at: usize,
    /// What is wrong with the record; never `NoMemory`.
    pub fault: RowFault,
}

/// Why a CSV file was not read.
#[derive(Clone, Copy, Debug, PartialEq, Eq)]
pub enum CsvFault {
    /// The first record that spells nothing.
    Row(BadRow),
    /// Memory was refused. It may come in place of any other answer.
    NoMemory,
}

/// What was read from the record with the number `at`, counted from 1, or its fault with that
/// number. `NoMemory` comes exactly if the reader of the record reported it.
pub fn told_of_record<T>(at: usize, read: Result<T, RowFault>) -> Result<T, CsvFault>
    ensures { result ≡ told_at at read }
{
    match read {
        Ok(row) => Ok(row),
        Err(RowFault::NoMemory) => Err(CsvFault::NoMemory),
        Err(fault) => Err(CsvFault::Row(BadRow { at, fault })),
    }
}

impl From<NoMemory> for CsvFault {
    ghost use Rattle.std.specs.Prelude.{◌≡◌};
    ghost use Rattle.office_files.specs.declared.fault.CsvFault.TheVariants as file;

    ghost from_gives = { λ _ fault. fault ≡ file.NoMemory };

    fn from(_error: NoMemory) -> CsvFault {
        CsvFault::NoMemory
    }
}

impl<T: Drop> From<AllocFailed<T>> for CsvFault {
    ghost use Rattle.std.specs.Prelude.{◌≡◌};
    ghost use Rattle.office_files.specs.declared.fault.CsvFault.TheVariants as file;

    ghost from_gives = { λ _ fault. fault ≡ file.NoMemory };

    fn from(_error: AllocFailed<T>) -> CsvFault {
        CsvFault::NoMemory
    }
}

/// Writes a bad record's number and its fault, with the fault's field if it names one, as `record
/// 4: Number 3` or `record 4: Count`. Records and fields are counted from 1.
impl fmt::Display for BadRow {
    fn fmt<W: fmt::Write>(&self, f: &mut fmt::Formatter<W>) -> fmt::Result {
        write!(f, "record {}: {}", self.at, self.fault.name())?;
        match self.fault.field() {
            Some(field) => write!(f, " {field}"),
            None => Ok(()),
        }
    }
}

/// Writes the bad record, as `record 4: Number 3`, or `memory`.
impl fmt::Display for CsvFault {
    fn fmt<W: fmt::Write>(&self, f: &mut fmt::Formatter<W>) -> fmt::Result {
        match self {
            CsvFault::NoMemory => f.write_str("memory"),
            CsvFault::Row(bad) => write!(f, "{bad}"),
        }
    }
}
