//! The faults with which the program ends, and the lines that report them.

use arrayvec::ArrayString;
use office_files::{BadRow, CsvFault};
use office_http_framing::ends::{Sink, WriteFailed, write_all};
use office_http_framing::engine::ServeFault;
use office_machine::refusal::Refusal;
use signal_records::NoMemory;
use std::fmt::{self, Write};

/// Why the program ends with a fault, or refuses the words of its command line.
#[derive(Clone, Copy)]
pub enum Fault {
    /// The input failed as it was read.
    Read,
    /// An output or a file could not be written, or an output took no byte.
    Write,
    /// Memory was refused.
    Memory,
    /// The database, or the system for a file of an office, refused.
    Store,
    /// The tables have another version than the program's, or a file to be migrated has none.
    Version,
    /// No version is stored and a table has a row, or a stored row is no record.
    Damaged,
    /// The port can't be listened on, or no connection could be accepted.
    Bind,
    /// A CSV file can't be read or is too long, or the file of an office is missing and this
    /// command does not make it.
    File,
    /// The path of a copy is not free: it belongs to an office, something exists there that may not
    /// be replaced, or a log or an unfinished copy is beside it.
    Exists,
    /// The office has no such intersection.
    UnknownIntersection,
    /// The plan has no such pattern.
    UnknownPattern,
    /// The committed revision is this one, not the one that `--revision` requires.
    OtherRevision(u32),
    /// A word of the command line spells no day from 1970-01-01 to 2199-12-31.
    Day,
    /// A word of the command line is no clerk's name: 1 to 40 bytes without control characters.
    Clerk,
    /// A word of the command line is no intersection's name: 1 to 120 bytes without control
    /// characters.
    Name,
    /// A word of the command line is no part's code: 1 to 20 of the bytes `A` to `Z`, `0` to `9`
    /// and `-`.
    Part,
    /// The office refused a command.
    Refused(Refusal),
    /// The office refused a record of the CSV file, counted from 1.
    Record { at: usize, refusal: Refusal },
    /// A record of the CSV file, counted from 1, has a later day than `--until` allows.
    Late { at: usize },
    /// A record of the CSV file, or of the first of two that are compared, is bad; or memory was
    /// refused while the file was read.
    Csv(CsvFault),
    /// The office refused what only the owner of the draft may do; its owner is this clerk.
    HeldBy(ArrayString<40>),
    /// A record of the second of two CSV files is bad.
    OtherCsv(BadRow),
    /// The words of the command line are not UTF-8.
    Words,
}

impl Fault {
    /// The status with which the program ends: 2 where the words of the command line are not UTF-8,
    /// else 1.
    pub fn status(self) -> u8 {
        match self {
            Fault::Words => 2,
            _ => 1,
        }
    }
}

/// Writes the line that reports the fault, or its two lines, without the last line feed.
impl fmt::Display for Fault {
    fn fmt<W: fmt::Write>(&self, f: &mut fmt::Formatter<W>) -> fmt::Result {
        match self {
            Fault::Read => f.write_str("fault: read"),
            Fault::Write => f.write_str("fault: write"),
            Fault::Memory => f.write_str("fault: memory"),
            Fault::Store => f.write_str("fault: store"),
            Fault::Version => f.write_str("fault: version"),
            Fault::Damaged => f.write_str("fault: damaged"),
            Fault::Bind => f.write_str("fault: bind"),
            Fault::File => f.write_str("fault: file"),
            Fault::Exists => f.write_str("fault: exists"),
            Fault::UnknownIntersection => f.write_str("fault: unknown intersection"),
            Fault::UnknownPattern => f.write_str("fault: unknown pattern"),
            Fault::OtherRevision(found) => write!(f, "fault: revision: {found} is committed"),
            Fault::Day => f.write_str("fault: day"),
            Fault::Clerk => f.write_str("fault: clerk"),
            Fault::Name => f.write_str("fault: name"),
            Fault::Part => f.write_str("fault: part"),
            Fault::Refused(refusal) => write!(f, "fault: {}", refusal.name()),
            Fault::Record { at, refusal } => write!(f, "fault: record {at}: {}", refusal.name()),
            Fault::Late { at } => write!(f, "fault: record {at}: Late"),
            Fault::Csv(fault) => write!(f, "fault: {fault}"),
            Fault::HeldBy(clerk) => write!(f, "fault: NotOwner\nheld by {clerk}"),
            Fault::OtherCsv(bad) => write!(f, "fault: other {bad}"),
            Fault::Words => f.write_str("the command line is not UTF-8"),
        }
    }
}

impl From<NoMemory> for Fault {
    ghost use Rattle.std.specs.Prelude.{◌≡◌};
    ghost use Rattle.signal_office_faults.specs.declared.fault.Fault.TheVariants as told;

    ghost from_gives = { λ _ fault. fault ≡ told.Memory };

    fn from(_: NoMemory) -> Fault {
        Fault::Memory
    }
}

impl From<WriteFailed> for Fault {
    fn from(_: WriteFailed) -> Fault {
        Fault::Write
    }
}

impl From<CsvFault> for Fault {
    fn from(fault: CsvFault) -> Fault {
        Fault::Csv(fault)
    }
}

impl From<ServeFault> for Fault {
    ghost use Rattle.std.specs.Prelude.{◌≡◌};
    ghost use Rattle.signal_office_faults.specs.Stream.{fault_of_stream};

    ghost from_gives = { λ cause fault. fault ≡ fault_of_stream cause };

    fn from(fault: ServeFault) -> Fault {
        match fault {
            ServeFault::Read { .. } => Fault::Read,
            ServeFault::Write { .. } => Fault::Write,
            ServeFault::NoMemory => Fault::Memory,
        }
    }
}

/// The room for the lines that report a fault, in bytes: more than the longest need.
const ROOM: usize = 512;

/// Writes the lines of a fault to `err`, as far as it takes them, and gives the status with which
/// the program ends, 1 or 2. It needs no memory.
pub fn report<W: Sink>(err: &mut W, fault: Fault) -> u8 {
    let mut line: ArrayString<ROOM> = ArrayString::new();
    let _ = writeln!(line, "{fault}");
    let _ = write_all(err, line.as_str().as_bytes());
    fault.status()
}
