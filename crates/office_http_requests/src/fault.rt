//! Why a request asks nothing.
ghost use Rattle.std.specs.Prelude.{◌≡◌};
ghost use Rattle.office_http_requests.specs.declared.fault.AskFault.TheVariants.{
  NoMemory as OutOfMemory,
};

use crate::field::Field;
use office_files::{BadRow, CsvFault};
use signal_records::NoMemory;
use std::alloc::AllocFailed;

/// Why a request asks nothing of the office.
#[derive(Clone, Copy)]
pub enum AskFault {
    /// No route has the path.
    NoRoute,
    /// The path has a route, and the method is not that of the route.
    Method,
    /// The body is no JSON object.
    Json,
    /// A field is missing, of another kind or out of its range.
    Field(Field),
    /// A row of the body, or a record of its CSV text, is bad.
    BadRow(BadRow),
    /// Memory was refused.
    NoMemory,
}

impl From<NoMemory> for AskFault {
    ghost from_gives = { λ _ fault. fault ≡ OutOfMemory };

    fn from(_: NoMemory) -> AskFault {
        AskFault::NoMemory
    }
}

impl<T: Drop> From<AllocFailed<T>> for AskFault {
    ghost from_gives = { λ _ fault. fault ≡ OutOfMemory };

    fn from(_: AllocFailed<T>) -> AskFault {
        AskFault::NoMemory
    }
}

/// The fault of a CSV text, as one of the request that has it.
impl From<CsvFault> for AskFault {
    ghost use Rattle.office_http_requests.specs.AskFault.{ask_fault};

    ghost from_gives = { λ fault told. told ≡ ask_fault fault };

    fn from(fault: CsvFault) -> AskFault {
        match fault {
            CsvFault::Row(bad) => AskFault::BadRow(bad),
            CsvFault::NoMemory => AskFault::NoMemory,
        }
    }
}
