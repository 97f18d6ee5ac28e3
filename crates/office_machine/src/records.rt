//! Lists of records of the register.

use cabinet_core::RecordCommand;
use signal_records::Listing;

/// Records that are to be taken into the register, in their order.
pub type Records = Listing<RecordCommand>;
