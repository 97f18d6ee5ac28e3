//! Plans, which are timing sets, read from CSV files.

ghost use Rattle.std.specs.Prelude.{◌≡◌, ◌≢◌, IfOk, IfErr, Err};
ghost use Rattle.office_files.specs.Changes.{changes_of};
ghost use Rattle.office_files.specs.Plan.{IsPlan};

use crate::changes::read_timing_csv;
use crate::fault::CsvFault;
use signal_records::TimingSet;
use std::alloc::Global;

/// The plan that the changes of a CSV file make from the empty set, or the first bad record.
pub fn read_plan_csv(alloc: Global, bytes: &[u8]) -> Result<TimingSet, CsvFault>
    ensures plan { IfOk result (IsPlan bytes.now) }
    ensures fault { IfErr result (λ fault. fault ≢ CsvFault.NoMemory →
        changes_of bytes.now ≡ Err fault) }
{
    let changes = read_timing_csv(alloc, bytes)?;
    let plan = TimingSet::new(alloc).changed(&changes)?;
    Ok(plan)
}
