//! What no row file shows of texts: the widest numbers of a sheet, and how want of memory is told.

use crate::spelling::words;
use draft_core::revision::Revision;
use office_files::{CsvFault, read_timing_csv, timing_sheet};
use signal_records::{InterId, TimingSet};
use std::test::Fail;

/// The sheet of the greatest numbers and of empty lists.
const SHEET: &str = "Intersection 12: Main St
Revision 999999
Phases
    No  Ring   Min  Pass   Max   Yel   Red  Walk Clear Width Setbk Short  Lead Mates
    32     8   255  25.5   255  25.5  25.5   255   255 999.9  99.9     1    10 -
Sequences
    No  Ring Phases
    20     8 -
Splits
    No Phase  Time  Mode Coord
    20    32   255     7     1
Patterns
    No Cycle  Offs Split   Seq
    48   255   255    20    20
";

/// The rows with the greatest numbers.
const FULL_PLAN: &str = "\
phase,32,8,255,255,255,255,255,,255,255,9999,999,1,10
seq,20,8,
split,20,32,255,7,1
pattern,48,255,255,20,20
";

#[test]
fn a_sheet_is_printed(rt: HostRuntime) -> Result<(), Fail> {
    let alloc = rt.alloc();
    let id = InterId::new(12).ok_or("an intersection")?;
    let revision = Revision::new(999_999).ok_or("a revision")?;
    let file = FULL_PLAN.as_bytes();
    let mut set = TimingSet::new(alloc);
    set.apply(alloc, &read_timing_csv(alloc, file)?)?;
    let sheet = timing_sheet(alloc, id, &words(alloc, "Main St")?, revision, &set)?;
    assert_eq!(rt; sheet.as_slice(), SHEET.as_bytes());
    Ok(())
}

#[test]
fn want_of_memory_is_told(rt: HostRuntime) -> Result<(), Fail> {
    let told = format!(in rt.alloc(); "{}", CsvFault::NoMemory)?;
    assert_eq!(rt; told.as_str(), "memory");
    Ok(())
}
