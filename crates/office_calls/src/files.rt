//! `office_files`: CSV files read and written, the sheet and the reports.

use crate::cabinet::{at, cabinet, first_of_may, overdue_rows};
use crate::records::{make_words, set};
use cabinet_core::RecordCommand;
use office_files::{
    BadRow, CsvFault, overdue_text, read_records_csv, read_timing_csv, records_csv, timing_csv,
    timing_sheet, violation_text,
};
use signal_records::{Change, Revision, RowFault};
use signal_rules::violations;
use std::alloc::Global;
use std::test::Fail;

/// Two files, of one record each.
const SPLIT: &str = "split,4,1,35,3,1\n";

const INSPECTION: &str = "inspection,12,1,2026-05-01,Ana,Fan\n";

/// How many changes and records are read from the files.
fn count_read(alloc: Global) -> Result<(usize, usize), Fail> {
    let changes: Vec<Change> = read_timing_csv(alloc, SPLIT.as_bytes())?;
    let records: Vec<RecordCommand> = read_records_csv(alloc, INSPECTION.as_bytes())?;
    Ok((changes.len(), records.len()))
}

/// Whether a text begins with `wanted`.
fn begins(text: &[u8], wanted: &str) -> bool {
    text.starts_with(wanted.as_bytes())
}

/// Whether a set is written as a file and as a sheet.
fn plan_is_written(alloc: Global) -> Result<bool, Fail> {
    let set = set(alloc)?;
    let file: Vec<u8> = timing_csv(alloc, &set)?;
    let name = make_words(alloc, "Main St")?;
    let sheet: Vec<u8> = timing_sheet(alloc, at()?.id, &name, Revision::first(), &set)?;
    Ok(
        begins(&file, "phase,1,2,8,20,40,40,15,6 7,")
            && begins(&sheet, "Intersection 12: Main St\n"),
    )
}

/// Whether the violations of a set are printed.
fn violations_are_printed(alloc: Global) -> Result<bool, Fail> {
    let found = violations(alloc, &set(alloc)?)?;
    let text: Vec<u8> = violation_text(alloc, &found)?;
    Ok(begins(&text, "phase 1 V6\n"))
}

/// Whether the records of a cabinet and what is overdue are printed.
fn register_is_printed(alloc: Global) -> Result<bool, Fail> {
    let file: Vec<u8> = records_csv(alloc, at()?.id, &cabinet(alloc)?)?;
    let report: Vec<u8> = overdue_text(alloc, first_of_may()?, &overdue_rows(alloc)?)?;
    Ok(
        begins(&file, "order,12,1,2026-05-01,Ana,Relay\n")
            && begins(&report, "Overdue on 2026-05-01"),
    )
}

#[test]
fn files_and_texts(rt: HostRuntime) -> Result<(), Fail> {
    let alloc = rt.alloc();
    assert_eq!(rt; count_read(alloc)?, (1, 1));
    let bad: CsvFault = CsvFault::Row(BadRow {
        at: 1,
        fault: RowFault::Count,
    });
    assert!(rt; read_timing_csv(alloc, b"split,4\n").err() == Some(bad));
    assert!(rt; plan_is_written(alloc)?);
    assert!(rt; violations_are_printed(alloc)?);
    assert!(rt; register_is_printed(alloc)?);
    Ok(())
}
