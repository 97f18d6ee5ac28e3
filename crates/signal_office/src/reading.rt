//! CSV files that are read before a job is done, and what is said of them.

use cabinet_core::Day;
use office_http_framing::ends::{Sink, Source, write_all};
use signal_office_commands::check_days;
use signal_office_faults::{
    CsvKind, Fault, MOST_BYTES, TooLong, bad_records_text, check_length, notes_in, read_file,
    record_lines, unpadded_csv, unpadded_lines,
};
use signal_office_line::{CsvFile, Request, Shown};
use std::alloc::Global;

/// The path that stands for the input of the run.
pub(crate) const INPUT: &str = "-";

/// What a note calls the input of the run.
const INPUT_NAME: &str = "standard input";

/// How many bytes of the input are read at a time, at most.
const PIECE_LEN: usize = 4096;

/// The text of a CSV file, and the lines of the file on which its records begin, counted from 1.
#[derive(Drop)]
pub(crate) struct CsvText {
    pub(crate) text: Vec<u8>,
    pub(crate) lines: Vec<usize>,
}

/// All the bytes that the input gives, up to its end. The fault is Read if the input failed, File
/// if it has more than 64 MiB, or Memory; some bytes may have been taken by then.
fn read_input<R: Source>(
    rt: &HostRuntime,
    alloc: Global,
    source: &mut R,
) -> Result<Vec<u8>, Fault> {
    let mut bytes = Vec::new(alloc);
    let mut piece = [0; PIECE_LEN];
    loop {
        if bytes.len() > MOST_BYTES {
            return Err(TooLong::File.told(rt, INPUT_NAME));
        }
        match source.read(&mut piece) {
            Ok(0) => return Ok(bytes),
            Ok(n) => bytes.extend_from_slice(&piece[..n])?,
            Err(_) => return Err(Fault::Read),
        }
    }
}

/// The bytes of a CSV file, or of the input of the run where the path is `-`. The fault is Read if
/// the input failed, Memory, or, after a note, File if the system refuses the file, or it has too
/// many bytes or records, or too long a record.
fn read_bytes<R: Source>(
    rt: &HostRuntime,
    alloc: Global,
    path: &str,
    source: &mut R,
) -> Result<Vec<u8>, Fault> {
    let (name, bytes) = if path == INPUT {
        (INPUT_NAME, read_input(rt, alloc, source)?)
    } else {
        (path, read_file(rt, path)?)
    };
    check_length(rt, name, &bytes)?;
    Ok(bytes)
}

/// Reads a CSV file, and drops the padding of its records if `--padded` allows it.
fn read_csv<R: Source>(
    rt: &HostRuntime,
    alloc: Global,
    file: &CsvFile<'_>,
    source: &mut R,
) -> Result<CsvText, Fault> {
    let bytes = read_bytes(rt, alloc, file.path.as_str(), source)?;
    let lines = record_lines(alloc, &bytes)?;
    if !file.padded {
        return Ok(CsvText { text: bytes, lines });
    }
    Ok(CsvText {
        text: unpadded_csv(alloc, &bytes)?,
        lines: unpadded_lines(alloc, &bytes, &lines)?,
    })
}

/// Writes a line for each bad record of a CSV file to `err`, if that is asked for. `other` says
/// that the file is the second of two.
fn explain<E: Sink>(
    alloc: Global,
    file: &CsvFile<'_>,
    csv: &CsvText,
    kind: CsvKind,
    other: bool,
    err: &mut E,
) -> Result<(), Fault> {
    if file.explain {
        let text = bad_records_text(alloc, &csv.text, &csv.lines, kind, other)?;
        let _ = write_all(err, text.as_str().as_bytes());
    }
    Ok(())
}

/// Reads the CSV file of a plan, and writes notes on it to `err`: a line for each bad record, if
/// that is asked for, and for each record that puts or removes a key again. `other` says that the
/// plan is the second of two.
pub(crate) fn read_plan<R: Source, E: Sink>(
    rt: &HostRuntime,
    alloc: Global,
    file: &CsvFile<'_>,
    other: bool,
    source: &mut R,
    err: &mut E,
) -> Result<CsvText, Fault> {
    let csv = read_csv(rt, alloc, file, source)?;
    explain(alloc, file, &csv, CsvKind::Plan, other, err)?;
    let notes = notes_in(alloc, other, &csv.text)?;
    let _ = write_all(err, notes.as_str().as_bytes());
    Ok(csv)
}

/// If a request is an import that is only tried, checks that no record has a later day than
/// `until`; else the fault is Late.
pub(crate) fn check_tried(alloc: Global, request: &Request<'_>, csv: &[u8]) -> Result<(), Fault> {
    match request {
        Request::Import {
            until,
            check: true,
            ..
        } => check_days(alloc, csv, *until),
        _ => Ok(()),
    }
}

/// Reads the CSV file of records of cabinets, and writes a line for each bad one to `err`, if that
/// is asked for. The fault is Late if one has a later day than `until`.
fn read_records<R: Source, E: Sink>(
    rt: &HostRuntime,
    alloc: Global,
    file: &CsvFile<'_>,
    until: Option<Day>,
    source: &mut R,
    err: &mut E,
) -> Result<CsvText, Fault> {
    let csv = read_csv(rt, alloc, file, source)?;
    explain(alloc, file, &csv, CsvKind::Register, false, err)?;
    check_days(alloc, &csv.text, until)?;
    Ok(csv)
}

/// Reads the CSV file that a request names; if it names none, text and lines are empty. For an
/// import that is only tried, days are not checked yet.
pub(crate) fn read_for<R: Source, E: Sink>(
    rt: &HostRuntime,
    alloc: Global,
    request: &Request<'_>,
    source: &mut R,
    err: &mut E,
) -> Result<CsvText, Fault> {
    let plan = match request {
        Request::Import { csv, until, check } => {
            let until = if *check { None } else { *until };
            return read_records(rt, alloc, csv, until, source, err);
        }
        Request::Edit(edit) => edit.csv.as_ref(),
        Request::Show(Shown::CompareRunning { plan, .. }) => Some(plan),
        _ => None,
    };
    match plan {
        Some(plan) => read_plan(rt, alloc, plan, false, source, err),
        None => Ok(CsvText {
            text: Vec::new(alloc),
            lines: Vec::new(alloc),
        }),
    }
}
