//! The office of a file, copied into another file.

use crate::copy_place::find_room;
use office_http::{Sink, ToWrite};
use signal_office_faults::{Done, Fault, find_office, note_system, print_done};
use signal_office_file::copy_at;
use signal_office_line::{OfficeFile, Path};
use std::alloc::Global;
use std::fs::{File, OpenOptions};
use std::io::Write;
use std::os::unix::fs::{MetadataExt, OpenOptionsExt};
use std::{fs, io};

/// The new file of a copy. Why the system refuses a write to it is said on standard error.
#[derive(Drop)]
struct CopyFile<'a> {
    rt: &'a HostRuntime,
    path: &'a str,
    file: File,
}

impl Write for CopyFile<'_> {
    fn write(&mut self, buf: &[u8]) -> io::Result<usize> {
        let outcome = self.file.write(buf);
        if let Err(error) = outcome {
            note_system(self.rt, self.path, error);
        }
        outcome
    }

    fn flush(&mut self) -> io::Result<()> {
        self.file.flush()
    }
}

/// The outcome of a system call on a file. If it failed, standard error says why, and the fault is
/// Write.
fn or_write_fault<T>(rt: &HostRuntime, path: &str, outcome: io::Result<T>) -> Result<T, Fault> {
    match outcome {
        Ok(value) => Ok(value),
        Err(error) => {
            note_system(rt, path, error);
            Err(Fault::Write)
        }
    }
}

/// Makes a new file with the permissions of another one, as far as the system grants them. It is an
/// error if anything is at the path.
fn make_like(rt: &HostRuntime, other: &str, path: &str) -> io::Result<File> {
    let mode = fs::metadata(rt, other)?.mode() & 0o777;
    OpenOptions::new()
        .write(true)
        .create_new(true)
        .mode(mode)
        .open(rt, path)
}

/// Syncs a file that was written whole, and renames it to its final path; a file there is replaced.
fn put_in_place(rt: &HostRuntime, file: &File, part: &str, to: &str) -> io::Result<()> {
    file.sync_all()?;
    fs::rename(rt, part, to)
}

/// Puts a finished copy in its place. The fault is that of copying, or Write.
fn put_copy(
    rt: &HostRuntime,
    file: &File,
    copied: Result<(), Fault>,
    part: &str,
    to: &str,
) -> Result<(), Fault> {
    copied?;
    or_write_fault(rt, to, put_in_place(rt, file, part, to))
}

/// Copies the office of a file into a new file, `to` with `.part` at its end, and renames that to
/// `to`. If copying or renaming fails, the new file is removed. The fault is Memory, Write where
/// the new file can't be made, written or renamed, or that of copying.
fn copy_to(
    rt: &HostRuntime,
    alloc: Global,
    db: &OfficeFile<'_>,
    to: &Path<'_>,
) -> Result<(), Fault> {
    let (path, to) = (db.path.as_str(), to.as_str());
    let part = format!(in alloc; "{to}.part")?;
    let file = or_write_fault(rt, part.as_str(), make_like(rt, path, part.as_str()))?;
    let mut sink = ToWrite::new(CopyFile {
        rt,
        path: part.as_str(),
        file,
    });
    let copied = copy_at(rt, alloc, path, db.wait, &mut sink);
    let put = put_copy(rt, &sink.writer.file, copied, part.as_str(), to);
    if put.is_err() {
        let _ = fs::remove_file(rt, part.as_str());
    }
    put
}

/// Copies the office of a file into another file, if that path is free or `force` may replace what
/// is there, and prints `copied`. The fault is File if there is no office, and Exists if the path
/// is not free.
pub(crate) fn backup<W: Sink>(
    rt: &HostRuntime,
    alloc: Global,
    db: &OfficeFile<'_>,
    to: &Path<'_>,
    force: bool,
    out: &mut W,
) -> Result<u8, Fault> {
    let path = db.path.as_str();
    find_office(rt, alloc, path, Fault::File)?;
    find_room(rt, alloc, path, to.as_str(), force)?;
    copy_to(rt, alloc, db, to)?;
    print_done(Ok(Done::telling("copied\n")), out)
}
