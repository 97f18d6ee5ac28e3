//! Whether a copy of an office may be put at a place: only a plain file is replaced, and none that
//! is part of an office or in use. Why it may not is said on standard error.

use os::RangeLock;
use signal_office_faults::{Fault, note};
use std::alloc::Global;
use std::fs::{self, Metadata, OpenOptions};
use std::os::fd::AsRawFd;
use std::os::unix::fs::MetadataExt;

/// The ends of the names of files that belong to the file of an office: its log, the file by which
/// runs take turns, an unfinished copy, and what SQLite puts beside it.
const ENDINGS: [&str; 5] = ["-wal", "-turn", ".part", "-journal", "-shm"];

/// The first byte of a file that SQLite locks, and how many.
const LOCKED: (u64, u64) = (1 << 30, 512);

/// Says why a copy may not be put at a path, and gives the fault.
fn exists_fault(rt: &HostRuntime, path: &str, why: &str) -> Fault {
    note(rt, "", path, why);
    Fault::Exists
}

/// Whether there is a file at the path that is not empty; false where the system does not say.
fn has_bytes(rt: &HostRuntime, path: &str) -> bool {
    match fs::metadata(rt, path) {
        Ok(found) => found.len() > 0,
        Err(_) => false,
    }
}

/// Whether two paths lead to the same file; false where the system does not say.
fn are_same(rt: &HostRuntime, one: &str, other: &str) -> bool {
    match (fs::metadata(rt, one), fs::metadata(rt, other)) {
        (Ok(one), Ok(other)) => one.dev() == other.dev() && one.ino() == other.ino(),
        _ => false,
    }
}

/// The existing file to which a file of this name belongs, if there is one.
fn owner_of<'a>(rt: &HostRuntime, path: &'a str) -> Option<&'a str> {
    for ending in ENDINGS {
        if let Some(owner) = path.strip_suffix(ending) {
            if fs::metadata(rt, owner).is_ok() {
                return Some(owner);
            }
        }
    }
    None
}

/// Whether another run or a tool has the database file at a path open; false if it can't be opened
/// here.
fn is_in_use(rt: &HostRuntime, path: &str) -> bool {
    let (first, count) = LOCKED;
    match OpenOptions::new().read(true).write(true).open(rt, path) {
        Ok(file) => {
            os::try_lock_range(file.as_raw_fd(), RangeLock::Exclusive, first, count) != 0
        }
        Err(_) => false,
    }
}

/// Checks the path of a copy: it must not lead to the office itself, nor be that of a file that
/// belongs to an existing one. Else the fault is Exists, after a note, or Memory.
fn check_name(rt: &HostRuntime, alloc: Global, office: &str, path: &str) -> Result<(), Fault> {
    if are_same(rt, office, path) {
        return Err(exists_fault(rt, path, " is the office itself"));
    }
    if let Some(owner) = owner_of(rt, path) {
        let owner = owner.escape_debug();
        let why = format!(in alloc; " belongs to {owner}")?;
        return Err(exists_fault(rt, path, why.as_str()));
    }
    Ok(())
}

/// Checks what is beside the path of a copy: no log with any bytes, which would bring another
/// office back, and no unfinished copy. Else the fault is Exists, after a note, or Memory.
fn check_beside(rt: &HostRuntime, alloc: Global, path: &str) -> Result<(), Fault> {
    let log = format!(in alloc; "{path}-wal")?;
    let part = format!(in alloc; "{path}.part")?;
    if has_bytes(rt, log.as_str()) {
        return Err(exists_fault(rt, log.as_str(), " is there, the log of another office"));
    }
    if fs::symlink_metadata(rt, part.as_str()).is_ok() {
        return Err(exists_fault(rt, part.as_str(), " is there, of a copy that was cut off"));
    }
    Ok(())
}

/// Checks that what is at a path may be replaced: a plain file that no run has open, and only with
/// `force`. Else the fault is Exists, after a note.
fn check_replaced(
    rt: &HostRuntime,
    path: &str,
    found: &Metadata,
    force: bool,
) -> Result<(), Fault> {
    if found.is_dir() {
        return Err(exists_fault(rt, path, " is a folder"));
    }
    if found.is_symlink() {
        return Err(exists_fault(rt, path, " is a link"));
    }
    if !found.is_file() {
        return Err(exists_fault(rt, path, " is no file"));
    }
    if !force {
        return Err(exists_fault(rt, path, " is there; --force replaces it"));
    }
    if is_in_use(rt, path) {
        note(rt, "another run has ", path, " open");
        return Err(Fault::Exists);
    }
    Ok(())
}

/// Checks that a copy of an office may be put at a path. Else the fault is Exists, after a note, or
/// Memory.
pub(crate) fn find_room(
    rt: &HostRuntime,
    alloc: Global,
    office: &str,
    path: &str,
    force: bool,
) -> Result<(), Fault> {
    check_name(rt, alloc, office, path)?;
    check_beside(rt, alloc, path)?;
    match fs::symlink_metadata(rt, path) {
        Ok(found) => check_replaced(rt, path, &found, force),
        Err(_) => Ok(()),
    }
}
