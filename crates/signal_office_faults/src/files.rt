//! Files of the file system: their bytes, and whether they exist. Why one can't be read or is
//! missing is said on standard error.

use crate::fault::Fault;
use crate::limits::{MOST_BYTES, TooLong};
use crate::standard_error::{note, note_system};
use std::alloc::{AllocError, Global};
use std::fs::{self, File};
use std::io::{self, ErrorKind, Read};

/// The bytes of a file, at most one more than a CSV file may have.
fn first_bytes(rt: &HostRuntime, path: &str) -> io::Result<Vec<u8>> {
    let mut bytes = Vec::new(rt.alloc());
    File::open(rt, path)?
        .take(MOST_BYTES as u64 + 1)
        .read_to_end(&mut bytes)?;
    Ok(bytes)
}

/// The bytes of a CSV file. The fault is `Memory`, or `File`, after a note, where the file has more
/// than 64 MiB or the system refuses it.
pub fn read_file(rt: &HostRuntime, path: &str) -> Result<Vec<u8>, Fault> {
    match first_bytes(rt, path) {
        Ok(bytes) if bytes.len() > MOST_BYTES => Err(TooLong::File.told(rt, path)),
        Ok(bytes) => Ok(bytes),
        Err(error) if error.kind() == ErrorKind::OutOfMemory => Err(Fault::Memory),
        Err(error) => {
            note_system(rt, path, error);
            Err(Fault::File)
        }
    }
}

/// Whether a path leads to an empty file; false where the system does not say.
fn is_empty(rt: &HostRuntime, path: &str) -> bool {
    match fs::metadata(rt, path) {
        Ok(found) => found.is_file() && found.len() == 0,
        Err(_) => false,
    }
}

/// Whether a path leads to an empty file without a log beside it.
fn has_nothing(rt: &HostRuntime, alloc: Global, path: &str) -> Result<bool, AllocError> {
    let log = format!(in alloc; "{path}-wal")?;
    Ok(is_empty(rt, path) && !matches!(fs::exists(rt, log.as_str()), Ok(true)))
}

/// Whether there is no office at a path: no file, or an empty one without a log beside it. It is
/// false where the system does not say whether there is a file.
pub fn is_missing(rt: &HostRuntime, alloc: Global, path: &str) -> Result<bool, AllocError> {
    Ok(matches!(fs::exists(rt, path), Ok(false)) || has_nothing(rt, alloc, path)?)
}

/// Says that there is no file at a path, or a link that leads nowhere.
fn note_missing(rt: &HostRuntime, path: &str) {
    match fs::symlink_metadata(rt, path) {
        Ok(_) => note(rt, "", path, " is a link that leads nowhere"),
        Err(_) => note(rt, "there is no file ", path, ""),
    }
}

/// Checks that there may be an office at a path. If there is no file, or an empty one without a log
/// beside it, the fault is `why`, after a note. Where the system does not say whether there is a
/// file, it passes; opening the file will show it.
pub fn find_office(rt: &HostRuntime, alloc: Global, path: &str, why: Fault) -> Result<(), Fault> {
    if matches!(fs::exists(rt, path), Ok(false)) {
        note_missing(rt, path);
        return Err(why);
    }
    if has_nothing(rt, alloc, path)? {
        note(rt, "", path, " is empty, and no log stands beside it");
        return Err(why);
    }
    Ok(())
}
