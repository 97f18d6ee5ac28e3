//! Notes on standard error, besides the fault, on a file in which no office can be opened, and on
//! one that another run has open. A note that can't be written is dropped.

use signal_office_faults::{Fault, note, note_system};
use sqlite_std_file::OpenError;
use std::fs::{self, File};
use std::io::{self, ErrorKind, Read};
use std::os::unix::fs::MetadataExt;

/// The first 16 bytes of each database file of SQLite that is not empty.
const HEAD: &[u8] = b"SQLite format 3\0";

/// Says that another run has the file open, and that this one waits.
pub(crate) fn note_wait(rt: &HostRuntime, path: &str) {
    note(rt, "another run has ", path, " open; waiting");
}

/// Says why a server cannot have the file that it served, and what it does meanwhile.
pub(crate) fn note_away(rt: &HostRuntime, path: &str, fault: &Fault) {
    let after = format!(in rt.alloc();
        " can't be had again ({fault}); each request is answered 503"
    );
    if let Ok(after) = after {
        note(rt, "", path, after.as_str());
    }
}

/// What is wrong with a path at which a plain file with one name is needed, as the end of a note.
fn what_stands(rt: &HostRuntime, path: &str) -> &'static str {
    match fs::metadata(rt, path) {
        Ok(found) if found.is_dir() => " is a folder",
        Ok(found) if !found.is_file() => " is no file",
        Ok(found) if found.nlink() > 1 => " has more than one name, by hard links",
        Err(error) if error.kind() == ErrorKind::NotFound => " is a link that leads nowhere",
        _ => " can't be opened beside its log",
    }
}

/// Says why the files at a path were not opened. There is no note if memory was refused, or if a
/// note has already said that this run waits for another.
pub(crate) fn note_refusal(rt: &HostRuntime, path: &str, error: &OpenError, waited: bool) {
    match error {
        OpenError::OutOfMemory => {}
        OpenError::Busy if waited => {}
        OpenError::Busy => note(rt, "another run has ", path, " open"),
        OpenError::HotJournal => {
            note(
                rt,
                "",
                path,
                " has a rollback journal; open it by sqlite3 first",
            )
        }
        OpenError::Io(error) if error.kind() == ErrorKind::Unsupported => {
            note(rt, "", path, what_stands(rt, path))
        }
        OpenError::Io(error) => note_system(rt, path, *error),
    }
}

/// Says that the system gave no random number.
pub(crate) fn note_random(rt: &HostRuntime, error: io::Error) {
    note_system(rt, "a random number", error);
}

/// Says that SQLite does not take a path as the name of a file, and how to write it.
pub(crate) fn note_name(rt: &HostRuntime, path: &str) {
    let named = path.escape_debug();
    if let Ok(after) = format!(in rt.alloc(); " names no file for SQLite; write ./{named}") {
        note(rt, "", path, after.as_str());
    }
}

/// The first 16 bytes of a file, or all that it has.
fn first_bytes(rt: &HostRuntime, path: &str) -> io::Result<Vec<u8>> {
    let mut bytes = Vec::new(rt.alloc());
    File::open(rt, path)?
        .take(HEAD.len() as u64)
        .read_to_end(&mut bytes)?;
    Ok(bytes)
}

/// Says what a file holds in which no office could be opened though the system refused nothing:
/// a database or something else; or why it can't be read.
pub(crate) fn note_content(rt: &HostRuntime, path: &str) {
    let bytes = match first_bytes(rt, path) {
        Ok(bytes) => bytes,
        Err(error) => return note_system(rt, path, error),
    };
    let what = if bytes.as_slice() == HEAD {
        " is a database in which no office can be opened"
    } else {
        " is no database"
    };
    note(rt, "", path, what);
}
