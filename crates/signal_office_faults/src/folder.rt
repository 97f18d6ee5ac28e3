//! Folders into which files are put by name.

use crate::fault::Fault;
use crate::standard_error::note_system;
use std::alloc::Global;
use std::{fs, io};

/// A folder into which files are put.
pub trait Folder {
    /// Puts a file with this name and text. A file that has the text already is not touched; any
    /// other is as it was until it has the whole text. The fault is `Write` or `Memory`; the file
    /// is then as it was.
    fn put(&mut self, name: &str, text: &[u8]) -> Result<(), Fault>;
}

/// A folder of the file system; if it does not exist, putting the first file makes it.
#[derive(Drop)]
pub struct SystemFolder<'a> {
    rt: &'a HostRuntime,
    alloc: Global,
    path: &'a str,
    is_there: bool,
}

/// Whether a path leads to a file with exactly this text; false where the system does not say.
fn holds(rt: &HostRuntime, path: &str, text: &[u8]) -> bool {
    let is_as_long = match fs::metadata(rt, path) {
        Ok(found) => found.is_file() && found.len() == text.len() as u64,
        Err(_) => false,
    };
    is_as_long && matches!(fs::read(rt, path), Ok(held) if held.as_slice() == text)
}

/// Says why the system refuses to make a folder or to write a file, and gives the fault `Write`.
fn write_fault(rt: &HostRuntime, path: &str, error: io::Error) -> Fault {
    note_system(rt, path, error);
    Fault::Write
}

/// Makes a folder if there is none. Where that fails, the fault is `Write`, after a note.
fn make(rt: &HostRuntime, path: &str) -> Result<(), Fault> {
    match fs::create_dir(rt, path) {
        Ok(()) => Ok(()),
        Err(_) if matches!(fs::metadata(rt, path), Ok(found) if found.is_dir()) => Ok(()),
        Err(error) => Err(write_fault(rt, path, error)),
    }
}

/// Writes a file under the name `part`, and then gives it the name `path`.
fn put_beside(rt: &HostRuntime, part: &str, path: &str, text: &[u8]) -> io::Result<()> {
    fs::write(rt, part, text)?;
    fs::rename(rt, part, path)
}

/// Writes a file under the name `part`, and then gives it the name `path`. Where that fails, the
/// fault is `Write`, after a note, and the file `part` is removed, if the system lets it.
fn write_beside(rt: &HostRuntime, part: &str, path: &str, text: &[u8]) -> Result<(), Fault> {
    match put_beside(rt, part, path, text) {
        Ok(()) => Ok(()),
        Err(error) => {
            let _ = fs::remove_file(rt, part);
            Err(write_fault(rt, path, error))
        }
    }
}

impl<'a> SystemFolder<'a> {
    /// The folder at this path, which need not exist yet.
    pub fn new(rt: &'a HostRuntime, alloc: Global, path: &'a str) -> SystemFolder<'a> {
        SystemFolder {
            rt,
            alloc,
            path,
            is_there: false,
        }
    }
}

impl Folder for SystemFolder<'_> {
    fn put(&mut self, name: &str, text: &[u8]) -> Result<(), Fault> {
        let (alloc, folder) = (self.alloc, self.path);
        if !self.is_there {
            make(self.rt, folder)?;
            self.is_there = true;
        }
        let path = format!(in alloc; "{folder}/{name}")?;
        if holds(self.rt, path.as_str(), text) {
            return Ok(());
        }
        let part = format!(in alloc; "{folder}/.{name}.part")?;
        write_beside(self.rt, part.as_str(), path.as_str(), text)
    }
}
