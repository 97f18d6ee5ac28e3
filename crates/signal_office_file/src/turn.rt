//! The turn file beside the file of an office. A run that wants the office locks the turn file,
//! waits until the office is free, opens it, and gives up the turn. So the runs that wait get the
//! office one by one, and the run that has it can see that another one waits. The system releases a
//! lock when its process ends.

use std::fs::{self, File, Metadata, OpenOptions, Permissions, TryLockError};
use std::io::{self, ErrorKind};
use std::os::unix::fs::{MetadataExt, OpenOptionsExt, PermissionsExt, fchown};

/// The mode of a turn file that is made before the file of its office.
const MODE: u32 = 0o644;

/// Makes an empty turn file, with the mode, owner and group of the file of the office, if there is
/// one, as far as the system grants them. The error is `AlreadyExists` if something is there.
fn make_file(rt: &HostRuntime, path: &str, office: Option<Metadata>) -> io::Result<()> {
    let mode = match &office {
        Some(found) => found.mode() & 0o777,
        None => MODE,
    };
    let file = OpenOptions::new()
        .write(true)
        .create_new(true)
        .mode(mode)
        .open(rt, path)?;
    if let Some(found) = office {
        let _ = fchown(&file, None, Some(found.gid()));
        let _ = fchown(&file, Some(found.uid()), None);
        file.set_permissions(Permissions::from_mode(mode))?;
    }
    Ok(())
}

/// Opens a turn file, which is made where it is missing. Only a plain file is opened.
fn open_or_make(rt: &HostRuntime, path: &str, office: Option<Metadata>) -> io::Result<File> {
    let _ = make_file(rt, path, office);
    if fs::symlink_metadata(rt, path)?.is_file() {
        File::open(rt, path)
    } else {
        Err(io::Error::from(ErrorKind::Unsupported))
    }
}

/// The turn file of the file at a path. If the path is a link, it is beside the file that the link
/// leads to.
fn turn_file_at(rt: &HostRuntime, path: &str) -> io::Result<File> {
    let real = match fs::canonicalize(rt, path) {
        Ok(real) => real,
        Err(error) if error.kind() == ErrorKind::NotFound => {
            let turn = format!(in rt.alloc(); "{path}-turn")?;
            return open_or_make(rt, turn.as_str(), None);
        }
        Err(error) => return Err(error),
    };
    let office = fs::metadata(rt, real.as_str())?;
    if !office.is_file() {
        return Err(io::Error::from(ErrorKind::Unsupported));
    }
    let turn = format!(in rt.alloc(); "{}-turn", real.as_str())?;
    open_or_make(rt, turn.as_str(), Some(office))
}

/// The turn of a run at the file of an office. Where there can be no turn file, as beside a path
/// that is no plain file, nobody waits for anybody.
#[derive(Drop)]
pub(crate) struct Turn {
    file: Option<File>,
}

impl Turn {
    /// The turn at the file at a path, which this run does not have yet.
    pub(crate) fn at(rt: &HostRuntime, path: &str) -> Turn {
        match turn_file_at(rt, path) {
            Ok(file) => Turn { file: Some(file) },
            Err(_) => Turn { file: None },
        }
    }

    /// Tries to take the turn, and says whether another run has it.
    pub(crate) fn is_taken(&self) -> bool {
        match &self.file {
            Some(file) => matches!(file.try_lock(), Err(TryLockError::WouldBlock)),
            None => false,
        }
    }

    /// Gives up the turn.
    pub(crate) fn let_go(&self) {
        if let Some(file) = &self.file {
            let _ = file.unlock();
        }
    }

    /// The turn file, by which its holder sees that another run waits.
    pub(crate) fn into_file(self) -> Option<File> {
        self.file
    }
}
