//! What a stop leaves of the two files of an office: what was not synced may be lost.

ghost use Rattle.std.specs.Prelude.{IfSome, IsTrue};
ghost use Rattle.sqlite.specs.Files.{file_state, image_of};
ghost use Rattle.sqlite.specs.Held.{AreDatabases};
ghost use Rattle.sqlite.specs.State.{HasCleanDisk};
ghost use Rattle.sqlite.specs.Tree.{Trees};
ghost use Rattle.sqlite.specs.WalReads.{AreClean};
ghost use Rattle.sqlite_store.specs.FileStore.{recovers, view};
ghost use Rattle.sqlite_trees.specs.View.{IsClean};
ghost use Rattle.office_tables.specs.Content.{Content};
ghost use Rattle.office_tables.specs.SqlShelf.{IsCurrent};
ghost use Rattle.signal_office_file.specs.Files.{AreThoseOf, HoldIn};
ghost use Rattle.signal_office_file.specs.Left.{IsCleanFile, LeavesDatabases, MayLeaveOf};
ghost use Rattle.office_lives.specs.Life.{IsNumbered};

use signal_office_file::{FileLeft, FileOffice};
use sqlite::{Connection, FileStore};
use sqlite_disk::{Crash, Files};

/// The files of a store after a stop, as the next run finds them.
fn crash_files<D: Crash + Drop>(store: FileStore<D>) -> Files<D>
    ensures clean { AreClean D.Disk result.log result.db → IsClean (view store) }
    // On a clean disk, an opening finds in the files only trees that a stop may leave of the store,
    // if its trees are numbered in its schema and a stop leaves only databases.
    ensures found { AreClean D.Disk result.log result.db → IsTrue (view store).is_numbered →
        AreDatabases (recovers store) → (trees : Trees) →
        AreThoseOf (image_of D.Disk result) trees → ∥ recovers store trees ∥₁ }
{
    let Files { mut log, mut db } = store.close();
    log.crash();
    db.crash();
    Files { log, db }
}

/// The files of a connection after a stop, as the next run finds them.
fn cut_off<D: Crash + Drop>(conn: Connection<FileStore<D>>) -> Files<D>
    ensures clean { AreClean D.Disk result.log result.db → HasCleanDisk (file_state conn) }
    ensures found { AreClean D.Disk result.log result.db → (trees : Trees) →
        AreThoseOf (image_of D.Disk result) trees → ∥ (file_state conn).may_leave trees ∥₁ }
{
    crash_files(conn.into_store())
}

/// Stops an office, at whichever call its disk fell silent, and gives its files as the next run
/// finds them.
pub(crate) fn stop_office<D: Crash + Drop>(office: FileOffice<D>) -> Files<D>
    ensures clean { AreClean D.Disk result.log result.db →
        HasCleanDisk (file_state office.conn) }
    // On a clean disk, an opening finds in the files only trees that a stop may leave of the
    // office.
    ensures found { AreClean D.Disk result.log result.db → (trees : Trees) →
        AreThoseOf (image_of D.Disk result) trees →
        ∥ (file_state office.conn).may_leave trees ∥₁ }
    ensures current { IsCurrent (file_state office.conn) }
{
    cut_off(office.into_shelf().into_file_conn())
}

/// The files of a database that could not be closed, as the next run finds them after the process
/// ended. `None` says that no such database is left.
pub(crate) fn abandon_files<D: Crash + Drop>(left: FileLeft<D>) -> Option<Files<D>>
    ensures clean { IfSome result (λ files. AreClean D.Disk files.log files.db →
        IsCleanFile left) }
    ensures found { IfSome result (λ files. AreClean D.Disk files.log files.db →
        LeavesDatabases left → IsNumbered left → (tables : Content) →
        HoldIn (image_of D.Disk files) tables → ∥ MayLeaveOf left tables ∥₁) }
{
    let back = left.database()?;
    match back {
        Ok(conn) => Some(cut_off(conn)),
        Err(store) => Some(crash_files(store)),
    }
}
