//! Database files in memory, work that is done over them, and work that stops at each call of the
//! log and then of the tables, with what is found after it.

ghost use Rattle.std.specs.Prelude.{IfOk};
ghost use Rattle.sqlite.specs.Files.{file_state};
ghost use Rattle.sqlite.specs.Held.{state};
ghost use Rattle.office_tables.specs.Arranged.{IsArrangedIfClean};

use crate::asking::{Bench, Script, answers_to, copy, count_answered, same, script_of, state_of};
use crate::worked::play_all;
use office_desk::office::Office;
use office_tables::open::{Left, OpenFault};
use office_tables::sql_shelf::SqlShelf;
use office_tables_shelf::shelf::Shelf;
use sqlite::{Alter, Connection, FileStore, Options};
use sqlite_disk::{Crash, Disk, Files, Fuse, Memory};
use std::process::Abort;

/// The two files.
type Pair = Files<Fuse<Memory>>;

/// A file with these bytes, which stay after a crash, that stops after so many calls.
fn file(rt: &Bench<impl Abort>, bytes: &[u8], calls: u64) -> Fuse<Memory> {
    let mut file = Memory::new(rt.1);
    assert!(rt; file.may_be_used(), "a file in memory");
    assert!(rt; file.write_at(0, bytes).is_ok(), "a file in memory");
    assert!(rt; file.may_be_used(), "a file in memory");
    assert!(rt; file.sync().is_ok(), "a file in memory");
    Fuse::new(file, calls)
}

/// The files of a database with these bytes. Its log or its tables stop after so many calls.
fn files_of(rt: &Bench<impl Abort>, log: &[u8], db: &[u8], is_log: bool, calls: u64) -> Pair {
    Files {
        log: file(rt, log, if is_log { calls } else { u64::MAX }),
        db: file(rt, db, if is_log { u64::MAX } else { calls }),
    }
}

/// The files after a crash, which loses all that was not synced.
fn crash<D: Crash>(mut left: Files<D>) -> Files<D> {
    left.log.crash();
    left.db.crash();
    left
}

/// What is done over files.
#[derive(Clone, Copy)]
pub(crate) enum Work<'a> {
    /// An office shows all that it holds.
    Show,
    /// An office serves these requests as one stream.
    Serve(&'a [&'a str]),
    /// An office makes the script in each way, by reads of so many bytes at most.
    Script(&'a Script, usize),
    /// The tables of a new office become tables of version 1, with rows.
    Age,
    /// Tables of version 1, with those rows, become today's.
    Migrate,
}

/// What tables of version 1 show, and what a migration shows when it is done.
const OLD: &[u8] = b"version 1";

const MIGRATED: &[u8] = b"migrated";

/// What turns the tables of a new office into those of version 1: with a phase, and a clerk's draft
/// of it.
const AGE: &str = "UPDATE office_version SET version = 1;
INSERT INTO intersection VALUES (12, 'Main St', 365, 1, 1, 'Ana');
INSERT INTO timing VALUES (12, 1, 2, 0, 'phase,2,1,8,20,40,40,15,,7,12,490,60,0');
INSERT INTO draft VALUES (12, 1, 2, 0, 'phase,2,1,8,20,40,40,15,,7,12,480,60,0')";

/// Makes the tables of a new office in a database, and turns them into those of version 1.
fn with_old_tables<S: Alter + Drop>(rt: &Bench<impl Abort>, conn: Connection<S>) -> Connection<S> {
    let shelf = SqlShelf::open(rt.1, conn).ok();
    let mut conn = shelf.expect(rt, "new tables").into_conn();
    assert!(rt; conn.execute_batch(AGE).is_ok(), "tables of version 1");
    conn
}

/// Serves a stream or makes a script by an office, and gives what it shows.
fn shown_by<S: Shelf>(rt: &Bench<impl Abort>, office: &mut Office<S>, work: Work<'_>) -> Vec<u8> {
    match work {
        Work::Show => state_of(rt, office),
        Work::Serve(requests) => answers_to(rt, office, requests),
        Work::Script(script, most) => play_all(rt, office, script, most),
        _ => Vec::new(rt.1),
    }
}

/// What is shown by an office over a shelf, and its database.
fn show_all<S: Alter + Drop>(
    rt: &Bench<impl Abort>,
    shelf: SqlShelf<S>,
    work: Work<'_>,
) -> (Vec<u8>, Connection<S>) {
    let mut office = Office::new(shelf);
    let shown = shown_by(rt, &mut office, work);
    (shown, office.into_shelf().into_conn())
}

/// What is shown by the office over the tables of a database.
fn show_over<S: Alter + Drop>(
    rt: &Bench<impl Abort>,
    conn: Connection<S>,
    work: Work<'_>,
) -> (Vec<u8>, Left<S>)
    requires { IsArrangedIfClean (state S.Store conn) }
{
    match SqlShelf::open_arranged(rt.1, conn) {
        Ok(shelf) => {
            let (shown, conn) = show_all(rt, shelf, work);
            (shown, Ok(conn))
        }
        Err((fault, left)) => {
            let is_old = matches!(fault, OpenFault::Version);
            (copy(rt, if is_old { OLD } else { b"" }), left)
        }
    }
}

/// Does work over the tables of a database, and gives what that shows.
fn work_over<S: Alter + Drop>(
    rt: &Bench<impl Abort>,
    mut conn: Connection<S>,
    work: Work<'_>,
) -> (Vec<u8>, Left<S>)
    requires { IsArrangedIfClean (state S.Store conn) }
{
    match work {
        Work::Age => (Vec::new(rt.1), Ok(with_old_tables(rt, conn))),
        Work::Migrate => {
            let is_done = SqlShelf::migrate(rt.1, &mut conn).is_ok();
            (copy(rt, if is_done { MIGRATED } else { b"" }), Ok(conn))
        }
        _ => show_over(rt, conn, work),
    }
}

/// The database in these files, which is made where they are empty, or the files.
fn database<D: Disk + Drop>(
    rt: &Bench<impl Abort>,
    files: Files<D>,
) -> Result<Connection<FileStore<D>>, Files<D>>
    ensures { IfOk result (λ conn. IsArrangedIfClean (file_state conn)) }
{
    let mut options = Options::new(1);
    options.cache_pages = 64;
    assert!(rt; files.may_be_used(), "files that may be used");
    match Connection::open_files(rt.1, files, options) {
        Ok(conn) => Ok(conn),
        Err((_error, left)) => Err(left.into_files()),
    }
}

/// Closes a database. Gives whether that was done, and its files.
fn close<D: Disk + Drop>(left: Left<FileStore<D>>) -> (bool, Files<D>) {
    match left {
        Ok(conn) => match conn.close_files() {
            Ok(files) => (true, files),
            Err((_error, store)) => (false, store.close()),
        },
        Err(store) => (false, store.close()),
    }
}

/// Does work over files, and closes them. Gives what was shown, whether they closed, and the files.
fn over_files<D: Disk + Drop>(
    rt: &Bench<impl Abort>,
    files: Files<D>,
    work: Work<'_>,
) -> (Vec<u8>, bool, Files<D>) {
    let conn = match database(rt, files) {
        Ok(conn) => conn,
        Err(files) => return (Vec::new(rt.1), false, files),
    };
    let (shown, left) = work_over(rt, conn, work);
    let (is_closed, files) = close(left);
    (shown, is_closed, files)
}

/// What work over files of these bytes shows, and the bytes of the closed file then.
pub(crate) fn after(rt: &Bench<impl Abort>, start: &[u8], work: Work<'_>) -> (Vec<u8>, Vec<u8>) {
    let files = files_of(rt, b"", start, true, u64::MAX);
    let (shown, is_closed, files) = over_files(rt, files, work);
    assert!(rt; is_closed, "files that are closed");
    (shown, copy(rt, files.db.inner().bytes()))
}

/// The files must hold what they did before the step that was stopped, or after it.
fn are_whole(rt: &Bench<impl Abort>, files: Pair, script: &Script, done: usize) {
    let (seen, ..) = over_files(rt, files, Work::Show);
    let before = script.states.get(done).expect(rt, "a state");
    let after = script.states.get(done.saturating_add(1)).unwrap_or(before);
    if seen.as_slice() != before.as_slice() {
        same(rt, "files after a stop", after, &seen);
    }
}

/// Stops the log or the tables, which begin with these bytes, at each call in turn, until all work
/// is done before the stop. The files are opened again with all that was written, and then with
/// only what was synced.
fn stop_each(rt: &Bench<impl Abort>, start: &[u8], work: Work<'_>, script: &Script, is_log: bool) {
    let mut stopped = 0u64;
    for calls in 0..10_000u64 {
        let files = files_of(rt, b"", start, is_log, calls);
        let (shown, is_closed, left) = over_files(rt, files, work);
        let done = count_answered(rt, script, &shown);
        let (log, db) = (left.log.inner().bytes(), left.db.inner().bytes());
        are_whole(rt, files_of(rt, log, db, true, u64::MAX), script, done);
        are_whole(rt, crash(left), script, done);
        if is_closed && done == script.answers.len() {
            break;
        }
        stopped = stopped.saturating_add(1);
    }
    assert!(rt; stopped > 0 && stopped < 10_000, "{stopped} stops");
}

/// Stops the log, and then the tables, while the first `count` requests are served over these
/// tables.
fn stop_stream(rt: &Bench<impl Abort>, start: &[u8], count: usize) {
    let script = script_of(rt, count);
    let work = Work::Serve(&script.requests);
    stop_each(rt, start, work, &script, true);
    stop_each(rt, start, work, &script, false);
}

/// Stops a stream over empty files that adds and shows an intersection and begins a transaction;
/// and one over new tables that also commits a plan, abandons a draft, and imports records.
#[test]
fn streams_are_stopped(host: HostRuntime) {
    let rt = (&host, host.alloc());
    stop_stream(&rt, b"", 3);
    let (_, new) = after(&rt, b"", Work::Serve(&[]));
    stop_stream(&rt, &new, 11);
}

#[test]
fn a_migration_is_stopped(host: HostRuntime) {
    let rt = (&host, host.alloc());
    let (_, old) = after(&rt, b"", Work::Age);
    let (_, migrated) = after(&rt, &old, Work::Migrate);
    let (seen, _) = after(&rt, &migrated, Work::Show);
    let mut script = script_of(&rt, 0);
    let answers = &mut script.answers;
    answers.push(copy(&rt, MIGRATED)).expect(&rt, "memory");
    script.states = Vec::new(rt.1);
    script.states.push(copy(&rt, OLD)).expect(&rt, "memory");
    script.states.push(seen).expect(&rt, "memory");
    stop_each(&rt, &old, Work::Migrate, &script, true);
    stop_each(&rt, &old, Work::Migrate, &script, false);
}
