//! A task that is done in turns over a file, as a server serves its streams: between two turns the
//! file is closed, and another run may open it.

ghost use Rattle.std.specs.Prelude.{◌≡◌, ◌∷◌, ◌+◌, ◌-◌, [], IfOk, IfSome};
ghost use Rattle.sqlite.specs.Files.{image_of};
ghost use Rattle.sqlite.specs.WalReads.{AreClean};
ghost use Rattle.office_http.specs.Listening.{ConnectionState};
ghost use Rattle.office_tables.specs.Content.{Content};
ghost use Rattle.signal_office_file.specs.Files.{HoldIn, KeepTables};
ghost use Rattle.office_lives.specs.Life.{Life, command};
ghost use Rattle.office_lives.specs.Turns.{DoneInTurns, ServesWhole, state_in, turn};

use crate::commands::done_once;
use office_desk::office::Office;
use office_http::{Buffer, Part, ServeFault, Sink, Source, serve_buffered};
use office_tables_shelf::shelf::Shelf;
use signal_office_faults::Fault;
use signal_office_file::OfficeTask;
use sqlite_disk::{Disk, Files};
use std::alloc::Global;

/// Does a task for a turn and then for `more` turns over the tables in the two files, as a server
/// takes its turns: the files are closed after each, and those that came back are opened for the
/// next. `None` says that in one of the turns they were refused or could not be closed.
pub fn done_in_turns<D: Disk + Drop, Given: Drop, T: OfficeTask<Given>, O: Sink>(
    rt: &HostRuntime,
    alloc: Global,
    files: Files<D>,
    task: &mut T,
    out: &mut O,
    more: u32,
) -> Option<Files<D>>
    ensures { IfSome result (λ back. AreClean D.Disk back.log back.db →
        DoneInTurns T.effect D.Disk (more + 1) files back task.old task.new) }
{
    let (_done, mut files) = done_once(rt, alloc, files, task, out)?;
    let mut left = more;
    while left > 0 {
        let (_done, back) = done_once(rt, alloc, files, task, out)?;
        files = back;
        left -= 1;
    }
    Some(files)
}

/// A stream that is served in turns: its ends, and what is kept of it from one turn to the next.
#[derive(Drop)]
pub struct InTurns<R, W> {
    pub reader: R,
    pub writer: W,
    /// What was read of requests that were not answered yet.
    pub buffer: Buffer,
    /// How many requests may still come.
    pub left: u32,
}

/// How many requests may follow a part, if `left` were allowed before it; none after a fault of an
/// end.
fn left_after(left: u32, outcome: &Result<Part, ServeFault>) -> u32
    ensures { IfOk outcome.now (λ part. result ≡ left - part.requests) }
{
    match outcome {
        Ok(part) => left.saturating_sub(part.requests),
        Err(_) => 0,
    }
}

impl<R: Source, W: Sink> OfficeTask<Result<Part, ServeFault>> for InTurns<R, W> {
    ghost use Rattle.office_lives.specs.Turns.{turn_effect};

    ghost effect = { turn_effect R.told W.told };

    fn done_with<S: Shelf, O: Sink>(
        &mut self,
        _rt: &HostRuntime,
        alloc: Global,
        office: &mut Office<S>,
        _out: &mut O,
    ) -> Result<Result<Part, ServeFault>, Fault> {
        let reader = &mut self.reader;
        let writer = &mut self.writer;
        let outcome = serve_buffered(alloc, office, &mut self.buffer, reader, writer, self.left);
        self.left = left_after(self.left, &outcome);
        Ok(outcome)
    }
}

/// The result of a turn of a stream: a fault of the ends is no fault of the turn.
pub type TurnOutcome = Result<Result<Part, ServeFault>, Fault>;

/// How the two turns of a stream ended, what the task between them gave, and the files, closed
/// after each of the three.
#[derive(Drop)]
pub struct TwoTurns<D: Disk, Given> {
    pub first: TurnOutcome,
    pub done: Result<Given, Fault>,
    pub second: TurnOutcome,
    pub files: Files<D>,
}

/// Serves a stream in two turns over the tables in the two files, with a task of another run
/// between them, each as a server does a turn and a command its task. The files are closed after
/// each, and those that came back are opened for the next. `None` says that at one of these steps
/// they were refused or could not be closed.
pub fn served_in_turns<
    D: Disk + Drop,
    Given: Drop,
    T: OfficeTask<Given>,
    R: Source,
    W: Sink,
    O: Sink,
>(
    rt: &HostRuntime,
    alloc: Global,
    files: Files<D>,
    stream: &mut InTurns<R, W>,
    task: &mut T,
    out: &mut O,
) -> Option<TwoTurns<D, Given>>
    // On a clean disk, the first part was answered over the tables that the files held, and the
    // second one, which begins with the bytes that the first one kept, over those that the task
    // left. The law of the cut: if the first part paused and the task changed nothing, both are
    // one part, with the answers and the tables of one run of the office.
    ensures { IfSome result (λ it. AreClean D.Disk it.files.log it.files.db →
        (old : Content) × (last : Content) × (middle : ConnectionState)
        × HoldIn (image_of D.Disk files) old
        × Life D.Disk old
        (turn (state_in R.told W.told stream.old) middle it.first
        ∷ command (λ found made. (T.effect task.old task.new).does found it.done made)
        ∷ turn middle (state_in R.told W.told stream.new) it.second ∷ []) last
        × KeepTables D.Disk it.files last
        × ServesWhole (T.effect task.old task.new) (state_in R.told W.told stream.old)
        (state_in R.told W.told stream.new) old it.first it.second last) }
{
    let (first, files) = done_once(rt, alloc, files, stream, out)?;
    let (done, files) = done_once(rt, alloc, files, task, out)?;
    let (second, files) = done_once(rt, alloc, files, stream, out)?;
    Some(TwoTurns {
        first,
        done,
        second,
        files,
    })
}
