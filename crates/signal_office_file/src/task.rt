//! A task that an office does, at once or in turns.

use office_desk::office::Office;
use office_http_framing::ends::Sink;
use office_tables_shelf::shelf::Shelf;
use signal_office_faults::Fault;
use std::alloc::Global;
use std::fs::File;

/// A task that an office does, over whichever tables. It may write to an output, and gives an
/// `Outcome` or a fault.
pub trait OfficeTask<Outcome> {
    ghost use Rattle.signal_office_file.specs.Task.{DoesTask, Effect};

    // What the task did to the tables of an office, by the task before and after it, and what a
    // stop may leave of them.
    ghost effect: { Self → Self → Effect Outcome };

    /// Does the task with an office, and gives its outcome, or the fault that ended it. What the
    /// task writes goes to `out`.
    fn done_with<S: Shelf, W: Sink>(
        &mut self,
        rt: &HostRuntime,
        alloc: Global,
        office: &mut Office<S>,
        out: &mut W,
    ) -> Result<Outcome, Fault>
        ensures { DoesTask S.Shelf office.old office.new (effect self.old self.new) result };
}

/// A task that is done in turns with an office, a part in each. Between two turns the file of the
/// office is closed, and another run may open it.
pub trait TakesTurns {
    /// Begins a turn, when the files of the office are open and its database is not yet. A run that
    /// wants the files from now on has a lock on this turn file; without one, no such run can be
    /// seen.
    fn begin_turn(&mut self, turn_file: Option<File>);

    /// Whether the task is done.
    fn is_done(&self) -> bool;

    /// Waits until there is something to do for which the file is needed.
    fn await_work(&mut self);

    /// Answers whoever asks now that the office is unavailable, and waits for nobody else.
    fn answer_unavailable(&mut self, alloc: Global);
}
