//! A command of any kind is decided over a shelf.
ghost use Rattle.std.specs.Prelude.{◌≡◌, ◌≢◌, [], IsOkAnd, MatchResult};
ghost use Rattle.office_tables_decisions.specs.Reads.{OnlyReads};
ghost use Rattle.office_desk.specs.Deciding.{AddsNothing, Decides};
ghost use Rattle.office_desk_timing.specs.Decisions.{refusal_of};

use crate::importing::decide_import;
use crate::recording::decide_record_command;
use crate::register_showing::{decide_cabinet, decide_open_orders, decide_overdue, decide_stock};
use draft_core::step::Step;
use office_desk_timing::{decide_add, decide_draft, decide_state, decide_timing, transact};
use office_machine::command::Command;
use office_machine::refusal::Refusal;
use office_machine::reply::Reply;
use office_tables_decisions::decided::Decided;
use office_tables_shelf::shelf::{Shelf, ShelfFault};
use std::alloc::Global;

/// A fault of the shelf as a refusal: Damaged where a stored row is no record, else Unavailable.
pub(crate) fn shelf_refusal(fault: ShelfFault) -> Refusal
    ensures { result ≡ refusal_of fault }
{
    match fault {
        ShelfFault::NoMemory | ShelfFault::Store => Refusal::Unavailable,
        ShelfFault::Damaged => Refusal::Damaged,
    }
}

/// What was decided; or, for a fault of the shelf, its refusal, for which nothing is written.
pub(crate) fn or_refusal(alloc: Global, decided: Result<Decided, ShelfFault>) -> Decided
    ensures { MatchResult decided (λ made. result ≡ made)
        (λ fault. (result.reply ≡ Reply.Refused (refusal_of fault))
        × (result.changes.items ≡ [])) }
{
    match decided {
        Ok(decided) => decided,
        Err(fault) => Decided::from_refusal(alloc, shelf_refusal(fault)),
    }
}

/// Decides a command by its kind: the reply, and the rows to be written.
pub(crate) fn try_decide<S: Shelf>(
    shelf: &mut S,
    alloc: Global,
    command: &Command,
) -> Result<Decided, ShelfFault>
    ensures decides { Decides (S.is_honest shelf.new) (S.content shelf.old) command.now result }
    ensures reads { OnlyReads S.Shelf (command.now ≢ Command.Import []) result shelf.old shelf.new }
    ensures nothing { command.now ≡ Command.Import [] → IsOkAnd result AddsNothing }
{
    match command {
        Command::AddIntersection { id, interval, name } => {
            decide_add(shelf, alloc, *id, *interval, name)
        }
        Command::Begin { id, clerk } => transact(shelf, alloc, *id, clerk, &Step::Begin),
        Command::Edit { id, clerk, changes } => {
            transact(shelf, alloc, *id, clerk, &Step::edit(changes))
        }
        Command::Verify { id, clerk } => transact(shelf, alloc, *id, clerk, &Step::Verify),
        Command::Check { id, clerk } => transact(shelf, alloc, *id, clerk, &Step::Check),
        Command::Commit { id, clerk } => transact(shelf, alloc, *id, clerk, &Step::Commit),
        Command::Reopen { id, clerk } => transact(shelf, alloc, *id, clerk, &Step::Reopen),
        Command::Abandon { id, clerk } => transact(shelf, alloc, *id, clerk, &Step::Abandon),
        Command::State { id } => decide_state(shelf, alloc, *id),
        Command::Timing { id } => decide_timing(shelf, alloc, *id),
        Command::Draft { id } => decide_draft(shelf, alloc, *id),
        Command::Record(command) => decide_record_command(shelf, alloc, command),
        Command::Import { records } => decide_import(shelf, alloc, records),
        Command::Cabinet { id } => decide_cabinet(shelf, alloc, *id),
        Command::OpenOrders { id } => decide_open_orders(shelf, alloc, *id),
        Command::Stock => decide_stock(shelf, alloc),
        Command::Overdue { day } => decide_overdue(shelf, alloc, *day),
    }
}
