//! A record of the register is decided, where its intersection is there.
ghost use Rattle.std.specs.Prelude.{◌≡◌, false, Ok, IsSome, OnErr, ⊤};
ghost use Rattle.office_tables_decisions.specs.Reads.{OnlyReads, Reports};
ghost use Rattle.office_desk_cabinet.specs.Decides.{reply_taken};
ghost use Rattle.office_desk.specs.{Deciding.Decides, Recording.HasDamagedAbout, Recording.TellsIntersection};
ghost use Rattle.office_machine.specs.Step.{cabinet_of as about_of};

use cabinet_core::RecordCommand;
use office_desk_cabinet::{Pending, Taken, decide_record};
use office_desk_timing::intersection_row;
use office_machine::command::Command;
use office_machine::refusal::Refusal;
use office_machine::reply::Reply;
use office_tables_decisions::decided::Decided;
use office_tables_shelf::shelf::{Shelf, ShelfFault};
use signal_records::InterId;
use std::alloc::Global;

/// The intersection whose cabinet a command is about; a delivery is about none.
pub(crate) fn cabinet_of(command: &RecordCommand) -> Option<InterId>
    ensures { result ≡ about_of command.now }
{
    match command {
        RecordCommand::Inspect { id, .. }
        | RecordCommand::OpenOrder { id, .. }
        | RecordCommand::UsePart { id, .. }
        | RecordCommand::CloseOrder { id, .. } => Some(*id),
        RecordCommand::Receive { .. } => None,
    }
}

/// Whether the intersection is there, by its row; yes where none is asked for, and then no row is
/// read.
pub(crate) fn is_known<S: Shelf>(
    shelf: &mut S,
    alloc: Global,
    about: Option<InterId>,
) -> Result<bool, ShelfFault>
    ensures tells { Reports (S.is_honest shelf.new) result
        (TellsIntersection (S.content shelf.old) about)
        (HasDamagedAbout (S.content shelf.old) about) }
    ensures asked { result ≡ Ok false → IsSome about }
    ensures fault { OnErr result (IsSome about) }
    ensures reads { OnlyReads S.Shelf (IsSome about) result shelf.old shelf.new }
{
    let Some(id) = about else {
        return Ok(true);
    };
    let row = intersection_row(shelf, alloc, id)?;
    Ok(row.is_some())
}

/// The reply to one record that was taken so.
fn reply_to(taken: Taken) -> Reply
    ensures { result ≡ reply_taken taken }
{
    match taken {
        Taken::Added => Reply::Added,
        Taken::Same => Reply::Same,
        Taken::Refused(refusal) => Reply::Refused(refusal),
    }
}

/// Decides a command of the register. Where it is about an intersection that is not there, the
/// reply is UnknownIntersection.
pub(crate) fn decide_record_command<S: Shelf>(
    shelf: &mut S,
    alloc: Global,
    command: &RecordCommand,
) -> Result<Decided, ShelfFault>
    ensures decides { Decides (S.is_honest shelf.new) (S.content shelf.old)
        (Command.Record command.now) result }
    ensures reads { OnlyReads S.Shelf ⊤ result shelf.old shelf.new }
{
    if !is_known(shelf, alloc, cabinet_of(command))? {
        return Ok(Decided::from_refusal(alloc, Refusal::UnknownIntersection));
    }
    let pending = Pending::new(alloc);
    let (taken, changes) = decide_record(shelf, alloc, &pending, command)?;
    let reply = reply_to(taken);
    Ok(Decided { reply, changes })
}
