//! Imports: records of the register are taken in turn, each after those before it.
ghost use Rattle.std.specs.Prelude.{◌≡◌, ◌≢◌, [], IfOk, IsOkAnd};
ghost use Rattle.office_tables_decisions.specs.Reads.{OnlyReads, Reports};
ghost use Rattle.office_desk_cabinet.specs.Decides.{WritesRecord};
ghost use Rattle.office_desk.specs.{Damage.MeetsCabinetDamage, Deciding.AddsNothing, Deciding.Decides, Recording.AreFound, Taking.TakesNext};
ghost use Rattle.office_machine.specs.Step.{cabinet_of as about_of};

use crate::found::is_found;
use crate::recording::cabinet_of;
use cabinet_core::RecordCommand;
use office_desk_cabinet::{Pending, Taken, decide_record};
use office_machine::command::Command;
use office_machine::records::Records;
use office_machine::refusal::Refusal;
use office_machine::reply::Reply;
use office_tables_decisions::decided::Decided;
use office_tables_shelf::rows::RowChange;
use office_tables_shelf::shelf::{Shelf, ShelfFault};
use signal_records::InterId;
use std::alloc::Global;
use std::collections::BTreeSet;

/// Takes a record after those whose rows are pending, and gives its own rows; nothing is written.
/// The row of an intersection in `found` is not read again.
pub(crate) fn take_record<S: Shelf>(
    shelf: &mut S,
    alloc: Global,
    found: &mut BTreeSet<InterId>,
    pending: &Pending,
    command: &RecordCommand,
) -> Result<(Taken, Vec<RowChange>), ShelfFault>
    requires { S.is_honest shelf.old → AreFound (S.content shelf.old) found.old }
    ensures found { IfOk result (λ _. S.is_honest shelf.new →
        AreFound (S.content shelf.old) found.new) }
    ensures takes { Reports (S.is_honest shelf.new) result
        (λ taken. TakesNext (S.content shelf.old) pending.now command.now taken.0 taken.1.items)
        (MeetsCabinetDamage (S.content shelf.old) command.now (about_of command.now)) }
    ensures within { IfOk result (λ taken. WritesRecord command.now taken.0 taken.1.items) }
    ensures reads { OnlyReads S.Shelf (pending.now ≡ []) result shelf.old shelf.new }
{
    if !is_found(shelf, alloc, found, cabinet_of(command))? {
        return Ok((
            Taken::Refused(Refusal::UnknownIntersection),
            Vec::new(alloc),
        ));
    }
    let taken = decide_record(shelf, alloc, pending, command)?;
    Ok(taken)
}

/// Decides an import: its records in turn, each after those before it. The first that is refused
/// refuses them all: the reply has its place, counted from 1, and the number of its refusal.
pub(crate) fn decide_import<S: Shelf>(
    shelf: &mut S,
    alloc: Global,
    records: &Records,
) -> Result<Decided, ShelfFault>
    ensures decides { Decides (S.is_honest shelf.new) (S.content shelf.old)
        (Command.Import records.now) result }
    ensures reads { OnlyReads S.Shelf (records.now ≢ []) result shelf.old shelf.new }
    ensures nothing { records.now ≡ [] → IsOkAnd result AddsNothing }
{
    let mut found = BTreeSet::new(alloc);
    let mut pending = Pending::new(alloc);
    let mut added: usize = 0;
    let mut same: usize = 0;
    for (index, command) in records.as_slice().iter().enumerate() {
        let (taken, rows) = take_record(shelf, alloc, &mut found, &pending, command)?;
        match taken {
            Taken::Added => added += 1,
            Taken::Same => same += 1,
            Taken::Refused(refusal) => {
                let at = index + 1;
                let cause = refusal.number();
                let reply = Reply::Refused(Refusal::ImportRow { at, cause });
                return Ok(Decided::all_or_none(alloc, reply, rows));
            }
        }
        pending = pending.with(rows)?;
    }
    let changes = pending.into_changes(alloc)?;
    let reply = Reply::Imported { added, same };
    Ok(Decided::all_or_none(alloc, reply, changes))
}
