//! Records of the register that are tried in turn: what would come of each is told, and none is
//! stored.
ghost use Rattle.std.specs.Prelude.{◌≡◌, ◌≢◌, ◌++◌, [], ◌∷◌, IfOk, OnOk};
ghost use Rattle.office_tables_decisions.specs.Reads.{OnlyReads, Reports};
ghost use Rattle.office_desk.specs.{Checking.Checks, Checking.ChecksRecord, Checking.checked_as, Damage.MeetsCabinetDamage, Damage.MeetsImportDamage, Recording.AreFound};
ghost use Rattle.office_machine.specs.Step.{cabinet_of as about_of};

use crate::importing::take_record;
use crate::there::{There, what_is_there};
use cabinet_core::RecordCommand;
use office_desk_cabinet::{Pending, Taken};
use office_machine::refusal::Refusal;
use office_tables_shelf::rows::RowChange;
use office_tables_shelf::shelf::{Shelf, ShelfFault};
use signal_records::{InterId, NoMemory};
use std::alloc::Global;
use std::collections::BTreeSet;

/// What would come of a record of the register, were it taken.
#[derive(Drop)]
pub enum Checked {
    /// The record is new, and would be added.
    Added,
    /// An equal record is there, and nothing would be added.
    Same,
    /// The record would be refused: why, and what the register holds where it meets the record.
    Refused { refusal: Refusal, there: There },
}

/// What would come of a record, by how it was taken and by what is there if it is refused.
fn checked_as(taken: Taken, there: There) -> Checked
    ensures { result ≡ checked_as taken there }
{
    match taken {
        Taken::Added => Checked::Added,
        Taken::Same => Checked::Same,
        Taken::Refused(refusal) => Checked::Refused { refusal, there },
    }
}

/// Tries a record after those whose rows are pending, and gives its own rows. The row of an
/// intersection in `found` is not read again.
fn check_record<S: Shelf>(
    shelf: &mut S,
    alloc: Global,
    found: &mut BTreeSet<InterId>,
    pending: &Pending,
    command: &RecordCommand,
) -> Result<(Checked, Vec<RowChange>), ShelfFault>
    requires { S.is_honest shelf.old → AreFound (S.content shelf.old) found.old }
    ensures found { IfOk result (λ _. S.is_honest shelf.new →
        AreFound (S.content shelf.old) found.new) }
    ensures checks { Reports (S.is_honest shelf.new) result (λ checked.
        ChecksRecord (S.content shelf.old) pending.now command.now checked.0 checked.1.items)
        (MeetsCabinetDamage (S.content shelf.old) command.now (about_of command.now)) }
    ensures reads { OnlyReads S.Shelf (pending.now ≡ []) result shelf.old shelf.new }
{
    let (taken, rows) = take_record(shelf, alloc, found, pending, command)?;
    let there = what_is_there(shelf, alloc, pending, command, taken)?;
    Ok((checked_as(taken, there), rows))
}

/// Adds what would come of a record behind what would come of those before it.
fn keep(checked: &mut Vec<Checked>, one: Checked) -> Result<(), NoMemory>
    ensures { OnOk result (checked.new.items ≡ checked.old.items ++ one ∷ []) }
{
    checked.push(one)?;
    Ok(())
}

/// Tries records in turn, each after those before it that would be taken, and stores none. There is
/// one answer for each record, in their order.
pub(crate) fn check_records<S: Shelf>(
    shelf: &mut S,
    alloc: Global,
    records: &[RecordCommand],
) -> Result<Vec<Checked>, ShelfFault>
    ensures checks { Reports (S.is_honest shelf.new) result
        (λ checked. Checks (S.content shelf.old) records.now checked.items)
        (MeetsImportDamage (S.content shelf.old) records.now) }
    ensures reads { OnlyReads S.Shelf (records.now ≢ []) result shelf.old shelf.new }
{
    let mut found = BTreeSet::new(alloc);
    let mut pending = Pending::new(alloc);
    let mut checked = Vec::new(alloc);
    for command in records {
        let (one, rows) = check_record(shelf, alloc, &mut found, &pending, command)?;
        pending = pending.with(rows)?;
        keep(&mut checked, one)?;
    }
    Ok(checked)
}
