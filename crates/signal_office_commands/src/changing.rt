//! Commands that change an office: add an intersection, import records, drop a draft. Each gives
//! the reply of the office, or what is printed of it, or the fault of a refusal.
#![tactic(auto, using(office_desk::proofs::Looks::keeps, office_desk::proofs::Looks::keeps_then))]

ghost use Rattle.std.specs.Prelude.{◌≡◌};
ghost use Rattle.office_desk.specs.Asks.{KeepsOffice};
ghost use Rattle.signal_office_commands.specs.Changing.{AfterImporting, AfterStep, Changes, ChangesShelf, Drops, Imports, RunsCommand, accept_reply};

use crate::counting::push_counts;
use crate::reading::records_in;
use crate::reads::or_fault;
use crate::refused::fault_of;
use office_desk::office::Office;
use office_machine::command::Command;
use office_machine::records::Records;
use office_machine::reply::Reply;
use office_tables_shelf::shelf::Shelf;
use signal_office_faults::{Done, Fault};
use signal_office_line::Name;
use signal_plans::compare;
use signal_records::{InterId, Interval, NoMemory, TimingSet, Words};
use std::alloc::Global;

/// The reply as it is, but for a refusal its fault.
fn accept_reply(reply: Reply) -> Result<Reply, Fault>
    ensures { result ≡ accept_reply reply }
{
    match reply {
        Reply::Refused(why) => Err(fault_of(why)),
        reply => Ok(reply),
    }
}

/// Runs a command, and gives its reply, or the fault for which it is refused.
fn change<S: Shelf>(alloc: Global, office: &mut Office<S>, command: Command) -> Result<Reply, Fault>
    ensures { ChangesShelf S.Shelf office.old office.new
        (λ old new. RunsCommand command old new result) (AfterStep command) }
{
    let reply = office.run(alloc, &command);
    accept_reply(reply)
}

/// Adds an intersection. An existing one stays: the reply is `Same` if its name and interval are
/// these, else the command is refused. The fault is Memory only if nothing was changed.
pub fn add<S: Shelf>(
    alloc: Global,
    office: &mut Office<S>,
    id: InterId,
    interval: Interval,
    name: &Name<'_, 120>,
) -> Result<Reply, Fault>
    ensures { ChangesShelf S.Shelf office.old office.new
        (λ old new. Changes (Command.AddIntersection id interval name.now) old new result)
        (AfterStep (Command.AddIntersection id interval name.now)) }
{
    let name = name.to_words(alloc)?;
    change(
        alloc,
        office,
        Command::AddIntersection { id, interval, name },
    )
}

/// The line of a draft that is dropped: whose it was, and how many rows it changed.
fn dropped_text(
    alloc: Global,
    owner: &Words<40>,
    committed: &TimingSet,
    draft: &TimingSet,
) -> Result<Vec<u8>, NoMemory> {
    let owner = owner.as_str();
    let mut text = format!(in alloc; "abandoned the draft of {owner}: ")?;
    push_counts(&mut text, &compare(alloc, committed, draft)?)?;
    text.push_str("\n")?;
    Ok(text.into_bytes())
}

/// What is printed of the draft of an intersection once it is dropped; the fault if it can't be
/// read.
fn tell_dropped<S: Shelf>(alloc: Global, office: &mut Office<S>, id: InterId) -> Result<Done, Fault>
    ensures { KeepsOffice S.Shelf office.old office.new }
{
    let timing = or_fault(office.timing(alloc, id))?;
    let draft = or_fault(office.draft(alloc, id))?;
    let text = dropped_text(alloc, &draft.owner, &timing.rows, &draft.rows)?;
    Ok(Done::with(text))
}

/// What is printed of a dropped draft; a fixed line if the draft could not be read.
fn or_plain(told: Result<Done, Fault>) -> Done {
    match told {
        Ok(told) => told,
        Err(_) => Done::telling("abandoned\n"),
    }
}

/// Drops the draft of an intersection.
fn drop_draft<S: Shelf>(
    alloc: Global,
    office: &mut Office<S>,
    id: InterId,
    clerk: &Name<'_, 40>,
) -> Result<Reply, Fault>
    ensures { ChangesShelf S.Shelf office.old office.new
        (λ old new. Changes (Command.Abandon id clerk.now) old new result)
        (AfterStep (Command.Abandon id clerk.now)) }
{
    let clerk = clerk.to_words(alloc)?;
    change(alloc, office, Command::Abandon { id, clerk })
}

/// Drops the draft of an intersection, whoever holds it; `clerk` is who asks. What is printed says
/// whose it was and how many rows it changed, if that could be read before. The fault is Memory
/// only if nothing was changed.
pub fn abandon<S: Shelf>(
    alloc: Global,
    office: &mut Office<S>,
    id: InterId,
    clerk: &Name<'_, 40>,
) -> Result<Done, Fault>
    ensures { ChangesShelf S.Shelf office.old office.new
        (λ old new. Drops id clerk.now old new result)
        (AfterStep (Command.Abandon id clerk.now)) }
{
    let told = or_plain(tell_dropped(alloc, office, id));
    match drop_draft(alloc, office, id, clerk) {
        Ok(_reply) => Ok(told),
        Err(why) => Err(why),
    }
}

/// Takes the records of a CSV file into the register in turn, each after those before it: all of
/// them, or none. A record that is there already counts as the same. The fault names the first bad
/// record, or the first that the office refuses.
pub fn import<S: Shelf>(alloc: Global, office: &mut Office<S>, csv: &[u8]) -> Result<Reply, Fault>
    ensures { ChangesShelf S.Shelf office.old office.new
        (λ old new. Imports csv.now old new result) (AfterImporting csv.now) }
{
    let records = Records::new(records_in(alloc, csv)?);
    change(alloc, office, Command::Import { records })
}
