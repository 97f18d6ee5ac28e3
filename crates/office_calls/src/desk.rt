//! `office_desk`: commands and replies by their fields, and the calls of an office.

use crate::cabinet::{
    at, first_of_may, make_closing, make_delivery, make_inspection, make_line, make_opening,
};
use crate::records::{changes, make_words};
use draft_core::{Changes, DbState, Verdict};
use office_desk::decided::Decided;
use office_desk::office::Office;
use office_desk::{Command, RecordCommand, Refusal, Reply};
use office_tables_maps::map_shelf::MapShelf;
use office_tables_shelf::rows::Table;
use office_tables_shelf::shelf::Shelf;
use signal_records::{InterId, Listing, Words};
use std::alloc::Global;
use std::test::Fail;

/// A clerk.
fn clerk(alloc: Global) -> Result<Words<40>, Fail> {
    make_words(alloc, "Ana")
}

/// Adds an intersection.
fn addition(alloc: Global) -> Result<Command, Fail> {
    let at = at()?;
    let name = make_words(alloc, "Main St")?;
    Ok(Command::AddIntersection {
        id: at.id,
        interval: at.interval,
        name,
    })
}

/// Changes a draft.
fn edit(alloc: Global, id: InterId) -> Result<Command, Fail> {
    let clerk = clerk(alloc)?;
    let changes = Changes::new(changes(alloc)?);
    Ok(Command::Edit { id, clerk, changes })
}

/// The steps of a transaction, which is taken back and dropped.
fn steps(alloc: Global, id: InterId) -> Result<Vec<Command>, Fail> {
    let mut commands = Vec::new(alloc);
    let clerk = clerk(alloc)?;
    commands.push(Command::Begin {
        id,
        clerk: clerk.clone()?,
    })?;
    commands.push(edit(alloc, id)?)?;
    commands.push(Command::Verify {
        id,
        clerk: clerk.clone()?,
    })?;
    commands.push(Command::Check {
        id,
        clerk: clerk.clone()?,
    })?;
    commands.push(Command::Commit {
        id,
        clerk: clerk.clone()?,
    })?;
    commands.push(Command::Reopen {
        id,
        clerk: clerk.clone()?,
    })?;
    commands.push(Command::Abandon { id, clerk })?;
    Ok(commands)
}

/// The commands of the register.
fn records(alloc: Global, id: InterId) -> Result<Vec<Command>, Fail> {
    let mut commands = Vec::new(alloc);
    let order = at()?.number;
    commands.push(Command::inspect(id, make_inspection(alloc)?))?;
    commands.push(Command::open_order(id, make_opening(alloc)?))?;
    commands.push(Command::receive(make_delivery(alloc)?))?;
    commands.push(Command::use_part(id, make_line(alloc)?))?;
    commands.push(Command::close_order(id, order, make_closing(alloc)?))?;
    let mut again = Vec::new(alloc);
    let inspection = make_inspection(alloc)?;
    again.push(RecordCommand::Inspect { id, inspection })?;
    let records = Listing::new(again);
    commands.push(Command::Import { records })?;
    Ok(commands)
}

/// The queries.
fn queries(alloc: Global, id: InterId) -> Result<Vec<Command>, Fail> {
    let mut commands = Vec::new(alloc);
    let day = first_of_may()?;
    commands.push(Command::State { id })?;
    commands.push(Command::Timing { id })?;
    commands.push(Command::Draft { id })?;
    commands.push(Command::Cabinet { id })?;
    commands.push(Command::OpenOrders { id })?;
    commands.push(Command::Stock)?;
    commands.push(Command::Overdue { day })?;
    Ok(commands)
}

/// What a reply is; a refusal by its name.
fn kind(reply: &Reply) -> &'static str {
    match reply {
        Reply::Added => "added",
        Reply::Same => "same",
        Reply::Moved {
            revision: _,
            state: DbState::Done,
            verdict: Verdict::DoneWithError,
        } => "checked",
        Reply::Moved { .. } => "moved",
        Reply::Imported { added: 0, same: 1 } => "imported",
        Reply::Imported { .. } => "another import",
        Reply::State(_) => "state",
        Reply::Timing(_) => "timing",
        Reply::Draft(_) => "draft",
        Reply::Cabinet(_) => "cabinet",
        Reply::OpenOrders(_) => "orders",
        Reply::Stock(_) => "stock",
        Reply::Overdue(_) => "overdue",
        Reply::Refused(refusal) => refusal.name(),
    }
}

/// The replies to commands, each after a blank.
fn replies<S: Shelf>(
    alloc: Global,
    office: &mut Office<S>,
    commands: &[Command],
) -> Result<String, Fail> {
    let mut kinds = String::new(alloc);
    let replies: Vec<Reply> = office.run_all(alloc, commands)?;
    for reply in &replies {
        kinds.push(' ')?;
        kinds.push_str(kind(reply))?;
    }
    Ok(kinds)
}

/// Decides a command, makes its changes, and runs it again. Gives how many changes it made, and
/// what the second reply is.
fn decide_and_run<S: Shelf>(
    alloc: Global,
    office: &mut Office<S>,
) -> Result<(usize, &'static str), Fail> {
    let command = addition(alloc)?;
    let made: Decided = office.decide(alloc, &command);
    let count = made.changes.len();
    office.apply(alloc, &made.changes)?;
    let again: Reply = office.run(alloc, &command);
    Ok((count, kind(&again)))
}

#[test]
fn desk(rt: HostRuntime) -> Result<(), Fail> {
    let alloc = rt.alloc();
    let id = at()?.id;
    let mut office: Office<MapShelf> = Office::new(MapShelf::new(alloc));
    assert_eq!(rt; decide_and_run(alloc, &mut office)?, (1, "same"));
    let came = replies(alloc, &mut office, &steps(alloc, id)?)?;
    assert_eq!(rt;
        came.as_str(),
        " moved moved moved checked VerifyFailed moved moved"
    );
    let came = replies(alloc, &mut office, &records(alloc, id)?)?;
    assert_eq!(rt; came.as_str(), " added added added added added imported");
    let came = replies(alloc, &mut office, &queries(alloc, id)?)?;
    let wanted = " state timing NotTransaction cabinet orders stock overdue";
    assert_eq!(rt; came.as_str(), wanted);
    assert_eq!(rt; Refusal::UnknownIntersection.number(), 10);
    let shelf: MapShelf = office.into_shelf();
    // one for the addition, and one for each of six moves
    assert_eq!(rt; shelf.writes(Table::Intersection), 7);
    Ok(())
}
