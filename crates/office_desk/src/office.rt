//! The office over a shelf: it decides and runs commands, and answers what pages and files ask.
ghost use Rattle.std.specs.Prelude.{◌≡◌, ℕ, ◌<◌, ◌≤◌, ◌+◌, [], ◌∷◌, ◌++◌, filter, map, take, IfOk, OnErr, vec_len, vec_capacity};
ghost use Rattle.cabinet_core.specs.{Orders.is_open, Overdue.listed_of, Register.records_at};
ghost use Rattle.office_tables_shelf.specs.{CabinetReads.HasAnyDamagedOrder, Damage.HasAnyDamagedIntersection, OpenOrders.orders_in};
ghost use Rattle.office_desk.specs.{Asks.Gives, Asks.OnlyLooks, Checking.Checks, Damage.MeetsDamage, Damage.MeetsImportDamage, Editing.EditsPlan, StandFor.StandForSound};
ghost use Rattle.office_desk.specs.Running.{CarriesOut, IsAnswerTo, IsRun, MakesTables, RunsAny, AppliesRows};
ghost use Rattle.office_desk_timing.specs.Listing.{ListsEachIntersection};
ghost use Rattle.office_machine.specs.{Listed.intersections_of, Office.Office as OfficeState, Step.overdue_on};

use crate::checking::{Checked, check_records};
use crate::deciding::{or_refusal, shelf_refusal, try_decide};
use cabinet_core::{Day, Order, OverdueRow, RecordCommand};
use office_desk_timing::{PlanEdit, decide_revision, list_intersections};
use office_machine::command::Command;
use office_machine::intersections::ListedIntersection;
use office_machine::refusal::Refusal;
use office_machine::reply::Reply;
use office_tables_decisions::decided::Decided;
use office_tables_shelf::rows::RowChange;
use office_tables_shelf::shelf::{Shelf, ShelfFault};
use signal_records::{InterId, NoMemory, Words};
use std::alloc::Global;
use std::collections::BTreeMap;
use std::marker::Model;

/// Adds a reply behind the others, in room that was taken before.
fn add_reply(replies: &mut Vec<Reply>, reply: Reply)
    requires { vec_len replies.old < vec_capacity replies.old }
    ensures items { replies.new.items ≡ replies.old.items ++ reply ∷ [] }
    ensures len { vec_len replies.new ≡ vec_len replies.old + 1 }
    ensures room { vec_capacity replies.old ≤ vec_capacity replies.new }
{
    let _fits = replies.push(reply);
}

/// An office whose tables a shelf stores. Contracts see it as that shelf.
#[derive(Drop)]
pub struct Office<S> {
    pub(crate) shelf: S,
}

impl<S> Model for Office<S> {
    ghost Value = { S };

    ghost view = { λ office. office.shelf };
}

// These functions ask no trait of S, so that their callers owe no contract of a shelf.
impl<S> Office<S> {
    /// The office whose tables the shelf keeps.
    pub fn new(shelf: S) -> Office<S>
        ensures { result ≡ shelf }
    {
        Office { shelf }
    }

    /// The shelf that stores the tables, to be looked at.
    pub fn shelf(&self) -> &S
        ensures { result.now ≡ self.now }
    {
        &self.shelf
    }

    /// Gives back the shelf that stores the tables, as it is now.
    pub fn into_shelf(self) -> S
        ensures { result ≡ self }
    {
        self.shelf
    }
}

impl<S: Shelf> Office<S> {
    /// The reply to a command, and what is to be written for it. Nothing is written yet. Where
    /// memory or the shelf refuses, the reply is Unavailable; where a stored row that the command
    /// reads is no record, Damaged.
    pub fn decide(&mut self, alloc: Global, command: &Command) -> Decided
        ensures { OnlyLooks S.Shelf self.old self.new
            (λ tables. IsAnswerTo tables command.now result) }
    {
        or_refusal(alloc, try_decide(&mut self.shelf, alloc, command))
    }

    /// Makes the changes of a decision in their order, all or none; where there are none, nothing
    /// is done. After a fault the tables of a database that is still open are as they were.
    pub fn apply(&mut self, alloc: Global, changes: &[RowChange]) -> Result<(), ShelfFault>
        ensures { AppliesRows S.Shelf changes.now result self.old self.new }
    {
        if changes.is_empty() {
            return Ok(());
        }
        self.shelf.apply(alloc, changes)?;
        Ok(())
    }

    /// Runs one command: decides it, and makes its changes. Where memory or the shelf refuses, the
    /// reply is Unavailable; where a stored row that the command reads is no record, Damaged. A
    /// refusal changes nothing, unless a failure has shut the database: opened again, that may hold
    /// the changes.
    pub fn run(&mut self, alloc: Global, command: &Command) -> Reply
        ensures { IsRun S.Shelf command.now result self.old self.new }
    {
        let decided = self.decide(alloc, command);
        self.make(alloc, decided)
    }

    /// Makes the changes of a decision, and gives its reply; Unavailable where they are refused.
    pub(crate) fn make(&mut self, alloc: Global, decided: Decided) -> Reply
        ensures { CarriesOut S.Shelf decided result self.old self.new }
    {
        match self.apply(alloc, decided.changes.as_slice()) {
            Ok(()) => decided.reply,
            Err(_fault) => Reply::Refused(Refusal::Unavailable),
        }
    }

    /// Edits the plan of an intersection for a clerk, in one step: its draft is taken up, or begun
    /// where nobody holds one, changed, and committed where that is asked for and it breaks no
    /// rule; all of that or none. `Same` where the plan is the committed set and nobody holds a
    /// draft; else `Moved`, in state Normal exactly where the plan was committed. A refusal changes
    /// nothing: that of the first step that is refused, `UnknownIntersection`, Unavailable where
    /// memory or the shelf refuses, or Damaged where a stored row of the plan is no record. A crash
    /// leaves the office before the edit or after all of it, and after it alone once it is told.
    pub fn revise(
        &mut self,
        alloc: Global,
        id: InterId,
        clerk: &Words<40>,
        edit: &PlanEdit,
    ) -> Reply
        ensures { EditsPlan S.Shelf id clerk.now edit.now result self.old self.new }
    {
        let decided = decide_revision(&mut self.shelf, alloc, id, clerk, edit);
        self.make(alloc, or_refusal(alloc, decided))
    }

    /// Runs commands in turn, and gives a reply for each, in their order; a refused command stops
    /// none after it. NoMemory means that there is no room for the replies: then none was run.
    pub fn run_all(&mut self, alloc: Global, commands: &[Command]) -> Result<Vec<Reply>, NoMemory>
        ensures ends { IfOk result (λ replies. MakesTables S.Shelf self.old self.new
            (λ tables. RunsAny tables commands.now replies.items)) }
        ensures clean { S.is_clean self.new → S.is_clean self.old }
        ensures honest { S.is_honest self.new → S.is_honest self.old }
        ensures err { OnErr result (self.new ≡ self.old) }
    {
        let mut replies = Vec::with_capacity(alloc, commands.len())?;
        for command in commands {
            let reply = self.run(alloc, command);
            add_reply(&mut replies, reply);
        }
        Ok(replies)
    }

    /// What would come of each of these records, in their order, were they taken in turn; one that
    /// would be refused leaves the office as it is to those after it. Nothing is stored.
    pub fn check(
        &mut self,
        alloc: Global,
        records: &[RecordCommand],
    ) -> Result<Vec<Checked>, Refusal>
        ensures { OnlyLooks S.Shelf self.old self.new (λ tables. S.is_honest self.new →
            Gives result (λ checked. Checks tables records.now checked.items)
            (MeetsImportDamage tables records.now)) }
    {
        check_records(&mut self.shelf, alloc, records).map_err(shelf_refusal)
    }

    /// The first `most` of the intersections that are overdue for an inspection on a day, in
    /// ascending order of their numbers: the first rows that the query Overdue shows.
    pub fn overdue_first(
        &mut self,
        alloc: Global,
        day: Day,
        most: usize,
    ) -> Result<Vec<OverdueRow>, Refusal>
        ensures { OnlyLooks S.Shelf self.old self.new (λ tables. Gives result
            (λ found. (office : OfficeState) → StandForSound tables office →
            map listed_of found.items ≡ take most (overdue_on office day))
            (MeetsDamage tables (Command.Overdue day))) }
    {
        self.shelf
            .overdue_rows(alloc, day, most)
            .map_err(shelf_refusal)
    }

    /// All intersections, in ascending order of their numbers, one for each row of their table,
    /// even
    /// where the tables stand for no office. The rows of a committed timing set are counted, not
    /// read.
    pub fn intersections(&mut self, alloc: Global) -> Result<Vec<ListedIntersection>, Refusal>
        ensures { OnlyLooks S.Shelf self.old self.new (λ tables. Gives result
            (λ found. ListsEachIntersection tables found.items × ((office : OfficeState) →
            StandForSound tables office → found.items ≡ intersections_of office))
            (HasAnyDamagedIntersection tables)) }
    {
        list_intersections(&mut self.shelf, alloc).map_err(shelf_refusal)
    }

    /// The open orders on each intersection that has any, under its number, in ascending order of
    /// their own numbers. It is one walk over all orders.
    pub fn open_orders(&mut self, alloc: Global) -> Result<BTreeMap<InterId, Vec<Order>>, Refusal>
        ensures { OnlyLooks S.Shelf self.old self.new (λ tables. Gives result
            (λ found. (office : OfficeState) → StandForSound tables office → (id : ℕ) →
            orders_in found.entries id ≡ filter is_open (records_at id office.register.orders))
            (HasAnyDamagedOrder tables)) }
    {
        self.shelf.open_orders(alloc).map_err(shelf_refusal)
    }
}
