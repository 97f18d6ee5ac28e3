//! What people read of an office: queries, each answered by a type of its own.
ghost use Rattle.office_desk.specs.{Asks.ReadsOffice, Asks.reply_to, Changes.IsQueryCommand};

use crate::office::Office;
use office_machine::command::Command;
use office_machine::refusal::Refusal;
use office_machine::reply::{
    CabinetShown, IntersectionState, OpenDraft, Reply, RunningTiming, Stock,
};
use office_tables_shelf::shelf::Shelf;
use signal_records::InterId;
use std::alloc::Global;

// Each of these reads is the machine's answer to its query, or a refusal: Unavailable where memory
// or the shelf refuses, Damaged where a stored row that is read is no record. The office stays as
// it is.
impl<S: Shelf> Office<S> {
    /// The reply to a query, which is taken, so that a caller has none to drop.
    fn ask(&mut self, alloc: Global, query: Command) -> Reply
        requires { IsQueryCommand query }
        ensures replied { ReadsOffice S.Shelf self.old self.new query result }
        // So Unavailable may be told for a reply of another kind, which never comes.
        ensures otherwise { ReadsOffice S.Shelf self.old self.new query
            (Reply.Refused Refusal.Unavailable) }
    {
        let decided = self.decide(alloc, &query);
        decided.reply
    }

    /// An intersection: its name, interval and revision, and who holds a draft of its timing, in
    /// which state.
    pub fn state(&mut self, alloc: Global, id: InterId) -> Result<IntersectionState, Refusal>
        ensures { ReadsOffice S.Shelf self.old self.new (Command.State id)
            (reply_to (λ it. Reply.State it) result) }
    {
        match self.ask(alloc, Command::State { id }) {
            Reply::State(state) => Ok(state),
            Reply::Refused(why) => Err(why),
            _ => Err(Refusal::Unavailable),
        }
    }

    /// The committed timing set of an intersection, with the intersection's name and the revision.
    pub fn timing(&mut self, alloc: Global, id: InterId) -> Result<RunningTiming, Refusal>
        ensures { ReadsOffice S.Shelf self.old self.new (Command.Timing id)
            (reply_to (λ it. Reply.Timing it) result) }
    {
        match self.ask(alloc, Command::Timing { id }) {
            Reply::Timing(timing) => Ok(timing),
            Reply::Refused(why) => Err(why),
            _ => Err(Refusal::Unavailable),
        }
    }

    /// The draft of an intersection, with the rules that it breaks. Where nobody holds one, the
    /// error is the transaction's NotTransaction.
    pub fn draft(&mut self, alloc: Global, id: InterId) -> Result<OpenDraft, Refusal>
        ensures { ReadsOffice S.Shelf self.old self.new (Command.Draft id)
            (reply_to (λ it. Reply.Draft it) result) }
    {
        match self.ask(alloc, Command::Draft { id }) {
            Reply::Draft(draft) => Ok(draft),
            Reply::Refused(why) => Err(why),
            _ => Err(Refusal::Unavailable),
        }
    }

    /// All that the register holds of an intersection.
    pub fn cabinet(&mut self, alloc: Global, id: InterId) -> Result<CabinetShown, Refusal>
        ensures { ReadsOffice S.Shelf self.old self.new (Command.Cabinet id)
            (reply_to (λ it. Reply.Cabinet it) result) }
    {
        match self.ask(alloc, Command::Cabinet { id }) {
            Reply::Cabinet(cabinet) => Ok(cabinet),
            Reply::Refused(why) => Err(why),
            _ => Err(Refusal::Unavailable),
        }
    }

    /// How many pieces of each part are on hand, by the codes of the parts.
    pub fn stock(&mut self, alloc: Global) -> Result<Stock, Refusal>
        ensures { ReadsOffice S.Shelf self.old self.new Command.Stock
            (reply_to (λ it. Reply.Stock it) result) }
    {
        match self.ask(alloc, Command::Stock) {
            Reply::Stock(parts) => Ok(parts),
            Reply::Refused(why) => Err(why),
            _ => Err(Refusal::Unavailable),
        }
    }
}
