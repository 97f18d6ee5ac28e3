//! What the office answers.

ghost use Rattle.std.specs.Prelude.{◌≡◌};
ghost use Rattle.office_machine.specs.States.{state_name};

use crate::refusal::Refusal;
use cabinet_core::{CabinetView, Hand, OverdueRow, PartCode};
use draft_core::revision::Revision;
use draft_core::state::{DbState, Verdict};
use signal_records::{InterId, Interval, Listing, RecordNo, TimingSet, Words};
use signal_rules::Violation;
use std::marker::Model;

/// An intersection as the query State shows it.
#[derive(Drop)]
pub struct IntersectionState {
    pub id: InterId,
    /// Days from one inspection of its cabinet to the next.
    pub interval: Interval,
    pub name: Words<120>,
    /// Who holds a draft of its timing; nobody in state Normal.
    pub owner: Option<Words<40>>,
    /// How often its timing set was committed.
    pub revision: Revision,
    /// How many rows the committed timing set has.
    pub rows: usize,
    pub state: DbState,
    pub verify: Verdict,
}

/// The committed timing set as the query Timing shows it. The name is for a sheet, which is made
/// from this reply alone; an answer in JSON has no name.
#[derive(Drop)]
pub struct RunningTiming {
    /// The intersection's name.
    pub name: Words<120>,
    /// How often a set of the intersection was committed.
    pub revision: Revision,
    pub rows: TimingSet,
}

/// The name of a state of the transaction (NTCIP 1201, `dbCreateTransaction`).
pub fn state_name(state: DbState) -> &'static str
    ensures { result.now ≡ state_name state }
{
    match state {
        DbState::Normal => "normal",
        DbState::Transaction => "transaction",
        DbState::Verify => "verify",
        DbState::Done => "done",
    }
}

/// Violations of the timing rules, in their order.
pub type Violations = Listing<Violation>;

/// A draft as the query Draft shows it.
#[derive(Drop)]
pub struct OpenDraft {
    /// The clerk who holds the draft.
    pub owner: Words<40>,
    /// The whole draft.
    pub rows: TimingSet,
    /// The violations of rules in the draft.
    pub violations: Violations,
}

/// All that the register holds of an intersection.
#[derive(Drop)]
pub struct CabinetShown {
    pub id: InterId,
    pub view: CabinetView,
}

/// Numbers of orders, ascending.
pub type OrderNumbers = Listing<RecordNo>;

/// Parts by their codes, each with how many are on hand.
pub type Stock = Listing<(PartCode, Hand)>;

/// Intersections whose inspection is overdue, by their numbers. They are seen as the list of what
/// each row says.
#[derive(Drop)]
pub struct OverdueList {
    rows: Vec<OverdueRow>,
}

impl Model for OverdueList {
    ghost use Rattle.std.specs.Prelude.{List, map};
    ghost use Rattle.cabinet_core.specs.Overdue.{Listed, listed_of};

    ghost Value = { List Listed };

    ghost view = { λ s. map listed_of s.rows.items };
}

impl OverdueList {
    ghost use Rattle.std.specs.Prelude.{◌≡◌, map};
    ghost use Rattle.cabinet_core.specs.Overdue.{listed_of};

    /// The overdue intersections of these rows, in their order.
    pub fn new(rows: Vec<OverdueRow>) -> OverdueList
        ensures { result ≡ map listed_of rows.items }
    {
        OverdueList { rows }
    }

    /// The overdue intersections as rows, in their order.
    pub fn as_slice(&self) -> &[OverdueRow]
        ensures { map listed_of result.now ≡ self.now }
    {
        self.rows.as_slice()
    }

    /// The overdue intersections as a list of their own, without further memory.
    pub fn into_vec(self) -> Vec<OverdueRow>
        ensures { map listed_of result.items ≡ self }
    {
        let OverdueList { rows } = self;
        rows
    }
}

/// What the office answers.
#[derive(Drop)]
pub enum Reply {
    /// The record, the closing of an order or the intersection is new, and was added.
    Added,
    /// An equal record or closing, or an intersection with the same name and interval, existed
    /// already.
    Same,
    /// A step of the transaction was made, and led to this state.
    Moved {
        revision: Revision,
        state: DbState,
        verdict: Verdict,
    },
    /// All records of an import were taken: how many were new, and how many existed already.
    Imported {
        added: usize,
        same: usize,
    },
    State(IntersectionState),
    Timing(RunningTiming),
    Draft(OpenDraft),
    Cabinet(CabinetShown),
    OpenOrders(OrderNumbers),
    Stock(Stock),
    Overdue(OverdueList),
    Refused(Refusal),
}
