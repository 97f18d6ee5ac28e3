//! Who holds the draft: the tests of a clerk, and the holder after a step.

ghost use Rattle.std.specs.Prelude.{◌≡◌, IfOk, OnErr};
ghost use Rattle.std.specs.Result.{result_err};
ghost use Rattle.draft_core.specs.Transaction as table;
ghost use Rattle.draft_core.specs.Moves as moves;
ghost use Rattle.draft_core.specs.Revising as revising;

use crate::refusal::DraftRefusal;
use crate::state::{DbState, Holder, Holding, Stage};
use signal_records::{NoMemory, Words};

/// The test of a command that only the owner may give, in one stage. It is refused with `wrong`
/// where
/// there is no draft or one in another stage, then with `NotOwner` where another clerk holds it.
pub(crate) fn test_owner(
    holder: &Option<Holder>,
    stage: Stage,
    wrong: DraftRefusal,
    clerk: &Words<40>,
) -> Result<(), DraftRefusal>
    ensures { result_err result ≡ table.refused_by holder.now stage wrong clerk.now }
{
    match holder {
        Some(holder) if holder.stage == stage => {
            if holder.owner == *clerk {
                Ok(())
            } else {
                Err(DraftRefusal::NotOwner)
            }
        }
        _ => Err(wrong),
    }
}

/// What becomes of who holds the draft where a clerk takes it up: a draft begins where nobody holds
/// one, and the clerk's own is open to edits, whatever its stage. Another clerk's is refused with
/// `NotOwner`.
pub(crate) fn take_up(holder: &Option<Holder>, clerk: &Words<40>) -> Result<Holding, DraftRefusal>
    ensures takes { result ≡ revising.take_up holder.now clerk.now }
    ensures opens { IfOk result (λ holding. moves.state_after holding ≡ DbState.Transaction) }
{
    match holder {
        None => Ok(Holding::Begun),
        Some(holder) if holder.owner == *clerk => Ok(Holding::Kept(Stage::Transaction)),
        Some(_) => Err(DraftRefusal::NotOwner),
    }
}

/// The state of the transaction after a step, by what the step does to the draft's holder.
pub(crate) fn state_after(step: Holding) -> DbState
    ensures { result ≡ moves.state_after step }
{
    match step {
        Holding::Begun | Holding::Kept(Stage::Transaction) => DbState::Transaction,
        Holding::Kept(Stage::Verify) => DbState::Verify,
        Holding::Kept(Stage::Done) => DbState::Done,
        Holding::Dropped => DbState::Normal,
    }
}

/// Who holds the draft after a step that this clerk asked for; none in state Normal. `NoMemory`
/// comes only where a draft begins, which copies the clerk's name.
pub fn next_holder(
    step: Holding,
    holder: Option<Holder>,
    clerk: &Words<40>,
) -> Result<Option<Holder>, NoMemory>
    ensures next { IfOk result (λ next. next ≡ moves.next_holder step clerk.now holder) }
    ensures wants { OnErr result (step ≡ Holding.Begun) }
{
    match step {
        Holding::Begun => {
            let owner = clerk.clone()?;
            Ok(Some(Holder {
                stage: Stage::Transaction,
                owner,
            }))
        }
        Holding::Kept(stage) => match holder {
            Some(Holder { owner, .. }) => Ok(Some(Holder { stage, owner })),
            None => Ok(None),
        },
        Holding::Dropped => Ok(None),
    }
}
