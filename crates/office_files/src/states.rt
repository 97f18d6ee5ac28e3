//! The words for the states of a transaction.

use signal_records::state::{Holder, Stage};

/// The word for the state of an intersection's transaction, by who holds its draft: `normal` if
/// nobody does, else `transaction`, `verify` or `done`.
pub fn state_word(holder: &Option<Holder>) -> &'static str {
    let Some(holder) = holder else {
        return "normal";
    };
    match holder.stage {
        Stage::Transaction => "transaction",
        Stage::Verify => "verify",
        Stage::Done => "done",
    }
}
