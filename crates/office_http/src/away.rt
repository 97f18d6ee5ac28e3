//! The answers while the file of the office can't be opened: that it is unavailable.

use office_http_framing::front::{Fault, Request};
use office_http_framing::machine::{Answer, Machine, Unavailable};
use office_http_responses::{framing_fault_answer, unavailable};
use std::alloc::{AllocError, Global};

/// The office while its file can't be opened: no request has a step, and each is answered
/// unavailable.
#[derive(Drop)]
pub(crate) struct Away;

impl Machine<()> for Away {
    ghost use Rattle.std.specs.Prelude.{⊤};
    ghost use Rattle.office_http.specs.Away.{away_protocol, away_storage};

    ghost State = { ⊤ };

    ghost Stored = { ⊤ };

    ghost storage = { away_storage };

    ghost is_clean = { λ _. ⊤ };

    ghost protocol = { away_protocol };

    fn answer(
        &mut self,
        _alloc: Global,
        _tools: &mut (),
        _request: &Request<'_>,
    ) -> Result<Answer, Unavailable> {
        Err(Unavailable)
    }

    fn fault_answer(alloc: Global, fault: Fault) -> Result<Vec<u8>, AllocError> {
        framing_fault_answer(alloc, fault)
    }

    fn unavailable() -> &'static [u8] {
        unavailable()
    }
}
