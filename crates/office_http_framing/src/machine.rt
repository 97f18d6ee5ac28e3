//! What answers the requests of a stream. The code that reads requests and writes answers knows
//! only the trait `Machine`.

ghost use Rattle.std.specs.Prelude.{◌≡◌, IfOk};

use crate::front::{Fault, Request};
use std::alloc::{AllocError, Global};

/// The answer to a request.
#[derive(Drop)]
pub enum Answer {
    /// Bytes that were made for this request.
    Written(Vec<u8>),
    /// A text of the program. It takes no memory.
    Fixed(&'static [u8]),
}

impl Answer {
    ghost use Rattle.office_http_framing.specs.Protocol.{bytes_of};

    /// The bytes of the answer.
    pub fn as_bytes(&self) -> &[u8]
        ensures { result.now ≡ bytes_of self.now }
    {
        match self {
            Answer::Written(bytes) => bytes,
            Answer::Fixed(bytes) => bytes,
        }
    }
}

/// Memory or the store was refused. What the machine keeps has not changed, but a crash may leave
/// the request's step.
#[derive(Clone, Copy)]
pub struct Unavailable;

/// A machine that answers requests one after another, each from the state that the one before it
/// left. `Tools` are what it makes once for a stream and uses for each request, such as a table of
/// routes.
pub trait Machine<Tools> {
    ghost use Rattle.office_http_framing.specs.Front.{plain};
    ghost use Rattle.office_http_framing.specs.Protocol.{Protocol};
    ghost use Rattle.office_http_framing.specs.Stops.{DealsBy, KeepsState, Storage, moment_of};

    // The states that a machine can mean.
    ghost State: { Type 0 };

    // What the machine can store of a state.
    ghost Stored: { Type 0 };

    // What the machine holds now, what a crash may leave of that, the states that either stands
    // for, and whether the machine is honest: what it keeps its state on has returned what was
    // written, and no failure has shut it. How often it has written, and what a request may write.
    ghost storage: { Storage Self State Stored };

    // What the machine keeps its state on has returned what was written, so far, whether or not a
    // failure has shut it.
    ghost is_clean: { Self → Type 0 };

    // The answers that the machine may give, and the states that these leave.
    ghost protocol: { Protocol State };

    /// Decides the request, builds its whole answer, and then makes its changes; or makes none.
    /// Where a failure has shut what the machine keeps its state on, the machine is `Unavailable`,
    /// or gives an answer that is right from any state.
    fn answer(
        &mut self,
        alloc: Global,
        tools: &mut Tools,
        request: &Request<'_>,
    ) -> Result<Answer, Unavailable>
        ensures clean { is_clean self.new → is_clean self.old }
        ensures honest { storage.is_honest self.new → storage.is_honest self.old }
        // Whichever state is kept: the answer is its step, what is kept then stands for the state
        // after it, with no writes but those that the step may make, and a crash leaves nothing
        // else once it has changed. If the result is `Unavailable`, what is kept and the count of
        // writes stay.
        ensures deals { is_clean self.new →
            (before : State) (held : Stored) → KeepsState storage self.old held before →
            DealsBy protocol storage self.old self.new
            (moment_of storage self.old held before) (plain request.now) result };

    /// The whole answer to a fault of the framing. The error means that memory was refused.
    fn fault_answer(alloc: Global, fault: Fault) -> Result<Vec<u8>, AllocError>
        ensures { IfOk result (λ answer. answer.items ≡ protocol.fault_text fault) };

    /// The answer in place of one for which memory or the store was refused. It takes no memory.
    fn unavailable() -> &'static [u8]
        ensures { result.now ≡ protocol.unavailable_text };
}
