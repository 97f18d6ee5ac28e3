//! Why a command is refused: one table of numbers, names and status codes, which includes the
//! tables of the transaction and of the register.

ghost use Rattle.std.specs.Prelude.{◌≡◌};
ghost use Rattle.office_machine.specs.Refusal.{line_of};

use cabinet_core::CabinetRefusal;
use draft_core::refusal::DraftRefusal;

/// Why a command is refused.
#[derive(Clone, Copy, Debug, PartialEq, Eq)]
pub enum Refusal {
    /// There is no such intersection.
    UnknownIntersection,
    /// The intersection exists with another name or interval.
    IntersectionDiffers,
    /// The transaction refuses. Its `NoMemory` is reported as Unavailable.
    Draft(DraftRefusal),
    /// The register refuses. Its `NoMemory` is reported as Unavailable.
    Cabinet(CabinetRefusal),
    /// The first record of an import that is refused: its place, counted from 1, and the number of
    /// its refusal.
    ImportRow { at: usize, cause: u32 },
    /// Memory or the database refused; nothing was changed.
    Unavailable,
    /// A stored row is no record.
    Damaged,
}

impl Refusal {
    /// The refusal's number and name.
    fn line(self) -> (u32, &'static str)
        ensures number { result.0 ≡ (line_of self).number }
        ensures name { result.1.now ≡ (line_of self).name }
    {
        match self {
            Refusal::UnknownIntersection => (10, "UnknownIntersection"),
            Refusal::IntersectionDiffers => (11, "IntersectionDiffers"),
            Refusal::Draft(why) => (why.number(), why.name()),
            Refusal::Cabinet(why) => (why.number(), why.name()),
            Refusal::ImportRow { .. } => (30, "ImportRow"),
            Refusal::Unavailable => (90, "Unavailable"),
            Refusal::Damaged => (91, "Damaged"),
        }
    }

    /// The refusal's number, by which clients know it: 10 to 91.
    pub fn number(self) -> u32
        ensures { result ≡ (line_of self).number }
    {
        self.line().0
    }

    /// The refusal's name, as answers show it.
    pub fn name(self) -> &'static str
        ensures { result.now ≡ (line_of self).name }
    {
        self.line().1
    }

    /// The status code of an HTTP answer that shows the refusal: 404, 409, 500 or 503 (RFC 9110).
    pub fn status(self) -> u16
        ensures { result ≡ (line_of self).status }
    {
        match self {
            Refusal::UnknownIntersection | Refusal::Cabinet(CabinetRefusal::UnknownOrder) => 404,
            Refusal::Unavailable
            | Refusal::Draft(DraftRefusal::NoMemory)
            | Refusal::Cabinet(CabinetRefusal::NoMemory) => 503,
            Refusal::Damaged => 500,
            _ => 409,
        }
    }
}
