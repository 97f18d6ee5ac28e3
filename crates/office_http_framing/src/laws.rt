//! Laws of the definitions, which the contracts of the engine name.

ghost use Rattle.std.specs.Prelude.{ℕ, List};
ghost use Rattle.office_http_framing.specs.Laws.{HasOneFront, HasOneList};

/// Any bytes begin with one thing only, unless `httparse` leaves it open.
pub fn one_front()
    ensures { (bytes : List ℕ) → HasOneFront bytes }
{}

/// The requests of a stream are one list, however it is cut into reads.
pub fn one_list_of_requests()
    ensures { (limit : ℕ) (bytes : List ℕ) → HasOneList limit bytes }
{}
