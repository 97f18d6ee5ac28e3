//! How a refusal of the office is reported.

ghost use Rattle.std.specs.Prelude.{◌≡◌};
ghost use Rattle.signal_office_commands.specs.Refused.{fault_of, record_refusal, with_number};

use cabinet_core::CabinetRefusal;
use office_machine::refusal::Refusal;
use signal_office_faults::Fault;

/// The refusals that a record of the register may get, besides Unavailable and Damaged.
const OF_RECORDS: [Refusal; 11] = [
    Refusal::UnknownIntersection,
    Refusal::Cabinet(CabinetRefusal::InspectionDiffers),
    Refusal::Cabinet(CabinetRefusal::OrderDiffers),
    Refusal::Cabinet(CabinetRefusal::UnknownOrder),
    Refusal::Cabinet(CabinetRefusal::OrderClosed),
    Refusal::Cabinet(CabinetRefusal::DayBeforeOpening),
    Refusal::Cabinet(CabinetRefusal::NoStock),
    Refusal::Cabinet(CabinetRefusal::StockFull),
    Refusal::Cabinet(CabinetRefusal::DeliveryDiffers),
    Refusal::Cabinet(CabinetRefusal::LineDiffers),
    Refusal::Cabinet(CabinetRefusal::CloseDiffers),
];

/// The first of some refusals that has this number, if any has it.
fn with_number(refusals: &[Refusal], number: u32) -> Option<Refusal>
    ensures { result ≡ with_number number refusals.now }
{
    match refusals {
        [] => None,
        [first, rest @ ..] => {
            if first.number() == number {
                Some(*first)
            } else {
                with_number(rest, number)
            }
        }
    }
}

/// The refusal with this number, if it is one that a record of the register may get.
fn record_refusal(number: u32) -> Option<Refusal>
    ensures { result ≡ record_refusal number }
{
    with_number(&OF_RECORDS, number)
}

/// The fault that reports a refusal of the office: `Store` for Unavailable, where memory or the
/// database refused. The fault of a refused import names its first refused record.
pub fn fault_of(refusal: Refusal) -> Fault
    ensures { result ≡ fault_of refusal }
{
    match refusal {
        Refusal::UnknownIntersection => Fault::UnknownIntersection,
        Refusal::Damaged => Fault::Damaged,
        Refusal::Unavailable => Fault::Store,
        Refusal::ImportRow { at, cause } => match record_refusal(cause) {
            Some(refusal) => Fault::Record { at, refusal },
            None => Fault::Refused(refusal),
        },
        refusal => Fault::Refused(refusal),
    }
}
