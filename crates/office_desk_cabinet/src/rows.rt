//! How a decision of the register is told, with its changes as rows.
ghost use Rattle.std.specs.Prelude.{◌≡◌};
ghost use Rattle.office_desk_cabinet.specs.Telling.{Tells, row_change_of};

use crate::deciding::Taken;
use cabinet_core::{CabinetChange, CabinetRefusal, Recorded};
use office_machine::refusal::Refusal;
use office_tables_shelf::rows::RowChange;
use office_tables_shelf::shelf::ShelfFault;
use signal_records::InterId;
use std::alloc::Global;

/// A change of the register as a row. Parts and deliveries are of no intersection; any other change
/// is of this one, and is no row where there is none. An order is new where it is open, and where
/// it is closed it was there open.
fn row_change(about: &Option<InterId>, change: CabinetChange) -> Option<RowChange>
    ensures { result ≡ row_change_of about.now change }
{
    match change {
        CabinetChange::PutInspection(inspection) => {
            Some(RowChange::AddInspection((*about)?, inspection))
        }
        CabinetChange::PutOrder(order) => match &order.closing {
            None => Some(RowChange::AddOrder((*about)?, order)),
            Some(_) => Some(RowChange::PutOrder((*about)?, order)),
        },
        CabinetChange::PutLine(line) => Some(RowChange::AddLine((*about)?, line)),
        CabinetChange::PutPart(code, hand) => Some(RowChange::PutPart(code, hand)),
        CabinetChange::PutDelivery(delivery) => Some(RowChange::AddDelivery(delivery)),
    }
}

/// How a decision on the records of this intersection, or of none, is told, with its changes as
/// rows. Want of memory is the fault `NoMemory`.
pub(crate) fn report_record(
    alloc: Global,
    about: Option<InterId>,
    decision: Result<Recorded, CabinetRefusal>,
) -> Result<(Taken, Vec<RowChange>), ShelfFault>
    ensures { Tells about decision result }
{
    match decision {
        Ok(Recorded::Added(changes)) => {
            let changes = changes.into_iter();
            let rows = changes.filter_map(|change| row_change(&about, change));
            let rows: Vec<RowChange> = rows.collect(alloc)?;
            Ok((Taken::Added, rows))
        }
        Ok(Recorded::Same) => Ok((Taken::Same, Vec::new(alloc))),
        Err(CabinetRefusal::NoMemory) => Err(ShelfFault::NoMemory),
        Err(refusal) => Ok((Taken::Refused(Refusal::Cabinet(refusal)), Vec::new(alloc))),
    }
}
