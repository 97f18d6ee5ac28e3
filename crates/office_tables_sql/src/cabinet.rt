//! The tables of the register: `inspection`, `work_order` and `used_part`, the records of each
//! cabinet, and `part` and `delivery`, what is on hand of each part and what was delivered.

ghost use Rattle.std.specs.Prelude.{true, ◌≡◌, ◌≢◌, length, Option, Some, None, IfOk, IfSome, refl};
ghost use Rattle.sqlite.specs.{Order.column, Values.bound_value};
ghost use Rattle.sqlite_value.specs.Value.{owned};
ghost use Rattle.cabinet_core.specs.Within.{IsClosingWithin, IsInspectionWithin, IsOrderWithin, IsUsedLineWithin, IsDeliveryWithin};
ghost use Rattle.cabinet_core.specs.declared.record.Closing.{Closing};
ghost use Rattle.office_tables_shelf.specs.CabinetRows.{inspection_key, inspection_columns, order_key, order_columns, closed_cell, closer_cell, used_key, used_columns, part_key, part_columns, delivery_key, delivery_columns};
ghost use Rattle.office_tables_shelf.specs.CabinetReads.{IsPartWithin};
ghost use Rattle.office_tables_statements.specs.{Stored.cell_of, Tables.suits_kind, Tables.value_of};
ghost use Rattle.office_tables_sql.specs.Kept.{keep};
ghost use Rattle.office_tables_shelf.specs.declared.rows.Table.TheVariants as table;
ghost use Rattle.sqlite.specs.Kind.TheVariants as kind;

use crate::stored_row::{Bound, StoredRow, Texts, WalkedRow, texts};
use cabinet_core::{Closing, Delivery, Hand, Inspection, Order, PartCode, UsedLine};
use office_tables_shelf::shelf::ShelfFault;
use office_tables_statements::listed::check_number;
use office_tables_statements::value::{
    check_null, code_at, day_at, ranged_at, words_at, words_or_null_at,
};
use signal_records::{InterId, Words};
use sqlite::Row;
use sqlite::types::{ToSql, ValueRef};
use std::alloc::Global;

impl StoredRow for Inspection {
    type Of = InterId;

    ghost kept = { keep table.Inspection Some (λ id found. inspection_key id found.number)
        inspection_columns IsInspectionWithin };

    #[tactic(auto, unfolding(sqlite_tied::specs::Compute::everything))]
    fn texts() -> Texts {
        texts! {
            "inspection" of "inter" at "inter = ?1 AND number = ?2" by "inter, number",
            "inter, number, day, clerk, body" = "?1, ?2, ?3, ?4, ?5",
            "day = ?3, clerk = ?4, body = ?5"
        }
    }

    fn read(alloc: Global, id: InterId, row: &Row) -> Result<Inspection, ShelfFault> {
        check_number(row, 0, id.get())?;
        Ok(Inspection {
            number: ranged_at(row, 1)?,
            day: day_at(row, 2)?,
            clerk: words_at(alloc, row, 3)?,
            text: words_at(alloc, row, 4)?,
        })
    }

    fn bind<'a>(&'a self, alloc: Global, id: InterId, _text: &'a mut String) -> Bound<'a> {
        let number = self.number.get().to_sql();
        let day = self.day.number().to_sql();
        let clerk = self.clerk.as_str().to_sql();
        let text = self.text.as_str().to_sql();
        Ok(vec![in alloc; id.get().to_sql(), number, day, clerk, text]?)
    }
}

impl WalkedRow for Inspection {
    ghost begins = { λ _ _. refl };
}

impl StoredRow for Order {
    type Of = InterId;

    ghost kept = { keep table.WorkOrder Some (λ id order. order_key id order.number) order_columns
        IsOrderWithin };

    #[tactic(auto, unfolding(sqlite_tied::specs::Compute::everything))]
    fn texts() -> Texts {
        texts! {
            "work_order" of "inter" at "inter = ?1 AND number = ?2" by "inter, number",
            "inter, number, opened, clerk, body, closed, closer" = "?1, ?2, ?3, ?4, ?5, ?6, ?7",
            "opened = ?3, clerk = ?4, body = ?5, closed = ?6, closer = ?7"
        }
    }

    fn read(alloc: Global, id: InterId, row: &Row) -> Result<Order, ShelfFault> {
        check_number(row, 0, id.get())?;
        Ok(Order {
            number: ranged_at(row, 1)?,
            opened: day_at(row, 2)?,
            clerk: words_at(alloc, row, 3)?,
            text: words_at(alloc, row, 4)?,
            closing: closing_at(alloc, row)?,
        })
    }

    fn bind<'a>(&'a self, alloc: Global, id: InterId, _text: &'a mut String) -> Bound<'a> {
        let (closed, closer) = closing_values(&self.closing);
        let id = id.get().to_sql();
        let number = self.number.get().to_sql();
        let opened = self.opened.number().to_sql();
        let clerk = self.clerk.as_str().to_sql();
        let text = self.text.as_str().to_sql();
        Ok(vec![in alloc; id, number, opened, clerk, text, closed, closer]?)
    }
}

impl WalkedRow for Order {
    ghost begins = { λ _ _. refl };
}

/// The closing of an order, by the day in column 5 and the clerk in column 6, which are both NULL
/// while the order is open. `Damaged` means that only one is, or that one is no day or no name.
#[tactic(auto, using(crate::proofs::Shown::no_closer))]
fn closing_at(alloc: Global, row: &Row) -> Result<Option<Closing>, ShelfFault>
    ensures day { IfOk result (λ closing. cell_of (column row.now 5) ≡ closed_cell closing) }
    ensures closer { IfOk result (λ closing. cell_of (column row.now 6) ≡ closer_cell closing) }
    ensures within { IfOk result (λ closing. IfSome closing IsClosingWithin) }
    ensures damaged { result ≡ Err ShelfFault.Damaged → length row.now ≡ 7 →
        (closing : Option Closing) → IfSome closing IsClosingWithin →
        cell_of (column row.now 5) ≡ closed_cell closing →
        cell_of (column row.now 6) ≢ closer_cell closing }
{
    let closer: Option<Words<40>> = words_or_null_at(alloc, row, 6)?;
    let Some(closer) = closer else {
        check_null(row, 5)?;
        return Ok(None);
    };
    let day = day_at(row, 5)?;
    Ok(Some(Closing { day, closer }))
}

/// What is stored of the closing of an order: the number of its day, and its clerk; NULL for both
/// where the order is open.
fn closing_values(closing: &Option<Closing>) -> (ValueRef<'_>, ValueRef<'_>)
    ensures day { bound_value (owned result.0) ≡ value_of (closed_cell closing.now) }
    ensures closer { bound_value (owned result.1) ≡ value_of (closer_cell closing.now) }
    ensures taken_day { suits_kind kind.Integer (closed_cell closing.now) ≡ true }
    ensures taken_closer { suits_kind kind.Text (closer_cell closing.now) ≡ true }
{
    match closing {
        Some(closing) => (
            closing.day.number().to_sql(),
            closing.closer.as_str().to_sql(),
        ),
        None => (ValueRef::Null, ValueRef::Null),
    }
}

impl StoredRow for UsedLine {
    type Of = InterId;

    ghost kept = { keep table.UsedPart Some (λ id used. used_key id used.order used.line)
        used_columns IsUsedLineWithin };

    #[tactic(auto, unfolding(sqlite_tied::specs::Compute::everything))]
    fn texts() -> Texts {
        texts! {
            "used_part" of "inter" at "inter = ?1 AND ord = ?2 AND line = ?3" by "inter, ord, line",
            "inter, ord, line, part, amount" = "?1, ?2, ?3, ?4, ?5", "part = ?4, amount = ?5"
        }
    }

    fn read(alloc: Global, id: InterId, row: &Row) -> Result<UsedLine, ShelfFault> {
        check_number(row, 0, id.get())?;
        Ok(UsedLine {
            order: ranged_at(row, 1)?,
            line: ranged_at(row, 2)?,
            part: code_at(alloc, row, 3)?,
            count: ranged_at(row, 4)?,
        })
    }

    fn bind<'a>(&'a self, alloc: Global, id: InterId, _text: &'a mut String) -> Bound<'a> {
        let order = self.order.get().to_sql();
        let line = self.line.get().to_sql();
        let part = self.part.as_str().to_sql();
        let count = self.count.get().to_sql();
        Ok(vec![in alloc; id.get().to_sql(), order, line, part, count]?)
    }
}

impl StoredRow for (PartCode, Hand) {
    type Of = ();

    ghost kept = { keep table.Part (λ _. None) (λ _ part. part_key part.0)
        (λ part. part_columns part.1) IsPartWithin };

    #[tactic(auto, unfolding(sqlite_tied::specs::Compute::everything))]
    fn texts() -> Texts {
        texts! { "part" at "code = ?1" by "code", "code, hand" = "?1, ?2", "hand = ?2" }
    }

    fn read(alloc: Global, _of: (), row: &Row) -> Result<(PartCode, Hand), ShelfFault> {
        Ok((code_at(alloc, row, 0)?, ranged_at(row, 1)?))
    }

    fn bind<'a>(&'a self, alloc: Global, _of: (), _text: &'a mut String) -> Bound<'a> {
        Ok(vec![in alloc; self.0.as_str().to_sql(), self.1.get().to_sql()]?)
    }
}

impl StoredRow for Delivery {
    type Of = ();

    ghost kept = { keep table.Delivery (λ _. None) (λ _ found. delivery_key found.part found.number)
        delivery_columns IsDeliveryWithin };

    #[tactic(auto, unfolding(sqlite_tied::specs::Compute::everything))]
    fn texts() -> Texts {
        texts! {
            "delivery" at "part = ?1 AND number = ?2" by "part, number",
            "part, number, day, amount" = "?1, ?2, ?3, ?4", "day = ?3, amount = ?4"
        }
    }

    fn read(alloc: Global, _of: (), row: &Row) -> Result<Delivery, ShelfFault> {
        Ok(Delivery {
            part: code_at(alloc, row, 0)?,
            number: ranged_at(row, 1)?,
            day: day_at(row, 2)?,
            count: ranged_at(row, 3)?,
        })
    }

    fn bind<'a>(&'a self, alloc: Global, _of: (), _text: &'a mut String) -> Bound<'a> {
        let part = self.part.as_str().to_sql();
        let number = self.number.get().to_sql();
        let day = self.day.number().to_sql();
        let count = self.count.get().to_sql();
        Ok(vec![in alloc; part, number, day, count]?)
    }
}
