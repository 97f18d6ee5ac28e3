//! The tables of intersections and their plans: `intersection`, whose key is the rowid, `timing`,
//! the rows of the committed sets, and `draft`, the changes that a draft keeps.

ghost use Rattle.std.specs.Prelude.{ℕ, true, ◌≡◌, ◌≢◌, [], ◌∷◌, pos, length, Option, Some, None, IfOk, IfSome, refl};
ghost use Rattle.sqlite.specs.{Held.state, Order.column, Values.bound_value};
ghost use Rattle.sqlite_value.specs.Value.{owned};
ghost use Rattle.signal_values.specs.Words.{AreWords};
ghost use Rattle.signal_records.specs.{Row.key_of, Within.IsRowWithin, Within.IsChangeWithin, Within.current_limits, declared.state.Holder.Holder, declared.state.Stage.Stage};
ghost use Rattle.office_tables_shelf.specs.{Cells.number, Shelf.rows_of, declared.rows.Table.TheVariants.Intersection, declared.rows.Table.TheVariants.Timing, declared.rows.Table.TheVariants.Draft};
ghost use Rattle.office_tables_shelf.specs.Rows.{intersection_key, intersection_columns, IsIntersectionRow, timing_key, timing_columns, draft_key, draft_columns, stage_number, state_number, owner_cell};
ghost use Rattle.office_tables_statements.specs.Calls.{IsHonest, IsOffice, Keeps, StaysOpen};
ghost use Rattle.office_tables_statements.specs.{Stored.cell_of, Stored.content_now, Tables.suits_kind, Tables.takes, Tables.value_of, Tables.values_of};
ghost use Rattle.office_tables_sql.specs.Kept.{keep};
ghost use Rattle.sqlite.specs.Kind.TheVariants as kind;

use crate::stored_row::{Bound, StoredRow, Texts, WalkedRow, texts};
use office_tables_shelf::rows::IntersectionRow;
use office_tables_shelf::shelf::ShelfFault;
use office_tables_statements::body::write_body;
use office_tables_statements::body_reading::Version;
use office_tables_statements::listed::{body_at, check_key, check_number, read_key};
use office_tables_statements::statement::{SqlFault, select_one};
use office_tables_statements::value::{
    number_at, ranged_at, revision_at, words_at, words_or_null_at,
};
use signal_records::state::{Holder, Stage};
use signal_records::{Change, InterId, NoMemory, Row, Words, changed_key};
use sqlite::types::{ToSql, ValueRef};
use sqlite::{Alter, Connection, Row as SqlRow, params};
use std::alloc::Global;

impl StoredRow for IntersectionRow {
    type Of = InterId;

    ghost kept = { keep Intersection (λ _. None) (λ id _. intersection_key id) intersection_columns
        IsIntersectionRow };

    #[tactic(auto, unfolding(sqlite_tied::specs::Compute::everything))]
    fn texts() -> Texts {
        texts! {
            "intersection" at "id = ?1" by "id",
            "id, name, days, revision, state, owner" = "?1, ?2, ?3, ?4, ?5, ?6",
            "name = ?2, days = ?3, revision = ?4, state = ?5, owner = ?6"
        }
    }

    fn read(alloc: Global, id: InterId, row: &SqlRow) -> Result<IntersectionRow, ShelfFault> {
        check_number(row, 0, id.get())?;
        Ok(IntersectionRow {
            name: words_at(alloc, row, 1)?,
            interval: ranged_at(row, 2)?,
            revision: revision_at(row, 3)?,
            holder: holder_at(alloc, row)?,
        })
    }

    fn bind<'a>(&'a self, alloc: Global, id: InterId, _text: &'a mut String) -> Bound<'a> {
        let (state, owner) = holder_values(&self.holder);
        let name = self.name.as_str().to_sql();
        let days = self.interval.get().to_sql();
        let revision = self.revision.get().to_sql();
        Ok(vec![in alloc;
            id.get().to_sql(),
            name,
            days,
            revision,
            state.to_sql(),
            owner,
        ]?)
    }
}

impl WalkedRow for IntersectionRow {
    ghost begins = { λ _ _. refl };
}

/// Who holds the draft, by the state in column 4 and the owner in column 5. State 0 is Normal, and
/// has no owner; each other state, 1 to 3, has one. Any other pair is `Damaged`.
#[tactic(auto, using(crate::proofs::Shown::no_owner))]
fn holder_at(alloc: Global, row: &SqlRow) -> Result<Option<Holder>, ShelfFault>
    ensures state { IfOk result (λ holder.
        cell_of (column row.now 4) ≡ number (pos (state_number holder))) }
    ensures owner { IfOk result (λ holder. cell_of (column row.now 5) ≡ owner_cell holder) }
    ensures within { IfOk result (λ holder. IfSome holder (λ h. AreWords 40 h.owner)) }
    ensures damaged { result ≡ Err ShelfFault.Damaged → length row.now ≡ 6 →
        (holder : Option Holder) → IfSome holder (λ h. AreWords 40 h.owner) →
        cell_of (column row.now 4) ≡ number (pos (state_number holder)) →
        cell_of (column row.now 5) ≢ owner_cell holder }
{
    let state = number_at(row, 4)?;
    let owner: Option<Words<40>> = words_or_null_at(alloc, row, 5)?;
    let Some(owner) = owner else {
        return if state == 0 {
            Ok(None)
        } else {
            Err(ShelfFault::Damaged)
        };
    };
    match stage_of(state) {
        Some(stage) => Ok(Some(Holder { stage, owner })),
        None => Err(ShelfFault::Damaged),
    }
}

/// The stage that is stored as this number, 1 to 3; none for any other number.
fn stage_of(state: u32) -> Option<Stage>
    ensures some { IfSome result (λ stage. stage_number stage ≡ state) }
    ensures none { result ≡ None → (stage : Stage) → stage_number stage ≢ state }
{
    match state {
        1 => Some(Stage::Transaction),
        2 => Some(Stage::Verify),
        3 => Some(Stage::Done),
        _ => None,
    }
}

/// What is stored of who holds a draft: the number of the state, 0 where nobody does, else 1 to 3
/// by the stage, and the clerk, or NULL.
fn holder_values(holder: &Option<Holder>) -> (u32, ValueRef<'_>)
    ensures state { result.0 ≡ state_number holder.now }
    ensures owner { bound_value (owned result.1) ≡ value_of (owner_cell holder.now) }
    ensures taken { suits_kind kind.Text (owner_cell holder.now) ≡ true }
{
    let Some(holder) = holder else {
        return (0, ValueRef::Null);
    };
    let state = match holder.stage {
        Stage::Transaction => 1,
        Stage::Verify => 2,
        Stage::Done => 3,
    };
    (state, holder.owner.as_str().to_sql())
}

impl StoredRow for Row {
    type Of = InterId;

    ghost kept = { keep Timing Some (λ id row. timing_key id (key_of row)) timing_columns
        (IsRowWithin current_limits) };

    #[tactic(auto, unfolding(sqlite_tied::specs::Compute::everything))]
    fn texts() -> Texts {
        texts! {
            "timing" of "inter" at "inter = ?1 AND kind = ?2 AND a = ?3 AND b = ?4"
            by "inter, kind, a, b",
            "inter, kind, a, b, body" = "?1, ?2, ?3, ?4, ?5", "body = ?5"
        }
    }

    /// Reads a committed row of five columns: the body is a row, and the columns before it are its
    /// key. Any other row, also one whose body is NULL, is `Damaged`.
    fn read(alloc: Global, id: InterId, row: &SqlRow) -> Result<Row, ShelfFault> {
        let Some(found) = body_at(alloc, Version::Current, row, 4)? else {
            return Err(ShelfFault::Damaged);
        };
        check_key(row, id, &found.key())?;
        Ok(found)
    }

    fn bind<'a>(&'a self, alloc: Global, id: InterId, text: &'a mut String) -> Bound<'a> {
        *text = write_body(alloc, self)?;
        let key = self.key();
        let kind = key.kind().to_sql();
        let first = key.first().to_sql();
        let second = key.second().to_sql();
        let body = text.as_str().to_sql();
        Ok(vec![in alloc; id.get().to_sql(), kind, first, second, body]?)
    }
}

const COUNT: &str = "SELECT count(*) FROM timing WHERE inter = ?1";

/// How many rows the intersection's committed set has, whether or not each of them is a record.
/// `Store` means that the database refused, `NoMemory` that a growth was refused.
pub fn count<S: Alter>(conn: &mut Connection<S>, id: InterId) -> Result<usize, SqlFault>
    requires { IsOffice (state S.Store conn.old) }
    ensures count { IfOk result (λ count. IsHonest (state S.Store conn.new) →
        count ≡ length (rows_of id (content_now (state S.Store conn.old)).timing)) }
    ensures kept { Keeps (state S.Store conn.old) (state S.Store conn.new) }
    ensures open { StaysOpen result (state S.Store conn.new) }
{
    let Some(row) = select_one(conn, COUNT, params![id.get()])? else {
        return Err(SqlFault::Store);
    };
    match number_at(&row, 0) {
        Ok(count) => Ok(count as usize),
        Err(_) => Err(SqlFault::Store),
    }
}

/// What the column `body` keeps of a change: the text of the row that it puts, which is made in
/// `text`, or NULL for a removal.
fn left_body<'a>(
    alloc: Global,
    change: &Change,
    text: &'a mut String,
) -> Result<ValueRef<'a>, NoMemory>
    ensures bound { IfOk result (λ body.
        bound_value (owned body) ∷ [] ≡ values_of (draft_columns change.now)) }
    ensures taken { (id : ℕ) → takes Draft (draft_key id change.now)
        (draft_columns change.now) ≡ true }
{
    match change {
        Change::Put(row) => {
            *text = write_body(alloc, row)?;
            Ok(text.as_str().to_sql())
        }
        Change::Remove(_) => Ok(ValueRef::Null),
    }
}

impl StoredRow for Change {
    type Of = InterId;

    ghost kept = { keep Draft Some draft_key draft_columns (IsChangeWithin current_limits) };

    #[tactic(auto, unfolding(sqlite_tied::specs::Compute::everything))]
    fn texts() -> Texts {
        texts! {
            "draft" of "inter" at "inter = ?1 AND kind = ?2 AND a = ?3 AND b = ?4"
            by "inter, kind, a, b",
            "inter, kind, a, b, body" = "?1, ?2, ?3, ?4, ?5", "body = ?5"
        }
    }

    /// Reads a draft row of five columns: one with a body puts that row, whose key the columns
    /// before it are; one without removes what is under the key. `Damaged` means that it does
    /// neither.
    fn read(alloc: Global, id: InterId, row: &SqlRow) -> Result<Change, ShelfFault> {
        let Some(found) = body_at(alloc, Version::Current, row, 4)? else {
            return Ok(Change::Remove(read_key(row, id)?));
        };
        check_key(row, id, &found.key())?;
        Ok(Change::Put(found))
    }

    fn bind<'a>(&'a self, alloc: Global, id: InterId, text: &'a mut String) -> Bound<'a> {
        let key = changed_key(self);
        let kind = key.kind().to_sql();
        let first = key.first().to_sql();
        let second = key.second().to_sql();
        let body = left_body(alloc, self, text)?;
        Ok(vec![in alloc; id.get().to_sql(), kind, first, second, body]?)
    }
}
