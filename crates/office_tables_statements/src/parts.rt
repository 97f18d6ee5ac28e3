//! The parts of a database's schema, compared with what the tables of the office have to be.

ghost use Rattle.std.specs.Prelude.{◌≡◌, ◌↔◌, [], Some, false, map, IsTrue};
ghost use Rattle.sqlite_schema.specs.Code.{terms_in};
ghost use Rattle.office_tables_statements.specs.Schema.{with_tree, IsAlikeOne, IsNameAmong};
ghost use Rattle.office_tables_statements.specs.Wanted.{column_wanted, reference_wanted, ComparesAt, checks_wanted, table_wanted, index_wanted, indexes_wanted};

use sqlite_items::Items;
use sqlite_schema::code::{Op, Terms};
use sqlite_schema::schema::{Action, Column, Index, Kind, Reference, Table};
use sqlite_sql::ops::{BinaryOp, CompareOp};
use sqlite_value::keys::{Collation, Order};
use sqlite_value::value::Value;

/// What a part of a schema has to be.
pub(crate) trait Wanted {
    type Found;

    /// The part that is wanted.
    ghost made: { Self → Self.Found };

    /// Whether a part is the wanted one.
    fn is(&self, found: &Self::Found) -> bool
        ensures { IsTrue result ↔ (found.now ≡ made self.now) };
}

/// Whether parts are the wanted ones, in their order.
pub(crate) fn are<W: Wanted>(found: &[W::Found], wanted: &[W]) -> bool
    ensures { IsTrue result ↔ (found.now ≡ map W.made wanted.now) }
{
    let Some((first, found)) = found.split_first() else {
        return wanted.is_empty();
    };
    let Some((want, wanted)) = wanted.split_first() else {
        return false;
    };
    want.is(first) && are(found, wanted)
}

/// What a column has to be: its name, its kind, and whether it refuses NULL.
pub type WantedColumn<'a> = (&'a str, Kind, bool);

impl Wanted for WantedColumn<'_> {
    type Found = Column;

    ghost made = { column_wanted };

    fn is(&self, found: &Column) -> bool {
        found.name.as_slice() == self.0.as_bytes()
            && found.kind == self.1
            && found.is_strict
            && found.not_null == self.2
            && matches!(found.default, Value::Null)
            && found.collation == Collation::Binary
    }
}

/// What a foreign key has to be: the table that it names, and the places of its columns in a stored
/// row, whose rowid is at place 0.
pub(crate) type WantedReference<'a> = (&'a str, &'a [usize]);

impl Wanted for WantedReference<'_> {
    type Found = Reference;

    ghost made = { reference_wanted };

    fn is(&self, found: &Reference) -> bool {
        found.columns.as_slice() == self.1
            && found.parent.as_slice() == self.0.as_bytes()
            && found.parent_columns.is_empty()
            && found.on_delete == Action::NoAction
            && found.on_update == Action::NoAction
            && !found.is_deferred
    }
}

/// What a CHECK has to be: this comparison of the column at this place of a stored row with a
/// number.
pub(crate) struct WantedCheck(pub(crate) CompareOp, pub(crate) usize, pub(crate) i64);

/// Whether the node at this place is the wanted comparison.
fn is_comparison(nodes: &[Op], root: usize, want: &WantedCheck) -> bool
    ensures { IsTrue result ↔ ComparesAt nodes.now root want.now }
{
    match nodes.get(root) {
        Some(Op::Binary(BinaryOp::Compare(found, Collation::Binary), left, right)) => {
            *found == want.0
                && matches!(nodes.get(*left), Some(Op::Column(1, place)) if *place == want.1)
                && matches!(nodes.get(*right), Some(Op::Literal(Value::Int(n))) if *n == want.2)
        }
        _ => false,
    }
}

/// Whether the terms with these roots are one, the wanted comparison.
fn is_check(nodes: &[Op], roots: &[usize], want: &WantedCheck) -> bool
    ensures { IsTrue result ↔ (terms_in nodes.now roots.now ≡ checks_wanted (Some want.now)) }
{
    let [root] = roots else {
        return false;
    };
    if nodes.len() < 2 {
        return false;
    }
    is_comparison(nodes, *root, want)
}

/// Whether the checks of a table are the one that is wanted, if one is.
fn are_checks(checks: &Terms, want: &Option<WantedCheck>) -> bool
    ensures { IsTrue result ↔ (checks.now ≡ checks_wanted want.now) }
{
    match want {
        None => checks.roots.is_empty(),
        Some(want) => is_check(checks.nodes.as_slice(), checks.roots.as_slice(), want),
    }
}

/// How a table's rows are found: the places of its PRIMARY KEY in a stored row, and the name of the
/// index that keeps it; none where the key is the rowid.
pub(crate) type WantedKey<'a> = (&'a [usize], Option<&'a str>);

impl Wanted for &[usize] {
    type Found = Items<usize>;

    ghost made = { λ places. places.now };

    fn is(&self, found: &Items<usize>) -> bool {
        found.as_slice() == *self
    }
}

/// What a table has to be: its name, its number, which is a place in the catalog, its key, its
/// columns, its CHECK, and its foreign keys.
pub(crate) type WantedTable<'a> = (
    &'a str,
    u32,
    WantedKey<'a>,
    &'a [WantedColumn<'a>],
    Option<WantedCheck>,
    &'a [WantedReference<'a>],
);

/// Whether the rows of a table are found by the wanted key, at these places.
fn is_keyed(table: &Table, want: &WantedTable<'_>) -> bool
    ensures { IsTrue result ↔ ((table.now.key ≡ (table_wanted want.now).key)
        × (table.now.uniques ≡ (table_wanted want.now).uniques)
        × (table.now.orders ≡ (table_wanted want.now).orders)) }
{
    let (uniques, orders) = (table.uniques.as_slice(), table.orders.as_slice());
    match want.2 {
        (_, None) => table.key == Some(0) && uniques.is_empty() && orders.is_empty(),
        (places, Some(_)) => {
            let [order] = orders else {
                return false;
            };
            table.key.is_none() && are(uniques, &[places]) && *order == Order::PLAIN
        }
    }
}

/// Whether the table computes nothing of a new row, and has no AUTOINCREMENT.
fn is_plain(table: &Table) -> bool
    ensures { IsTrue result ↔ ((table.now.computed ≡ [])
        × (table.now.stamps ≡ record { places = []; terms = []; formats = [] })
        × (table.now.is_counted ≡ false)) }
{
    table.computed.is_empty()
        && table.stamps.places.is_empty()
        && table.stamps.terms.roots.is_empty()
        && table.stamps.formats.is_empty()
        && !table.is_counted
}

/// Whether the table is the wanted one, whatever its number.
fn is_alike(table: &Table, want: &WantedTable<'_>) -> bool
    ensures { IsTrue result ↔ (table.now ≡ with_tree (table_wanted want.now) table.now.tree) }
{
    let (name, _, key, columns, check, references) = want;
    table.name.as_slice() == name.as_bytes()
        && are(table.columns.as_slice(), columns)
        && table.primary.as_slice() == key.0
        && is_keyed(table, want)
        && are_checks(&table.checks, check)
        && are(table.references.as_slice(), references)
        && is_plain(table)
}

impl Wanted for WantedTable<'_> {
    type Found = Table;

    ghost made = { table_wanted };

    fn is(&self, found: &Table) -> bool {
        found.tree == self.1 && is_alike(found, self)
    }
}

/// Whether the table is one of the wanted ones, whatever its number.
pub(crate) fn is_one_of(table: &Table, wanted: &[WantedTable<'_>]) -> bool
    ensures { IsTrue result → IsAlikeOne (map table_wanted wanted.now) table.now }
{
    let Some((want, wanted)) = wanted.split_first() else {
        return false;
    };
    is_alike(table, want) || is_one_of(table, wanted)
}

/// Whether the name is that of one of the wanted tables.
pub(crate) fn is_named(name: &[u8], wanted: &[WantedTable<'_>]) -> bool
    ensures { IsTrue result →
        IsNameAmong name.now (map (λ t. t.name) (map table_wanted wanted.now)) }
{
    let Some((want, wanted)) = wanted.split_first() else {
        return false;
    };
    name == want.0.as_bytes() || is_named(name, wanted)
}

/// Whether the index is that of this name which keeps the key of this table.
fn is_index(index: &Index, name: &str, table: u32, places: &[usize]) -> bool
    ensures { IsTrue result ↔ (index.now ≡ index_wanted name.now table places.now) }
{
    index.name.as_slice() == name.as_bytes()
        && index.tree.checked_sub(1) == Some(table)
        && index.table == table
        && index.columns.as_slice() == places
        && index.order == Order::PLAIN
        && index.is_unique
}

/// Whether the indexes are those of the wanted tables' keys, in the order of the tables.
pub(crate) fn are_indexes(indexes: &[Index], wanted: &[WantedTable<'_>]) -> bool
    ensures { IsTrue result ↔ (indexes.now ≡ indexes_wanted wanted.now) }
{
    let Some(((_, table, key, ..), wanted)) = wanted.split_first() else {
        return indexes.is_empty();
    };
    let (places, Some(name)) = key else {
        return are_indexes(indexes, wanted);
    };
    let Some((index, indexes)) = indexes.split_first() else {
        return false;
    };
    is_index(index, name, *table, places) && are_indexes(indexes, wanted)
}
