//! The schema of the office in SQL: the texts that make its tables, and whether a database has
//! them.

ghost use Rattle.std.specs.Prelude.{◌≡◌, map, IsTrue};
ghost use Rattle.std.specs.List.{AllByRecursion};
ghost use Rattle.office_tables_statements.specs.Schema.{office_schema, IsNameAmong, IsOffices};

use crate::parts::{are, are_indexes, is_named, is_one_of};
use crate::tables::TABLES;
use sqlite_schema::schema::{Schema, Table};

/// The statements of SQL that make the office's nine tables, in the order of their numbers. No
/// table refers to a later one.
pub const CREATES: [&str; 9] = [
    "CREATE TABLE intersection (id INTEGER PRIMARY KEY, name TEXT NOT NULL, days INTEGER NOT \
        NULL, revision INTEGER NOT NULL, state INTEGER NOT NULL, owner TEXT) STRICT",
    "CREATE TABLE timing (inter INTEGER NOT NULL REFERENCES intersection, kind INTEGER NOT \
        NULL, a INTEGER NOT NULL, b INTEGER NOT NULL, body TEXT NOT NULL, PRIMARY KEY (inter, \
        kind, a, b)) STRICT",
    "CREATE TABLE draft (inter INTEGER NOT NULL REFERENCES intersection, kind INTEGER NOT \
        NULL, a INTEGER NOT NULL, b INTEGER NOT NULL, body TEXT, PRIMARY KEY (inter, kind, a, \
        b)) STRICT",
    "CREATE TABLE inspection (inter INTEGER NOT NULL REFERENCES intersection, number INTEGER \
        NOT NULL, day INTEGER NOT NULL, clerk TEXT NOT NULL, body TEXT NOT NULL, PRIMARY KEY \
        (inter, number)) STRICT",
    "CREATE TABLE work_order (inter INTEGER NOT NULL REFERENCES intersection, number INTEGER \
        NOT NULL, opened INTEGER NOT NULL, clerk TEXT NOT NULL, body TEXT NOT NULL, closed \
        INTEGER, closer TEXT, PRIMARY KEY (inter, number)) STRICT",
    "CREATE TABLE part (code TEXT NOT NULL PRIMARY KEY, hand INTEGER NOT NULL CHECK (hand >= \
        0)) STRICT",
    "CREATE TABLE delivery (part TEXT NOT NULL REFERENCES part, number INTEGER NOT NULL, day \
        INTEGER NOT NULL, amount INTEGER NOT NULL, PRIMARY KEY (part, number)) STRICT",
    "CREATE TABLE used_part (inter INTEGER NOT NULL REFERENCES intersection, ord INTEGER NOT \
        NULL, line INTEGER NOT NULL, part TEXT NOT NULL REFERENCES part, amount INTEGER NOT \
        NULL, PRIMARY KEY (inter, ord, line), FOREIGN KEY (inter, ord) REFERENCES work_order) \
        STRICT",
    "CREATE TABLE office_version (one INTEGER PRIMARY KEY CHECK (one = 1), version INTEGER \
        NOT NULL) STRICT",
];

/// Whether a database has the nine tables of the office under their numbers, with the indexes of
/// their keys, and nothing else.
pub fn is_office(schema: &Schema) -> bool
    ensures is { IsTrue result → schema.now ≡ office_schema }
    ensures other { schema.now ≡ office_schema → IsTrue result }
{
    schema.views.is_empty()
        && are_indexes(schema.indexes.as_slice(), &TABLES)
        && are(schema.tables.as_slice(), &TABLES)
}

/// Whether the name is that of a table of the office.
pub fn is_name(name: &[u8]) -> bool
    ensures { IsTrue result → IsNameAmong name.now (map (λ t. t.name) office_schema.tables) }
{
    is_named(name, &TABLES)
}

fn is_ours(table: &Table) -> bool
    ensures { IsTrue result → IsOffices table.now }
{
    is_one_of(table, &TABLES)
}

/// Whether each of these is a table of the office, whatever its number. Tables may be missing.
pub fn are_of_office(tables: &[Table]) -> bool
    ensures { IsTrue result → AllByRecursion IsOffices tables.now }
{
    let Some((table, tables)) = tables.split_first() else {
        return true;
    };
    is_ours(table) && are_of_office(tables)
}
