//! The tables of the office: what each has to be in a schema.

ghost use Rattle.std.specs.Prelude.{◌≡◌, map};
ghost use Rattle.office_tables_statements.specs.{Layout.layout_at, Layout.schema_at, Wanted.column_wanted, Wanted.table_wanted};

use crate::parts::{WantedCheck, WantedColumn, WantedTable};
use office_tables_shelf::rows::Table;
use sqlite_schema::schema::Kind::{Integer, Text};
use sqlite_sql::ops::CompareOp;

/// What each table has to be, in the order of the numbers. A number is a place in the catalog,
/// where each PRIMARY KEY that is no rowid takes the next one for its index.
pub(crate) static TABLES: [WantedTable<'static>; 9] = [
    (
        "intersection",
        0,
        (&[0], None),
        &[
            ("id", Integer, false),
            ("name", Text, true),
            ("days", Integer, true),
            ("revision", Integer, true),
            ("state", Integer, true),
            ("owner", Text, false),
        ],
        None,
        &[],
    ),
    (
        "timing",
        1,
        (&[1, 2, 3, 4], Some("sqlite_autoindex_timing_1")),
        &[
            ("inter", Integer, true),
            ("kind", Integer, true),
            ("a", Integer, true),
            ("b", Integer, true),
            ("body", Text, true),
        ],
        None,
        &[("intersection", &[1])],
    ),
    (
        "draft",
        3,
        (&[1, 2, 3, 4], Some("sqlite_autoindex_draft_1")),
        &[
            ("inter", Integer, true),
            ("kind", Integer, true),
            ("a", Integer, true),
            ("b", Integer, true),
            ("body", Text, false),
        ],
        None,
        &[("intersection", &[1])],
    ),
    (
        "inspection",
        5,
        (&[1, 2], Some("sqlite_autoindex_inspection_1")),
        &[
            ("inter", Integer, true),
            ("number", Integer, true),
            ("day", Integer, true),
            ("clerk", Text, true),
            ("body", Text, true),
        ],
        None,
        &[("intersection", &[1])],
    ),
    (
        "work_order",
        7,
        (&[1, 2], Some("sqlite_autoindex_work_order_1")),
        &[
            ("inter", Integer, true),
            ("number", Integer, true),
            ("opened", Integer, true),
            ("clerk", Text, true),
            ("body", Text, true),
            ("closed", Integer, false),
            ("closer", Text, false),
        ],
        None,
        &[("intersection", &[1])],
    ),
    (
        "part",
        9,
        (&[1], Some("sqlite_autoindex_part_1")),
        &[("code", Text, true), ("hand", Integer, true)],
        Some(WantedCheck(CompareOp::Ge, 2, 0)),
        &[],
    ),
    (
        "delivery",
        11,
        (&[1, 2], Some("sqlite_autoindex_delivery_1")),
        &[
            ("part", Text, true),
            ("number", Integer, true),
            ("day", Integer, true),
            ("amount", Integer, true),
        ],
        None,
        &[("part", &[1])],
    ),
    (
        "used_part",
        13,
        (&[1, 2, 3], Some("sqlite_autoindex_used_part_1")),
        &[
            ("inter", Integer, true),
            ("ord", Integer, true),
            ("line", Integer, true),
            ("part", Text, true),
            ("amount", Integer, true),
        ],
        None,
        &[
            ("intersection", &[1]),
            ("part", &[4]),
            ("work_order", &[1, 2]),
        ],
    ),
    (
        "office_version",
        15,
        (&[0], None),
        &[("one", Integer, false), ("version", Integer, true)],
        Some(WantedCheck(CompareOp::Eq, 0, 1)),
        &[],
    ),
];

/// What one of the eight tables beside that of the version has to be.
fn description_of(table: Table) -> &'static WantedTable<'static>
    ensures { table_wanted result.now ≡ schema_at table }
{
    match table {
        Table::Intersection => &TABLES[0],
        Table::Timing => &TABLES[1],
        Table::Draft => &TABLES[2],
        Table::Inspection => &TABLES[3],
        Table::WorkOrder => &TABLES[4],
        Table::Part => &TABLES[5],
        Table::Delivery => &TABLES[6],
        Table::UsedPart => &TABLES[7],
    }
}

/// The name of a table.
pub fn name_of(table: Table) -> &'static str
    ensures { result.now ≡ (schema_at table).name }
{
    description_of(table).0
}

/// The columns of a table, in their order.
pub fn columns_of(table: Table) -> &'static [WantedColumn<'static>]
    ensures { map column_wanted result.now ≡ (schema_at table).columns }
{
    description_of(table).3
}

/// The places of a table's key in a stored row, whose rowid is at place 0.
pub fn keys_of(table: Table) -> &'static [usize]
    ensures { result.now ≡ (layout_at table).keys }
{
    description_of(table).2.0
}
