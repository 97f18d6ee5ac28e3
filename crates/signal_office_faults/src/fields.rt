//! The fields of the records of a CSV file: their names, and what they may have.

use crate::kinds::{RecordKind, RowKind};

/// What a field with a list of phases may have.
const PHASE_LIST: &str = "phases 1 to 32, each once, one space between two";

/// A field of a record: its name, and what it may have, numbers with their unit.
#[derive(Clone, Copy)]
pub(crate) struct Field(pub(crate) &'static str, pub(crate) &'static str);

const PHASE: Field = Field("phase", "1 to 32");

const RING: Field = Field("ring", "1 to 8");

const SEQUENCE: Field = Field("sequence", "1 to 20");

const SPLIT: Field = Field("split", "1 to 20");

const PATTERN: Field = Field("pattern", "1 to 48");

const PHASE_FIELDS: &[Field] = &[
    PHASE,
    RING,
    Field("minimum green", "0 to 255 seconds"),
    Field("passage", "0 to 255 tenths of a second"),
    Field("maximum 1", "0 to 255 seconds"),
    Field("yellow", "0 to 255 tenths of a second"),
    Field("red", "0 to 255 tenths of a second"),
    Field("mates", PHASE_LIST),
    Field("walk", "0 to 255 seconds"),
    Field("pedestrian clearance", "0 to 255 seconds"),
    Field("width", "0 to 9999 tenths of a foot"),
    Field("setback", "0 to 999 tenths of a foot"),
    Field("short", "0 or 1"),
    Field("lead", "0 to 10 seconds"),
];

const SPLIT_FIELDS: &[Field] = &[
    SPLIT,
    PHASE,
    Field("time", "0 to 255 seconds"),
    Field("mode", "2 to 7"),
    Field("coordinated", "0 or 1"),
];

const PATTERN_FIELDS: &[Field] = &[
    PATTERN,
    Field("cycle", "1 to 255 seconds"),
    Field("offset", "0 to 255 seconds"),
    SPLIT,
    SEQUENCE,
];

const INTERSECTION: Field = Field("intersection", "1 to 9999");

const NUMBER: Field = Field("number", "1 to 999999");

const ORDER: Field = Field("order", "1 to 999999");

const DAY: Field = Field("day", "YYYY-MM-DD");

const CLERK: Field = Field("clerk", "1 to 40 bytes without control characters");

const PART: Field = Field("part", "1 to 20 of A to Z, 0 to 9 and -");

const COUNT: Field = Field("count", "1 to 999999999");

const TEXT: Field = Field("text", "1 to 500 bytes without control characters");

/// The fields of a record of a plan after its kind, in order; for a removal, the fields of the key.
fn plan_fields(of: RecordKind) -> &'static [Field] {
    match (of.removes, of.kind) {
        (false, RowKind::Phase) => PHASE_FIELDS,
        (false, RowKind::Seq) => &[SEQUENCE, RING, Field("phases", PHASE_LIST)],
        (false, RowKind::Split) => SPLIT_FIELDS,
        (false, RowKind::Pattern) => PATTERN_FIELDS,
        (true, RowKind::Phase) => &[PHASE],
        (true, RowKind::Seq) => &[SEQUENCE, RING],
        (true, RowKind::Split) => &[SPLIT, PHASE],
        (true, RowKind::Pattern) => &[PATTERN],
        (_, RowKind::Other) => &[],
    }
}

/// The fields of a record of the register after its kind, in order; none for an unknown kind.
fn register_fields(kind: &[u8]) -> &'static [Field] {
    if kind == b"inspection".as_slice() || kind == b"order".as_slice() {
        &[INTERSECTION, NUMBER, DAY, CLERK, TEXT]
    } else if kind == b"use".as_slice() {
        &[INTERSECTION, ORDER, Field("line", "1 to 99"), PART, COUNT]
    } else if kind == b"close".as_slice() {
        &[INTERSECTION, ORDER, DAY, CLERK]
    } else if kind == b"delivery".as_slice() {
        &[PART, NUMBER, DAY, COUNT]
    } else {
        &[]
    }
}

/// The fields of a record of a plan or of the register after its kind; none for an unknown kind.
pub(crate) fn fields_behind(of: RecordKind, kind: &[u8]) -> &'static [Field] {
    match of.kind {
        RowKind::Other if !of.removes => register_fields(kind),
        _ => plan_fields(of),
    }
}

/// How many fields the records of a kind have, as a text.
pub(crate) fn widths_of(of: RecordKind, kind: &[u8]) -> &'static str {
    match (of.removes, of.kind, fields_behind(of, kind).len()) {
        (false, RowKind::Phase, _) => "9 or 15",
        (true, _, 1) => "3",
        (true, _, _) | (false, _, 3) => "4",
        (false, _, 4) => "5",
        _ => "6",
    }
}
