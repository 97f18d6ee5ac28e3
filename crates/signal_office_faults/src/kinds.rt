//! The kind of a record of a plan, by its first fields.

ghost use Rattle.std.specs.Prelude.{◌≡◌};
ghost use Rattle.signal_records.specs.Reading.{texts};
ghost use Rattle.signal_office_faults.specs.Padded.{kind_of_row, record_kind_of, row_kind};

/// The kind of a row of a plan.
#[derive(Clone, Copy)]
pub enum RowKind {
    Phase,
    Seq,
    Split,
    Pattern,
    /// No kind of row has this name, or there is no name.
    Other,
}

/// The kind of a record of a plan: that of the row that it puts, or of the key that it removes.
#[derive(Clone, Copy)]
pub struct RecordKind {
    pub kind: RowKind,
    pub removes: bool,
}

/// The kind of a row, by its name.
fn row_kind(name: &[u8]) -> RowKind
    ensures { result ≡ row_kind name.now }
{
    if name == b"phase".as_slice() {
        RowKind::Phase
    } else if name == b"seq".as_slice() {
        RowKind::Seq
    } else if name == b"split".as_slice() {
        RowKind::Split
    } else if name == b"pattern".as_slice() {
        RowKind::Pattern
    } else {
        RowKind::Other
    }
}

/// The kind of a row or a key, by its fields, which begin with its name.
fn kind_of_row(fields: &[&[u8]]) -> RowKind
    ensures { result ≡ kind_of_row (texts fields.now) }
{
    match fields {
        [] => RowKind::Other,
        [name, ..] => row_kind(name),
    }
}

/// The kind of a record, by its fields.
pub(crate) fn record_kind_of(fields: &[&[u8]]) -> RecordKind
    ensures { result ≡ record_kind_of (texts fields.now) }
{
    match fields {
        [name, rest @ ..] if *name == b"remove".as_slice() => RecordKind {
            kind: kind_of_row(rest),
            removes: true,
        },
        _ => RecordKind {
            kind: kind_of_row(fields),
            removes: false,
        },
    }
}
