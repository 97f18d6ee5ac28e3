//! Columns of printed tables.

ghost use Rattle.std.specs.Prelude.{◌≡◌, ◌++◌, OnOk, string_bytes};
ghost use Rattle.office_files.specs.Cells.{number_column, tenths_column, flag_column, numbers_text};

use signal_records::PhaseNo;
use std::alloc::AllocError;
use std::fmt::Write;

/// Appends a number, right-aligned in six places.
pub(crate) fn push_number(text: &mut String, number: u32) -> Result<(), AllocError>
    ensures { OnOk result (string_bytes text.new ≡ string_bytes text.old ++ number_column number) }
{
    write!(text, "{number:>6}")
}

/// Appends 1 if the flag is set, else 0, right-aligned in six places.
pub(crate) fn push_flag(text: &mut String, set: bool) -> Result<(), AllocError>
    ensures { OnOk result (string_bytes text.new ≡ string_bytes text.old ++ flag_column set) }
{
    push_number(text, u32::from(set))
}

/// Appends a number of tenths, as whole part, point and tenth, right-aligned in six places.
pub(crate) fn push_tenths(text: &mut String, number: u32) -> Result<(), AllocError>
    ensures { OnOk result (string_bytes text.new ≡ string_bytes text.old ++ tenths_column number) }
{
    let whole = number / 10;
    let tenth = number % 10;
    write!(text, "{whole:>4}.{tenth}")
}

/// Appends the numbers of these phases, each after a space, or a space and a dash if there are
/// none.
pub fn push_numbers(text: &mut String, phases: &[PhaseNo]) -> Result<(), AllocError>
    ensures { OnOk result (string_bytes text.new ≡ string_bytes text.old
        ++ numbers_text phases.now) }
{
    if phases.is_empty() {
        text.push_str(" -")?;
    }
    for phase in phases {
        let n = phase.get();
        write!(text, " {n}")?;
    }
    Ok(())
}
