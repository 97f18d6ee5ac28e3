//! The violations of a timing set as a text.

ghost use Rattle.std.specs.Prelude.{◌≡◌, IfOk};
ghost use Rattle.office_files.specs.Violations.{violations_text};

use signal_records::NoMemory;
use signal_rules::Violation;
use std::alloc::Global;
use std::fmt::Write;

/// A line for each violation, in order, as `pattern 1 V13`, or the one line `no violations`. Each
/// line ends in a line feed.
pub fn violation_text(alloc: Global, violations: &[Violation]) -> Result<Vec<u8>, NoMemory>
    ensures { IfOk result (λ text. text.items ≡ violations_text violations.now) }
{
    let mut text = String::new(alloc);
    for violation in violations {
        writeln!(text, "{violation}")?;
    }
    if violations.is_empty() {
        text.push_str("no violations\n")?;
    }
    Ok(text.into_bytes())
}
