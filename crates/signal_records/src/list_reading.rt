//! A field of a row that spells a list of phases.

ghost use Rattle.std.specs.Prelude.{◌≡◌, ◌≤◌, length, IfOk, IfErr};
ghost use Rattle.signal_values.specs.declared.number.TheConstants.{PHASES};
ghost use Rattle.signal_records.specs.Reading.{parts, phase_in, phases_in, spells_phases};

use crate::NoMemory;
use crate::phase_list::{MetPhases, PhaseList};
use signal_values::{PhaseNo, numeral};
use std::alloc::Global;
use std::marker::Model;

/// A field that spells distinct phases, perhaps none, with one space between each two. It is seen
/// as the list of their numbers.
#[derive(Drop)]
pub(crate) struct SpelledPhases<'a> {
    bytes: &'a [u8],
}

impl<'a> Model for SpelledPhases<'a> {
    ghost use Rattle.std.specs.Prelude.{List, ℕ, IsTrue};
    ghost use Rattle.signal_values.specs.declared.number.TheConstants.{PHASES};
    ghost use Rattle.signal_records.specs.Reading.{spelled_numbers, spells_phases};

    ghost Value = { List ℕ };

    ghost view = { λ s. spelled_numbers s.bytes.now };

    ghost invariant = { λ s. IsTrue (spells_phases PHASES s.bytes.now) };
}

impl<'a> SpelledPhases<'a> {
    /// The field of these bytes, if they spell distinct phases from 1 to the last one. It takes no
    /// memory.
    pub(crate) fn new(last: u32, bytes: &'a [u8]) -> Option<SpelledPhases<'a>>
        requires { last ≤ PHASES }
        ensures { result ≡ phases_in last (parts bytes.now) }
    {
        if spells_phases(last, bytes) {
            Some(SpelledPhases { bytes })
        } else {
            None
        }
    }

    /// The list of the phases that the field spells. An empty list takes no memory.
    pub(crate) fn list(&self, alloc: Global) -> Result<PhaseList, NoMemory>
        ensures list { IfOk result (λ list. list ≡ self.now) }
        ensures memory { IfErr result (λ _. 1 ≤ length self.now) }
    {
        let bytes = self.bytes;
        if bytes.is_empty() {
            return Ok(PhaseList::from_phases(Vec::new(alloc)));
        }
        let parts = bytes.split(|b| *b == b' ');
        let phases = parts.filter_map(|part| phase_in(part)).collect(alloc)?;
        Ok(PhaseList::from_phases(phases))
    }
}

/// The phase that a part of a list spells, if it spells one.
fn phase_in(part: &[u8]) -> Option<PhaseNo>
    ensures { result ≡ phase_in part.now }
{
    PhaseNo::new(numeral(part)?)
}

/// Whether the bytes spell distinct phases, from 1 to the last one, with one space between each
/// two. Empty bytes spell the empty list.
fn spells_phases(last: u32, bytes: &[u8]) -> bool
    requires { last ≤ PHASES }
    ensures { result ≡ spells_phases last bytes.now }
{
    if bytes.is_empty() {
        return true;
    }
    let mut met = MetPhases::none();
    for part in bytes.split(|b| *b == b' ') {
        let Some(n) = numeral(part) else {
            return false;
        };
        if !met.meets(last, n) {
            return false;
        }
    }
    true
}
