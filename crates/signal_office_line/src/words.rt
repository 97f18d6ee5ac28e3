//! Words of the command line that are names of files and people, codes of parts, or days.

ghost use Rattle.std.specs.Prelude.{◌≡◌, IfOk};
ghost use Rattle.office_files.specs.RecordReading.{day_of, part_of, words_of};

use cabinet_core::{Day, PartCode, read_day};
use signal_values::{NoMemory, Words};
use std::alloc::Global;
use std::marker::Model;

/// The path of a file or a folder, or `-` for standard input in place of a CSV file. Contracts see
/// the list of its bytes.
#[derive(Drop)]
pub struct Path<'a> {
    text: &'a str,
}

impl<'a> Model for Path<'a> {
    ghost use Rattle.std.specs.Prelude.{List, ℕ};

    ghost Value = { List ℕ };

    ghost view = { λ path. path.text.now };
}

impl<'a> Path<'a> {
    /// The word as a path; any word is one.
    pub(crate) fn new(text: &'a str) -> Path<'a>
        ensures { result ≡ text.now }
    {
        Path { text }
    }

    /// The path as the text that the command line has.
    pub fn as_str(&self) -> &str
        ensures { result.now ≡ self.now }
    {
        self.text
    }
}

/// A name of 1 to `MAX` bytes without control characters. Contracts see the list of its bytes.
#[derive(Drop)]
pub struct Name<'a, const MAX: usize> {
    text: &'a str,
}

impl<'a, const MAX: usize> Model for Name<'a, MAX> {
    ghost use Rattle.std.specs.Prelude.{List, ℕ};
    ghost use Rattle.signal_values.specs.Words.{AreWords};

    ghost Value = { List ℕ };

    ghost view = { λ name. name.text.now };

    ghost invariant = { λ name. AreWords MAX name.text.now };
}

impl<'a, const MAX: usize> Name<'a, MAX> {
    /// The word as a name, if it has 1 to `MAX` bytes and no control character.
    pub(crate) fn parse(word: &'a str) -> Option<Name<'a, MAX>>
        ensures { result ≡ words_of MAX word.now }
    {
        let text = Words::<MAX>::parse(word.as_bytes())?;
        Some(Name { text })
    }

    /// A copy of the name, in memory of its own.
    pub fn to_words(&self, alloc: Global) -> Result<Words<MAX>, NoMemory>
        ensures { IfOk result (λ words. words ≡ self.now) }
    {
        Words::from_parsed(alloc, self.text)
    }
}

/// The code of a part: 1 to 20 of the bytes `A` to `Z`, `0` to `9` and `-`. Contracts see the list
/// of its bytes.
#[derive(Drop)]
pub struct Part<'a> {
    text: &'a str,
}

impl<'a> Model for Part<'a> {
    ghost use Rattle.std.specs.Prelude.{List, ℕ};
    ghost use Rattle.cabinet_core.specs.Part.{IsPartCode};

    ghost Value = { List ℕ };

    ghost view = { λ part. part.text.now };

    ghost invariant = { λ part. IsPartCode part.text.now };
}

impl<'a> Part<'a> {
    /// The word as the code of a part, if it is one.
    pub(crate) fn parse(word: &'a str) -> Option<Part<'a>>
        ensures { result ≡ part_of word.now }
    {
        let text = PartCode::parse(word.as_bytes())?;
        Some(Part { text })
    }

    /// A copy of the code, in memory of its own.
    pub fn to_code(&self, alloc: Global) -> Result<PartCode, NoMemory>
        ensures { IfOk result (λ code. code ≡ self.now) }
    {
        PartCode::from_parsed(alloc, self.text)
    }
}

/// The day that a word spells as `YYYY-MM-DD`, if it is one from 1970-01-01 to 2199-12-31.
pub(crate) fn day_of(word: &str) -> Option<Day>
    ensures { result ≡ day_of word.now }
{
    read_day(word.as_bytes())
}
