//! Short texts.

ghost use Rattle.std.specs.Prelude.{◌≡◌, ◌↔◌, IsSome, IfSome, IfOk, IfErr};
ghost use Rattle.signal_values.specs.Words.{AreWords};

use crate::NoMemory;
use std::alloc::{AllocError, Global};
use std::marker::Model;

/// A text of 1 to `MAX` bytes of UTF-8 without control characters: none below U+0020, and no
/// U+007F. It is seen as the list of its bytes.
#[derive(Drop)]
pub struct Words<const MAX: usize> {
    text: String,
}

impl<const MAX: usize> Model for Words<MAX> {
    ghost use Rattle.std.specs.Prelude.{List, ℕ, string_bytes};
    ghost use Rattle.signal_values.specs.Words.{AreWords};

    ghost Value = { List ℕ };

    ghost view = { λ w. string_bytes w.text };

    ghost invariant = { λ w. AreWords MAX (string_bytes w.text) };
}

impl<const MAX: usize> Words<MAX> {
    /// The bytes as a text, if they are 1 to `MAX` bytes of UTF-8 without control characters. It
    /// takes no memory.
    pub fn parse(bytes: &[u8]) -> Option<&str>
        ensures accepts { IsSome result ↔ AreWords MAX bytes.now }
        ensures keeps { IfSome result (λ text. text.now ≡ bytes.now) }
        ensures words { IfSome result (λ text. AreWords MAX text.now) }
    {
        if bytes.is_empty() || MAX < bytes.len() {
            return None;
        }
        if !bytes.iter().all(|&b| 32 <= b && b != 127) {
            return None;
        }
        let Ok(text) = str::from_utf8(bytes) else {
            return None;
        };
        Some(text)
    }

    /// A text that `parse` gave, in memory of its own.
    pub fn from_parsed(alloc: Global, text: &str) -> Result<Self, NoMemory>
        requires { AreWords MAX text.now }
        ensures { IfOk result (λ words. words ≡ text.now) }
    {
        Ok(Words {
            text: String::from_str(alloc, text)?,
        })
    }

    /// A text of these bytes, if they are 1 to `MAX` bytes of UTF-8 without control characters.
    /// Other bytes take no memory.
    pub fn new(alloc: Global, bytes: &[u8]) -> Result<Option<Self>, NoMemory>
        ensures accepts { IfOk result (λ words. IsSome words ↔ AreWords MAX bytes.now) }
        ensures keeps { IfOk result (λ words. IfSome words (λ text. text ≡ bytes.now)) }
        ensures memory { IfErr result (λ _. AreWords MAX bytes.now) }
    {
        let Some(text) = Self::parse(bytes) else {
            return Ok(None);
        };
        Ok(Some(Self::from_parsed(alloc, text)?))
    }

    /// The text as a `str` of 1 to `MAX` bytes.
    pub fn as_str(&self) -> &str
        ensures text { result.now ≡ self.now }
        ensures words { AreWords MAX self.now }
    {
        self.text.as_str()
    }
}

impl<const MAX: usize> Clone for Words<MAX> {
    ghost is_clone = { λ words copy. copy ≡ words };

    fn clone(&self) -> Result<Words<MAX>, AllocError> {
        Ok(Words {
            text: self.text.clone()?,
        })
    }
}

impl<const MAX: usize> PartialEq for Words<MAX> {
    ghost use Rattle.std.specs.Str.{bytes_eq};
    ghost use Rattle.std.specs.Cmp.{partial_equiv_from_equiv};
    ghost use Rattle.std.specs.Cmp.Lexicographic.{nat_list_eq_equiv};

    ghost eq = { bytes_eq };

    ghost laws = { partial_equiv_from_equiv nat_list_eq_equiv };

    fn eq(&self, other: &Words<MAX>) -> bool {
        self.as_str() == other.as_str()
    }
}

impl<const MAX: usize> Eq for Words<MAX> {
    ghost use Rattle.std.specs.Cmp.Lexicographic.{nat_list_eq_equiv};

    ghost laws = { nat_list_eq_equiv };
}
