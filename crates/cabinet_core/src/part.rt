//! Parts, and how many of them are on hand.

ghost use Rattle.std.specs.Prelude.{◌≡◌, ◌↔◌, IsSome, IfSome, IfOk, IfErr};
ghost use Rattle.cabinet_core.specs.Part.{IsPartCode, is_code_byte};

use signal_values::{NoMemory, Number};
use std::alloc::{AllocError, Global};
use std::cmp::Ordering;
use std::marker::Model;

/// The most pieces of a part that can be on hand.
pub const MOST_ON_HAND: u32 = 999_999_999;

/// Marks the numbers of the type `Hand`; this mark has no values.
pub enum Stocked {}

/// How many pieces of a part are on hand: 0 to 999,999,999.
pub type Hand = Number<Stocked, 0, MOST_ON_HAND>;

/// The code of a part: 1 to 20 bytes, each `A` to `Z`, `0` to `9` or `-`. It is seen as the list of
/// its bytes, and ordered by them.
#[derive(Drop)]
pub struct PartCode {
    text: String,
}

impl Model for PartCode {
    ghost use Rattle.std.specs.Prelude.{List, ℕ, string_bytes};
    ghost use Rattle.cabinet_core.specs.Part.{IsPartCode};

    ghost Value = { List ℕ };

    ghost view = { λ p. string_bytes p.text };

    ghost invariant = { λ p. IsPartCode (string_bytes p.text) };
}

impl PartCode {
    /// The bytes as a text, if they are a part's code. It takes no memory.
    pub fn parse(bytes: &[u8]) -> Option<&str>
        ensures accepts { IsSome result ↔ IsPartCode bytes.now }
        ensures keeps { IfSome result (λ text. text.now ≡ bytes.now) }
        ensures code { IfSome result (λ text. IsPartCode text.now) }
    {
        if bytes.is_empty() || 20 < bytes.len() {
            return None;
        }
        if !bytes.iter().all(|b| is_code_byte(*b)) {
            return None;
        }
        let Ok(text) = str::from_utf8(bytes) else {
            return None;
        };
        Some(text)
    }

    /// A code that `parse` gave, in memory of its own.
    pub fn from_parsed(alloc: Global, text: &str) -> Result<PartCode, NoMemory>
        requires { IsPartCode text.now }
        ensures { IfOk result (λ code. code ≡ text.now) }
    {
        Ok(PartCode {
            text: String::from_str(alloc, text)?,
        })
    }

    /// A code of these bytes, if they are a part's code. Other bytes take no memory.
    pub fn new(alloc: Global, bytes: &[u8]) -> Result<Option<PartCode>, NoMemory>
        ensures accepts { IfOk result (λ code. IsSome code ↔ IsPartCode bytes.now) }
        ensures keeps { IfOk result (λ code. IfSome code (λ part. part ≡ bytes.now)) }
        ensures memory { IfErr result (λ _. IsPartCode bytes.now) }
    {
        let Some(text) = PartCode::parse(bytes) else {
            return Ok(None);
        };
        Ok(Some(PartCode::from_parsed(alloc, text)?))
    }

    /// The code as a `str` of 1 to 20 bytes.
    pub fn as_str(&self) -> &str
        ensures text { result.now ≡ self.now }
        ensures code { IsPartCode self.now }
    {
        self.text.as_str()
    }
}

/// Whether a byte may occur in a part's code: `A` to `Z`, `0` to `9` or `-`.
fn is_code_byte(b: u8) -> bool
    ensures { result ≡ is_code_byte b }
{
    b.is_ascii_uppercase() || b.is_ascii_digit() || b == b'-'
}

impl Clone for PartCode {
    ghost is_clone = { λ code copy. copy ≡ code };

    fn clone(&self) -> Result<PartCode, AllocError> {
        Ok(PartCode {
            text: self.text.clone()?,
        })
    }
}

impl PartialEq for PartCode {
    ghost use Rattle.std.specs.Str.{bytes_eq};
    ghost use Rattle.std.specs.Cmp.{partial_equiv_from_equiv};
    ghost use Rattle.std.specs.Cmp.Lexicographic.{nat_list_eq_equiv};

    ghost eq = { bytes_eq };

    ghost laws = { partial_equiv_from_equiv nat_list_eq_equiv };

    fn eq(&self, other: &PartCode) -> bool {
        self.as_str() == other.as_str()
    }
}

impl Eq for PartCode {
    ghost use Rattle.std.specs.Cmp.Lexicographic.{nat_list_eq_equiv};

    ghost laws = { nat_list_eq_equiv };
}

impl PartialOrd for PartCode {
    ghost use Rattle.std.specs.Prelude.{Some};
    ghost use Rattle.std.specs.Ordering.{nat_cmp};
    ghost use Rattle.std.specs.Cmp.Lexicographic.{slice_cmp, texts_po};

    ghost partial_cmp = { λ code other. Some (slice_cmp nat_cmp code other) };

    ghost laws = { texts_po };

    fn partial_cmp(&self, other: &PartCode) -> Option<Ordering> {
        Some(self.cmp(other))
    }
}

impl Ord for PartCode {
    ghost use Rattle.std.specs.Prelude.{refl};
    ghost use Rattle.std.specs.Ordering.{nat_cmp};
    ghost use Rattle.std.specs.Cmp.Lexicographic.{slice_cmp, nat_list_cmp_total, texts_ties};

    ghost cmp = { slice_cmp nat_cmp };

    ghost total = { nat_list_cmp_total };

    ghost matches_partial_cmp = { λ _ _. refl };

    ghost matches_eq = { texts_ties };

    fn cmp(&self, other: &PartCode) -> Ordering {
        self.as_str().cmp(other.as_str())
    }
}
