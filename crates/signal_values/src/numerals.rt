//! Numbers in decimal digits.

ghost use Rattle.std.specs.Prelude.{◌≡◌, ◌<◌, ◌-◌, ◌^◌, min, true, false, IfSome, IfNone};
ghost use Rattle.std.specs.Char.{is_ascii_digit};
ghost use Rattle.std.specs.List.{list_all};
ghost use Rattle.std.specs.Str.Parse.{digits_value};
ghost use Rattle.signal_values.specs.Numerals.{is_numeral, number_spelled};

use crate::number::Number;

/// The number that decimal digits spell, 0 for no digits, and `u32::MAX` for a greater number.
/// `None` where a byte is no digit.
fn digits(bytes: &[u8]) -> Option<u32>
    ensures none { IfNone result (list_all is_ascii_digit bytes.now ≡ false) }
    ensures some { IfSome result (λ n. list_all is_ascii_digit bytes.now ≡ true) }
    ensures value { IfSome result (λ n. n ≡ min (digits_value 10 bytes.now) (2 ^ 32 - 1)) }
{
    let mut n: u32 = 0;
    for b in bytes {
        if !b.is_ascii_digit() {
            return None;
        }
        n = n.saturating_mul(10).saturating_add(u32::from(*b - b'0'));
    }
    Some(n)
}

/// The number that a numeral spells, decimal digits without a leading zero, and `u32::MAX` for a
/// greater number. `None` where the bytes are no numeral.
pub fn numeral(bytes: &[u8]) -> Option<u32>
    ensures none { IfNone result (is_numeral bytes.now ≡ false) }
    ensures some { IfSome result (λ n. is_numeral bytes.now ≡ true) }
    ensures value { IfSome result (λ n. n ≡ min (digits_value 10 bytes.now) (2 ^ 32 - 1)) }
{
    match bytes {
        [] => None,
        [b'0', _, ..] => None,
        _ => digits(bytes),
    }
}

impl<Of, const LOW: u32, const HIGH: u32> Number<Of, LOW, HIGH> {
    /// The number that a text spells in decimal digits without a leading zero, if it is from `LOW`
    /// to `HIGH`.
    #[tactic(auto, unfolding(crate::specs::Numerals::number_spelled))]
    pub fn parse(text: &[u8]) -> Option<Self>
        requires { HIGH < 2 ^ 32 - 1 }
        ensures { result ≡ number_spelled LOW HIGH text.now }
    {
        Number::new(numeral(text)?)
    }
}
