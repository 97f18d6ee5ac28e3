//! What the fields of a head say of its body and of the stream.

ghost use Rattle.std.specs.Prelude.{◌≡◌, All, codes, length, map, reverse};
ghost use Rattle.std.specs.List.{list_any};
ghost use Rattle.httparse.specs.Spans.{IsHeaderWithin, header_bytes};
ghost use Rattle.httparse.specs.Grammar.{skip_ows, trim_ows};
ghost use Rattle.office_http_framing.specs.Fields.{eq_ignore_case, is_named, values_named, length_of, length_among, body_length, lists_close, closes};

use crate::front::Fault;
use httparse::is_space_or_tab;
use httparse::spans::HeaderSpan;

/// The most bytes of a request's body.
pub const LARGEST_BODY: usize = 262_144;

fn eq_ignore_case(a: &[u8], b: &[u8]) -> bool
    ensures { result ≡ eq_ignore_case a.now b.now }
{
    a.eq_ignore_ascii_case(b)
}

fn trim_start(mut s: &[u8]) -> &[u8]
    ensures { result.now ≡ skip_ows s.now }
{
    while let [first, rest @ ..] = s
        && is_space_or_tab(*first)
    {
        s = rest;
    }
    s
}

fn trim_end(mut s: &[u8]) -> &[u8]
    ensures { result.now ≡ reverse (skip_ows (reverse s.now)) }
{
    while let [rest @ .., last] = s
        && is_space_or_tab(*last)
    {
        s = rest;
    }
    s
}

#[tactic(auto, unfolding(httparse::specs::Grammar::trim_ows))]
fn trim(s: &[u8]) -> &[u8]
    ensures { result.now ≡ trim_ows s.now }
{
    trim_end(trim_start(s))
}

/// The length in bytes that one value gives: digits alone, leading zeros allowed. The fault is
/// `Length` for any other value, and `BodyTooLarge` for more than `LARGEST_BODY`.
fn length_of(value: &[u8]) -> Result<usize, Fault>
    ensures { result ≡ length_of value.now }
{
    if value.is_empty() {
        return Err(Fault::Length);
    }
    let mut length: usize = 0;
    for b in value {
        if !b.is_ascii_digit() {
            return Err(Fault::Length);
        }
        // A length that is too large stays so.
        length = (length * 10 + (*b - b'0') as usize).min(LARGEST_BODY + 1);
    }
    if length <= LARGEST_BODY {
        Ok(length)
    } else {
        Err(Fault::BodyTooLarge)
    }
}

/// The length in bytes that the Content-Length fields give: 0 without one. For two, even if equal,
/// the fault is `Length`.
fn length_among(bytes: &[u8], fields: &[HeaderSpan]) -> Result<usize, Fault>
    requires { All (IsHeaderWithin (length bytes.now)) fields.now }
    ensures { result ≡ length_among
        (values_named (codes "content-length") (map (header_bytes bytes.now) fields.now)) }
{
    let mut length = None;
    for field in fields {
        if eq_ignore_case(field.name.of(bytes), b"content-length") {
            if length.is_some() {
                return Err(Fault::Length);
            }
            length = Some(length_of(field.value.of(bytes)));
        }
    }
    length.unwrap_or(Ok(0))
}

fn has_transfer_encoding(bytes: &[u8], fields: &[HeaderSpan]) -> bool
    requires { All (IsHeaderWithin (length bytes.now)) fields.now }
    ensures { result ≡ list_any
        (is_named (codes "transfer-encoding")) (map (header_bytes bytes.now) fields.now) }
{
    for field in fields {
        if eq_ignore_case(field.name.of(bytes), b"transfer-encoding") {
            return true;
        }
    }
    false
}

/// The length of the body in bytes, or the fault of the fields: `Coded` for a Transfer-Encoding,
/// which is tested first.
#[tactic(auto, unfolding(crate::specs::Fields::body_length))]
pub(crate) fn body_length(bytes: &[u8], fields: &[HeaderSpan]) -> Result<usize, Fault>
    requires { All (IsHeaderWithin (length bytes.now)) fields.now }
    ensures { result ≡ body_length (map (header_bytes bytes.now) fields.now) }
{
    if has_transfer_encoding(bytes, fields) {
        return Err(Fault::Coded);
    }
    length_among(bytes, fields)
}

fn lists_close(value: &[u8]) -> bool
    ensures { result ≡ lists_close value.now }
{
    value
        .split(|b| *b == b',')
        .any(|element| eq_ignore_case(trim(element), b"close"))
}

/// Whether any Connection field lists `close`, in any case of letters.
#[tactic(auto, unfolding(crate::specs::Fields::closes))]
pub(crate) fn closes(bytes: &[u8], fields: &[HeaderSpan]) -> bool
    requires { All (IsHeaderWithin (length bytes.now)) fields.now }
    ensures { result ≡ closes (map (header_bytes bytes.now) fields.now) }
{
    for field in fields {
        if eq_ignore_case(field.name.of(bytes), b"connection")
            && lists_close(field.value.of(bytes))
        {
            return true;
        }
    }
    false
}
