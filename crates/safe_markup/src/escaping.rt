//! Texts of others, written so that none of their characters is markup.

ghost use Rattle.std.specs.Prelude.{◌≡◌, ◌++◌, OnOk, encode_utf8, flat_map, string_bytes};
ghost use Rattle.safe_markup.specs.Escaping.{escaped_byte, escaped_text, marks, unescaped_text};

use std::alloc::AllocError;

/// Appends a character; in place of `&`, `<`, `>` and the two quotes, the entity for it.
fn push_character(text: &mut String, c: char) -> Result<(), AllocError>
    ensures { OnOk result (string_bytes text.new
        ≡ string_bytes text.old ++ flat_map escaped_byte (encode_utf8 c)) }
{
    match c {
        '&' => text.push_str("&amp;"),
        '<' => text.push_str("&lt;"),
        '>' => text.push_str("&gt;"),
        '"' => text.push_str("&quot;"),
        '\'' => text.push_str("&#39;"),
        _ => text.push(c),
    }
}

/// Appends the words of others. They add no `<`, no `>` and no quote, and a browser reads them
/// unchanged.
pub(crate) fn push_escaped(text: &mut String, words: &str) -> Result<(), AllocError>
    ensures written { OnOk result
        (string_bytes text.new ≡ string_bytes text.old ++ escaped_text words.now) }
    ensures marks { OnOk result (marks (string_bytes text.new) ≡ marks (string_bytes text.old)) }
    ensures read { unescaped_text (escaped_text words.now) ≡ words.now }
{
    for c in words.chars() {
        push_character(text, c)?;
    }
    Ok(())
}
