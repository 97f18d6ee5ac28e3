//! Markup of the program's own constants and of escaped text.

ghost use Rattle.std.specs.Prelude.{◌≡◌, ◌++◌, [], OnOk};

use crate::escaping::push_escaped;
use std::alloc::Global;
use std::fmt::{self, Display, Write};
use std::marker::Model;

/// Markup that grows at its end. Tags come only by `own`, from constants of the program. Whatever
/// is written by `write!` is text, in which each character stands for itself. It is seen as its
/// bytes.
#[derive(Drop)]
pub struct Markup {
    text: String,
}

impl Model for Markup {
    ghost use Rattle.std.specs.Prelude.{List, ℕ, string_bytes};

    ghost Value = { List ℕ };

    ghost view = { λ markup. string_bytes markup.text };
}

impl Markup {
    /// Markup without a byte.
    pub fn new(alloc: Global) -> Markup
        ensures { result ≡ [] }
    {
        Markup {
            text: String::new(alloc),
        }
    }

    /// The allocator of the markup.
    pub fn alloc(&self) -> Global {
        *self.text.allocator()
    }

    /// Appends tags and words of the program's own. What was read from a file, a request or a table
    /// is no `&'static str`, so it cannot come here.
    pub fn own(&mut self, own: &'static str) -> fmt::Result
        ensures { OnOk result (self.new ≡ self.old ++ own.now) }
    {
        self.text.push_str(own)?;
        Ok(())
    }

    /// Appends other markup.
    pub fn append(&mut self, other: &Markup) -> fmt::Result
        ensures { OnOk result (self.new ≡ self.old ++ other.now) }
    {
        self.text.push_str(other.text.as_str())?;
        Ok(())
    }

    /// Appends words between tags.
    pub fn enclose<D: Display>(
        &mut self,
        opening: &'static str,
        words: &D,
        end: &'static str,
    ) -> fmt::Result {
        self.own(opening)?;
        write!(self, "{words}")?;
        self.own(end)
    }

    /// The bytes of the markup, in UTF-8.
    pub fn into_bytes(self) -> Vec<u8>
        ensures { result.items ≡ self }
    {
        self.text.into_bytes()
    }
}

impl fmt::Write for Markup {
    ghost use Rattle.safe_markup.specs.Escaping.{AppendsText};

    ghost write_str_gives = { AppendsText };

    fn write_str(&mut self, words: &str) -> fmt::Result {
        push_escaped(&mut self.text, words)?;
        Ok(())
    }
}
