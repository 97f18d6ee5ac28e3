//! What the program prints, and the status with which it ends.

use crate::fault::Fault;
use arrayvec::ArrayString;
use office_http_framing::ends::{Sink, write_all};

/// The room for a line with numbers, in bytes: more than the longest such line needs.
pub const LINE_ROOM: usize = 96;

/// What a job came to: what is printed on standard output, and the status with which the program
/// ends. `Fixed` and `Line` need no memory: a change that is reported by them never ends as a fault
/// for want of memory.
#[derive(Drop)]
pub enum Done {
    /// A text, and the status, 0 to 255.
    Text { text: Vec<u8>, status: u8 },
    /// A fixed line, with status 0.
    Fixed(&'static str),
    /// A line with numbers, with status 0.
    Line(ArrayString<LINE_ROOM>),
}

impl Done {
    /// A text, with status 0.
    pub fn with(text: Vec<u8>) -> Done {
        Done::Text { text, status: 0 }
    }

    /// A text, and a status, 0 to 255.
    pub fn ending(text: Vec<u8>, status: u8) -> Done {
        Done::Text { text, status }
    }

    /// A fixed line, with status 0.
    pub fn telling(line: &'static str) -> Done {
        Done::Fixed(line)
    }

    /// A line with numbers, with status 0.
    pub fn line(line: ArrayString<LINE_ROOM>) -> Done {
        Done::Line(line)
    }

    /// The bytes that are printed on standard output.
    pub fn as_bytes(&self) -> &[u8] {
        match self {
            Done::Text { text, .. } => text.as_slice(),
            Done::Fixed(line) => line.as_bytes(),
            Done::Line(line) => line.as_str().as_bytes(),
        }
    }

    /// The status, 0 to 255.
    pub fn status(&self) -> u8 {
        match self {
            Done::Text { status, .. } => *status,
            _ => 0,
        }
    }
}

/// Prints a text as a whole, and gives the status. The fault is `Write` where the output failed or
/// took no byte; it may have taken a part of the text.
pub fn print_text<W: Sink>(text: &[u8], status: u8, out: &mut W) -> Result<u8, Fault> {
    match write_all(out, text) {
        Ok(()) => Ok(status),
        Err(_) => Err(Fault::Write),
    }
}

/// Prints what a job came to, and gives its status. If the job ended with a fault, nothing is
/// printed, and that fault is given. It is `Write` if the output failed or took no byte.
pub fn print_done<W: Sink>(done: Result<Done, Fault>, out: &mut W) -> Result<u8, Fault> {
    match done {
        Ok(done) => print_text(done.as_bytes(), done.status(), out),
        Err(fault) => Err(fault),
    }
}
