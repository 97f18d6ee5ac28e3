//! Notes on standard error: lines that name what a fault is about, and why the system refused it. A
//! note that can't be written is dropped.

use std::io::{self, Write};

/// Says a line on standard error: `note: `, and a text.
pub fn note_text(rt: &HostRuntime, text: &str) {
    if let Ok(line) = format!(in rt.alloc(); "note: {text}\n") {
        let _ = rt.stderr().write_all(line.as_bytes());
    }
}

/// Says a line on standard error: `note: `, then a name, with its special characters escaped,
/// between two texts.
pub fn note(rt: &HostRuntime, before: &str, name: &str, after: &str) {
    let name = name.escape_debug();
    if let Ok(text) = format!(in rt.alloc(); "{before}{name}{after}") {
        note_text(rt, text.as_str());
    }
}

/// Says with which error the system refuses the file, folder or port of this name.
pub fn note_system(rt: &HostRuntime, name: &str, error: io::Error) {
    if let Ok(why) = format!(in rt.alloc(); ": {error}") {
        note(rt, "the system refuses ", name, why.as_str());
    }
}
