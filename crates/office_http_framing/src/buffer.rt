//! The buffer of a stream: the bytes that were read and are not yet dealt with.

ghost use Rattle.std.specs.Prelude.{◌≡◌, ◌<◌, ◌≤◌, ◌-◌, ◌++◌, ℕ, List, [], length, drop, take, slice_range, vec_len, IfOk, MatchResult};
ghost use Rattle.std.specs.Io.KnownBytes.{Consumes, Keeps};
ghost use Rattle.office_http_framing.specs.Ends.{call_counts_after};

use crate::ends::Source;
use std::alloc::{AllocError, Global};
use std::io;
use std::marker::Model;

/// As many bytes as the longest request has: a whole head and a whole body.
pub const BUFFER_LEN: usize = 270_336;

/// The bytes that were read and are not yet dealt with: those from `start` to before `end`.
/// Contracts see them as a list. A stream that is served in parts keeps its buffer from one part to
/// the next.
#[derive(Drop)]
pub struct Buffer {
    bytes: Vec<u8>,
    start: usize,
    end: usize,
}

impl Model for Buffer {
    ghost use Rattle.std.specs.Prelude.{◌≡◌, ◌≤◌, ℕ, List, slice_range, vec_len};
    ghost use Rattle.office_http_framing.specs.declared.buffer.TheConstants.{BUFFER_LEN};

    ghost Value = { List ℕ };

    ghost view = { λ b. slice_range b.bytes.items b.start b.end };

    ghost invariant = { λ b. (b.start ≤ b.end) × (b.end ≤ BUFFER_LEN)
        × (vec_len b.bytes ≡ BUFFER_LEN) };
}

/// Moves the bytes from `start` to before `end` to the front.
fn move_to_front(bytes: &mut Vec<u8>, start: usize, end: usize)
    requires ordered { start ≤ end }
    requires in_range { end ≤ vec_len bytes.old }
    ensures front { take (end - start) bytes.new.items ≡ slice_range bytes.old.items start end }
    ensures len { vec_len bytes.new ≡ vec_len bytes.old }
{
    if start > 0 {
        bytes.copy_within(start..end, 0);
    }
}

impl Buffer {
    /// An empty buffer. The error means that its `BUFFER_LEN` bytes were refused.
    pub fn new(alloc: Global) -> Result<Buffer, AllocError>
        ensures { IfOk result (λ buffer. buffer ≡ []) }
    {
        Ok(Buffer {
            bytes: vec![in alloc; 0; BUFFER_LEN]?,
            start: 0,
            end: 0,
        })
    }

    /// The bytes that are buffered.
    pub fn content(&self) -> &[u8]
        ensures bytes { result.now ≡ self.now }
        ensures bound { length self.now ≤ BUFFER_LEN }
    {
        &self.bytes[self.start..self.end]
    }

    /// Drops the first `len` bytes.
    pub(crate) fn consume(&mut self, len: usize)
        requires { len ≤ length self.old }
        ensures { self.new ≡ drop len self.old }
    {
        self.start += len;
    }

    /// Makes one read of the source, adds its bytes after those that are buffered, and says how
    /// many came: 0 at the end of the stream. If the source fails, none are added.
    pub(crate) fn fill<R: Source>(&mut self, source: &mut R) -> io::Result<usize>
        requires { length self.old < BUFFER_LEN }
        ensures bytes { MatchResult result
            (λ n. (piece : List ℕ) × (length piece ≡ n) × (self.new ≡ self.old ++ piece)
            × Consumes (R.told source.old).bytes (R.told source.new).bytes piece)
            (λ _. (self.new ≡ self.old)
            × Keeps (R.told source.old).bytes (R.told source.new).bytes) }
        ensures bound { length self.new ≤ BUFFER_LEN }
        ensures counts { (R.told source.new).counts
            ≡ call_counts_after result (R.told source.old).counts }
    {
        move_to_front(&mut self.bytes, self.start, self.end);
        self.end -= self.start;
        self.start = 0;
        match source.read(&mut self.bytes[self.end..]) {
            Ok(n) => {
                self.end += n;
                Ok(n)
            }
            Err(e) => Err(e),
        }
    }
}
