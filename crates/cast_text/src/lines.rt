//! The lines of a stream of bytes.

ghost use Rattle.std.specs.Prelude.{◌≡◌, ℕ, ◌+◌, ◌<◌, ◌≤◌, ◌==◌, ◌&&◌, not, true, nat_le, List, [], ◌∷◌, ◌++◌, length, IfOk, IsTrue, if◌then◌else◌};

use std::alloc::{AllocError, Global};
use std::marker::Model;

/// The lines of bytes that come one by one. A line ends with LF, and a CR before the LF is dropped
/// with it. A line that is then longer than the limit is dropped whole.
///
/// Contracts see the line that was given or is still coming, and `StandsFor` says of which bytes.
#[derive(Debug, Drop)]
pub struct Lines {
    line: Vec<u8>,
    limit: usize,
    over: bool,
    ended: bool,
}

impl Model for Lines {
    ghost use Rattle.std.specs.Prelude.{◌+◌, ◌≤◌, ◌<◌, length};
    ghost use Rattle.cast_text.specs.Lines.{LineState};

    ghost Value = { LineState };

    ghost use Rattle.cast_text.specs.LinesFields.{state_of, IsWithin};

    ghost view = { state_of };

    ghost invariant = { IsWithin };
}

impl Lines {
    ghost use Rattle.cast_text.specs.Lines.{LineState, StandsFor, whole_lines, kept, no_line};
    ghost use Rattle.std.specs.Str.Lines.{strip_carriage_return};

    /// Before the first byte. Lines of more than `limit` bytes, without their end, will be dropped.
    /// All the memory that it will need is taken here.
    pub fn new(alloc: Global, limit: u32) -> Result<Lines, AllocError>
        requires low { 1 ≤ limit }
        requires high { limit ≤ 8192 }
        ensures limit { IfOk result (λ lines. lines.limit ≡ limit) }
        ensures stands { IfOk result (λ lines. StandsFor lines []) }
    {
        let limit = limit as usize;
        Ok(Lines {
            line: Vec::with_capacity(alloc, limit + 1)?,
            limit,
            over: false,
            ended: false,
        })
    }

    /// Takes the next byte, and says whether it ends a line that is within the limit: `line` is
    /// then that line.
    pub fn push(&mut self, byte: u8) -> bool
        ensures limit { self.new.limit ≡ self.old.limit }
        ensures stands { (bytes : List ℕ) → StandsFor self.old bytes
            → StandsFor self.new (bytes ++ byte ∷ []) }
        ensures lines { (bytes : List ℕ) → StandsFor self.old bytes
            → whole_lines self.old.limit (bytes ++ byte ∷ [])
            ≡ whole_lines self.old.limit bytes ++ (if result then self.new.line ∷ [] else []) }
    {
        if self.ended {
            self.restart();
        }
        if byte == b'\n' {
            self.finish()
        } else {
            self.keep(byte);
            false
        }
    }

    /// The line that ended last, without LF and the CR before it, where the last byte ended a line
    /// within the limit.
    pub fn line(&self) -> &[u8]
        ensures { result.now ≡ self.now.line }
    {
        &self.line
    }

    /// Forgets the line that was given.
    fn restart(&mut self)
        ensures { self.new ≡ no_line self.old.limit }
    {
        self.line.clear();
        self.over = false;
        self.ended = false;
    }

    /// Ends the line, and says whether it is within the limit.
    fn finish(&mut self) -> bool
        ensures limit { self.new.limit ≡ self.old.limit }
        ensures ended { IsTrue self.new.ended }
        ensures within { result ≡ (not self.old.over
            && nat_le (length (strip_carriage_return self.old.line)) self.old.limit) }
        ensures line { self.new.line ≡ strip_carriage_return self.old.line }
    {
        self.ended = true;
        if self.line.last() == Some(&b'\r') {
            self.line.pop();
        }
        !self.over && self.line.len() <= self.limit
    }

    /// Keeps a byte of the line. Only a line that ends with CR may be one byte over the limit.
    fn keep(&mut self, byte: u8)
        ensures { self.new ≡ kept self.old byte }
    {
        if self.line.len() > self.limit {
            self.over = true;
        } else {
            self.line.push_reserved(byte);
        }
    }
}
