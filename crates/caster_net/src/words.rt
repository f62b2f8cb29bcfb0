//! The words that come as lines of an input.
ghost use Rattle.std.specs.Prelude.{◌≡◌, [], Some, option_and_then};
ghost use Rattle.std.specs.Str.Lines.{strip_carriage_return};
ghost use Rattle.caster_net.specs.Words.{line_behind, longer, word_ended, word_of};

use std::marker::Model;

// The most bytes of a line that is looked at, with a CR at its end. A longer line is no word.
const MAX_WORD_BYTES: usize = 32;

/// A word of the input.
#[derive(Clone, Copy, Debug, PartialEq, Eq)]
pub(crate) enum Word {
    /// To stop.
    Stop,
    /// To say how things stand.
    Status,
}

/// The line that has not ended yet. Contracts see the bytes that came of it, or none where they are
/// more than are looked at.
#[derive(Drop)]
pub(crate) struct Line {
    bytes: [u8; MAX_WORD_BYTES],
    // How many bytes came of it, and one more than are looked at where there are more.
    count: usize,
}

impl Model for Line {
    ghost use Rattle.std.specs.Prelude.{ℕ, List, Option};
    ghost use Rattle.caster_net.specs.Words.{line_kept};

    ghost Value = { Option (List ℕ) };

    ghost view = { λ line. line_kept line.count line.bytes };
}

impl Line {
    /// A line of which nothing came yet.
    pub(crate) fn new() -> Line
        ensures empty { result ≡ Some [] }
    {
        Line {
            bytes: [0; MAX_WORD_BYTES],
            count: 0,
        }
    }

    /// One byte more came: the word that ends with it, where one does. A line is ended by a LF.
    pub(crate) fn hear(&mut self, byte: u8) -> Option<Word>
        ensures word { result ≡ word_ended self.old byte }
        ensures line { self.new ≡ line_behind self.old byte }
    {
        if byte == b'\n' {
            return self.end();
        }
        self.keep(byte);
        None
    }

    /// Forgets what came of the line.
    pub(crate) fn forget(&mut self)
        ensures empty { self.new ≡ Some [] }
    {
        self.count = 0;
    }

    // One byte more of the line.
    fn keep(&mut self, byte: u8)
        ensures longer { self.new ≡ longer self.old byte }
    {
        if self.count < MAX_WORD_BYTES {
            self.bytes[self.count] = byte;
            self.count += 1;
        } else {
            self.count = MAX_WORD_BYTES + 1;
        }
    }

    // The word that the line is, if it is one. The next line begins.
    fn end(&mut self) -> Option<Word>
        ensures word { result ≡ option_and_then word_of self.old }
        ensures empty { self.new ≡ Some [] }
    {
        let word = match self.bytes.get(..self.count) {
            Some(line) => word_of(line),
            None => None,
        };
        self.forget();
        word
    }
}

// The word that this line is, if it is one. A CR at its end is no part of it.
fn word_of(line: &[u8]) -> Option<Word>
    ensures word { result ≡ word_of line.now }
{
    let line = without_return(line);
    if line == b"stop".as_slice() {
        Some(Word::Stop)
    } else if line == b"status".as_slice() {
        Some(Word::Status)
    } else {
        None
    }
}

// The line without one CR at its end.
fn without_return(line: &[u8]) -> &[u8]
    ensures front { result.now ≡ strip_carriage_return line.now }
{
    match line {
        [front @ .., b'\r'] => front,
        _ => line,
    }
}
