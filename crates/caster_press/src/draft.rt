//! Lines that are being written. No memory is taken for them.
ghost use Rattle.std.specs.Prelude.{◌≡◌, ◌≢◌, ◌<◌, ◌≤◌, ◌+◌, ◌↔◌, ◌++◌, ◌∷◌, true, [], length, take, OnErr, OnOk, Err};
ghost use Rattle.std.specs.Fmt.{decimal};
ghost use Rattle.caster_press.specs.Texts.{has_newline, newline};
ghost use Rattle.caster_press.specs.Lines.{text_of};

use crate::line::{Line, MAX_LINE_BYTES};
use itoa::Buffer;
use std::marker::Model;
use thiserror::Error;

/// Why a text was not taken into a line. The line is as it was before.
#[derive(Clone, Copy, Debug, PartialEq, Eq, Error)]
pub enum LineFault {
    /// With the text and its newline the line would have more than 512 bytes.
    #[error("the line would have more than 512 bytes")]
    Long,
    /// The text has a newline, which would end the line.
    #[error("a newline within a line")]
    Newline,
}

/// A line that is being written: up to 511 bytes, and no newline. Contracts see its bytes.
#[derive(Drop)]
pub struct Draft {
    bytes: [u8; MAX_LINE_BYTES],
    len: usize,
}

impl Model for Draft {
    ghost use Rattle.std.specs.Prelude.{◌≡◌, ◌<◌, ℕ, List, false, take};
    ghost use Rattle.caster_press.specs.Texts.{has_newline};

    ghost Value = { List ℕ };

    ghost view = { λ draft. take draft.len draft.bytes };

    ghost invariant = { λ draft.
        (draft.len < 512) × (has_newline (take draft.len draft.bytes) ≡ false) };
}

/// Writes the text at this place, over what stands there.
fn put_at(bytes: &mut [u8], place: usize, text: &[u8])
    requires { place + length text.now ≤ length bytes.old }
    ensures size { length bytes.new ≡ length bytes.old }
    ensures text { take (place + length text.now) bytes.new ≡ take place bytes.old ++ text.now }
{
    bytes[place..place + text.len()].copy_from_slice(text);
}

impl Draft {
    /// A line without any byte yet.
    pub fn new() -> Draft
        ensures { result ≡ [] }
    {
        Draft {
            bytes: [0; MAX_LINE_BYTES],
            len: 0,
        }
    }

    /// Appends the text. What does not fit, or has a newline, is refused as a whole.
    pub fn push(&mut self, text: &[u8]) -> Result<(), LineFault>
        ensures ok { OnOk result (self.new ≡ self.old ++ text.now) }
        ensures err { OnErr result (self.new ≡ self.old) }
        ensures long { (result ≡ Err LineFault.Long) ↔ (512 ≤ length self.old + length text.now) }
        ensures newline { (result ≡ Err LineFault.Newline)
            ↔ (length self.old + length text.now < 512) × (has_newline text.now ≡ true) }
    {
        if text.len() >= MAX_LINE_BYTES - self.len {
            return Err(LineFault::Long);
        }
        if text.contains(&b'\n') {
            return Err(LineFault::Newline);
        }
        put_at(&mut self.bytes, self.len, text);
        self.len += text.len();
        Ok(())
    }

    /// Appends the number in decimal, with no leading zero. A number that does not fit is refused.
    pub fn push_decimal(&mut self, number: u64) -> Result<(), LineFault>
        ensures ok { OnOk result (self.new ≡ self.old ++ decimal number) }
        ensures err { OnErr result (self.new ≡ self.old) }
        ensures long { (result ≡ Err LineFault.Long)
            ↔ (512 ≤ length self.old + length (decimal number)) }
        ensures no_newline { result ≢ Err LineFault.Newline }
    {
        let mut digits = Buffer::new();
        self.push(digits.format(number).as_bytes())
    }

    /// Ends the line with a newline.
    pub fn finish(self) -> Line
        ensures { text_of result ≡ self ++ newline ∷ [] }
    {
        let Draft { mut bytes, len } = self;
        bytes[len] = b'\n';
        Line {
            bytes,
            len: len + 1,
        }
    }
}
