//! Short texts of bytes.

ghost use Rattle.std.specs.Prelude.{◌≡◌, ◌≤◌, length, IfOk};
ghost use Rattle.std.proofs.Common.{rules};
ghost use Rattle.std.specs.Cmp.Rules.{comparing};

use crate::fault::TextFault;
use std::alloc::{AllocError, Global};
use std::marker::Model;

/// The most bytes that a text has.
const MAX_TEXT_BYTES: usize = 8192;

/// A text of at most 8,192 bytes, of any value. Contracts see it as the list of its bytes.
#[derive(Debug, Drop)]
pub struct Text {
    bytes: Vec<u8>,
}

impl Model for Text {
    ghost use Rattle.std.specs.Prelude.{List, ℕ, ◌≤◌, length};

    ghost Value = { List ℕ };

    ghost view = { λ text. text.bytes.items };

    ghost invariant = { λ text. length text.bytes.items ≤ 8192 };
}

impl Text {
    ghost use Rattle.cast_text.specs.Text.{Gives, text_of};

    /// The text of these bytes, of which there are at most 8,192.
    ///
    /// # Errors
    /// `Long` exactly where there are more, with their number. `Memory` at any time.
    pub fn new(alloc: Global, bytes: &[u8]) -> Result<Text, TextFault>
        ensures { Gives result (text_of bytes.now) }
    {
        if bytes.len() > MAX_TEXT_BYTES {
            return Err(TextFault::Long(bytes.len()));
        }
        Ok(Text::of(alloc, bytes)?)
    }

    /// The text of these bytes.
    pub fn of(alloc: Global, bytes: &[u8]) -> Result<Text, AllocError>
        requires { length bytes.now ≤ 8192 }
        ensures { IfOk result (λ text. text ≡ bytes.now) }
    {
        Ok(Text {
            bytes: Vec::from_slice(alloc, bytes)?,
        })
    }

    /// The bytes of the text.
    pub fn bytes(&self) -> &[u8]
        ensures value { result.now ≡ self.now }
        ensures within { length self.now ≤ 8192 }
    {
        &self.bytes
    }

    /// A copy of the text.
    pub fn copy(&self, alloc: Global) -> Result<Text, AllocError>
        ensures { IfOk result (λ text. text ≡ self.now) }
    {
        Text::of(alloc, &self.bytes)
    }
}

impl PartialEq for Text {
    ghost use Rattle.std.specs.Str.{bytes_eq};

    ghost eq = { bytes_eq };

    ghost laws = { Prim.search (comparing, rules) };

    fn eq(&self, other: &Text) -> bool {
        self.bytes.as_slice() == other.bytes.as_slice()
    }
}

impl Eq for Text {
    ghost laws = { Prim.search (comparing, rules) };
}
