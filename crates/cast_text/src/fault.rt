//! Why bytes are no name or no text.

ghost use Rattle.std.specs.Prelude.{◌≡◌};
ghost use Rattle.cast_text.specs.declared.fault.NameFault.TheVariants as names;
ghost use Rattle.cast_text.specs.declared.fault.TextFault.TheVariants as texts;

use std::alloc::AllocError;
use thiserror::Error;

/// Why bytes are no name. The faults are tested in this order, but for `Memory`.
#[derive(Clone, Copy, Debug, PartialEq, Eq, Error)]
pub enum NameFault {
    /// There is no byte.
    #[error("a name has at least one byte")]
    Empty,
    /// There are this many bytes, more than 100.
    #[error("a name has at most 100 bytes, not {0}")]
    Long(usize),
    /// The byte at this place, the first such place, is not allowed in a name.
    #[error("byte {0} is not allowed in a name")]
    Byte(usize),
    /// There is no memory for the name.
    #[error("out of memory")]
    Memory,
}

impl From<AllocError> for NameFault {
    ghost from_gives = { λ _ e. e ≡ names.Memory };

    fn from(_e: AllocError) -> NameFault {
        NameFault::Memory
    }
}

/// Why bytes are no text.
#[derive(Clone, Copy, Debug, PartialEq, Eq, Error)]
pub enum TextFault {
    /// There are this many bytes, more than 8,192.
    #[error("a text has at most 8192 bytes, not {0}")]
    Long(usize),
    /// There is no memory for the text.
    #[error("out of memory")]
    Memory,
}

impl From<AllocError> for TextFault {
    ghost from_gives = { λ _ e. e ≡ texts.Memory };

    fn from(_e: AllocError) -> TextFault {
        TextFault::Memory
    }
}
