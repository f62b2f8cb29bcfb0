//! What a link answers to a read.

ghost use Rattle.std.specs.Prelude.{◌≡◌, nat_lt, true, IfOk};
ghost use Rattle.std.specs.List.{list_all};
ghost use Rattle.caster_record.specs.Giving.{HasGiven};
ghost use Rattle.caster_record.specs.Hearing.{HasHeard, is_idle};

use cast_io::{Got, Link};
use cast_text::Text;
use std::alloc::{AllocError, Global};

/// How many bytes one read takes at most.
const MAX_READ_BYTES: usize = 4096;

/// What a read of a link gave.
#[derive(Drop)]
pub(crate) enum GotText {
    /// These bytes, 1 to 4,096 of them.
    Bytes(Text),
    /// Nothing yet.
    Idle,
    /// The peer has ended.
    End,
    /// The read failed.
    Failed,
}

impl GotText {
    /// Whether there was nothing yet.
    pub(crate) fn is_idle(&self) -> bool
        ensures { result ≡ is_idle self.now }
    {
        matches!(self, GotText::Idle)
    }
}

/// Shows that bytes are numbers below 256.
fn are_bytes(piece: &[u8])
    ensures { list_all (λ b. nat_lt b 256) piece.now ≡ true }
{
    for byte in piece {
        let _value = *byte;
    }
}

/// Reads a link.
pub(crate) fn hear<L: Link>(alloc: Global, link: &mut L) -> Result<GotText, AllocError>
    ensures heard { IfOk result (HasHeard (L.told link.old) (L.told link.new)) }
    ensures given { (L.told link.new).given ≡ (L.told link.old).given }
{
    let mut piece = [0u8; MAX_READ_BYTES];
    match link.read(&mut piece) {
        Got::Bytes(count) => {
            are_bytes(&piece[..count]);
            let text = Text::of(alloc, &piece[..count])?;
            Ok(GotText::Bytes(text))
        }
        Got::Idle => Ok(GotText::Idle),
        Got::End => Ok(GotText::End),
        Got::Failed => Ok(GotText::Failed),
    }
}

/// Gives a link what its connection was sent. Answers whether the write was torn.
pub(crate) fn give<L: Link>(link: &mut L, piece: &[u8]) -> bool
    ensures { HasGiven (L.told link.old) (L.told link.new) result piece.now }
{
    if piece.is_empty() {
        return false;
    }
    match link.write(piece) {
        Ok(()) => false,
        Err(_) => true,
    }
}
