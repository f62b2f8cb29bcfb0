//! What links did and streets were asked, for contracts alone.
ghost use Rattle.std.specs.Prelude.{◌≡◌, length};
ghost use Rattle.cast_io.specs.Links.{IsGot, step_of};
ghost use Rattle.caster_net.specs.Notes.{step_noted};

use cast_io::{Got, Journal, Origin};

/// A step that a link took: what a read answered, or a write that failed.
#[derive(Drop)]
pub(crate) enum StepNote {
    /// A read gave these bytes.
    Bytes(Journal<u8>),
    /// A read found nothing yet.
    Idle,
    /// A read came to the end.
    End,
    /// A read failed.
    ReadFailed,
    /// A write failed.
    WriteFailed,
}

/// What a street was asked for.
#[derive(Drop)]
pub(crate) enum AskedNote {
    /// To open so many doors at an address.
    Open(Journal<u8>, u32),
    /// To dial an address.
    Dial(Journal<u8>),
}

/// What a street was asked for as a yard.
#[derive(Drop)]
pub(crate) enum CallNote {
    /// Gates, which are made for this.
    Gates(Origin),
    /// A place for notes.
    Notes,
}

/// The step of a read that answered this, with its buffer after it.
pub(crate) fn step_of_read(got: Got, buf: &[u8]) -> StepNote
    requires { IsGot got (length buf.now) }
    ensures { step_noted result ≡ step_of got buf.now }
{
    match got {
        Got::Bytes(count) => StepNote::Bytes(Journal::of_bytes(&buf[..count])),
        Got::Idle => StepNote::Idle,
        Got::End => StepNote::End,
        Got::Failed => StepNote::ReadFailed,
    }
}
