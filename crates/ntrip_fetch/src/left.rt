//! What a try comes to.

use ntrip_client::Refusal;
use std::alloc::AllocError;
use thiserror::Error;

/// Why a link was left.
#[derive(Clone, Copy, Debug, PartialEq, Eq)]
pub enum Left {
    /// As many frames were written as were wanted.
    Enough,
    /// No link was dialled: the street failed.
    Dial,
    /// The link ended, or had given 2^62 bytes.
    End,
    /// A read or a write of the link failed.
    LinkFault,
    /// The caster's answer is none of a caster.
    BadHead,
    /// 8,192 bytes came, and the head of the answer did not end.
    LongHead,
    /// The body would come in a transfer coding other than `chunked`.
    Coding,
    /// The caster sent its sourcetable.
    Table,
    /// The caster answered a status of HTTP other than 200.
    Status(u16),
    /// The chunked body has ended (RFC 9112, section 7.1).
    Done,
    /// The byte at this place in the chunked body, from 0, was the first after which no
    /// continuation is a body.
    BadChunk { at: u64 },
}

impl From<Refusal> for Left {
    ghost use Rattle.std.specs.Prelude.{◌≡◌};
    ghost use Rattle.ntrip_fetch.specs.Stages.{left_of};

    ghost from_gives = { λ refusal left. left ≡ left_of refusal };

    fn from(refusal: Refusal) -> Left {
        match refusal {
            Refusal::BadHead => Left::BadHead,
            Refusal::LongHead => Left::LongHead,
            Refusal::Coding => Left::Coding,
            Refusal::Table => Left::Table,
            Refusal::Status(status) => Left::Status(status),
        }
    }
}

/// What came of one target.
#[derive(Clone, Copy, Debug, PartialEq, Eq)]
pub struct Try {
    /// How many frames were written.
    pub frames: u64,
    /// Why its link was left.
    pub left: Left,
}

/// Why a fetch stopped before its tries were made.
#[derive(Clone, Copy, Debug, PartialEq, Eq, Error)]
pub enum FetchFault {
    /// The frames could not be written.
    #[error("a write failed")]
    Sink,
    /// No memory was left.
    #[error("out of memory")]
    Memory,
}

impl From<AllocError> for FetchFault {
    ghost use Rattle.std.specs.Prelude.{◌≡◌};
    ghost use Rattle.ntrip_fetch.specs.declared.left.FetchFault.TheVariants as faults;

    ghost from_gives = { λ _ fault. fault ≡ faults.Memory };

    fn from(_error: AllocError) -> FetchFault {
        FetchFault::Memory
    }
}
