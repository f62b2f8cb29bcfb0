use thiserror::Error;
use turn_log::TurnFault;

/// Why a claim was not given.
#[derive(Clone, Copy, Debug, PartialEq, Eq, Error)]
pub enum ClaimFault {
    /// The mountpoint is held already, by this caller under this claim. The call was made.
    #[error("held by caller {caller} under claim {claim}")]
    Taken { caller: u32, claim: u64 },
    /// The mountpoint is worn by `turns` turns, given or drawn for, at least 2^62. Nothing was
    /// called.
    #[error("no turn after {turns} given or drawn for")]
    Worn { turns: u64 },
    /// No memory for the turn, at a place that takes some. Nothing was called.
    #[error("out of memory")]
    Memory,
}

/// Why a source's session takes no more bytes.
#[derive(Clone, Copy, Debug, PartialEq, Eq, Error)]
pub enum SourceHalt {
    /// The chunked body has ended (RFC 9112, section 7.1).
    #[error("the body has ended")]
    Done,
    /// The byte at this place in the chunked body, from 0, was the first after which no
    /// continuation is a body.
    #[error("no chunked body from byte {at} on")]
    BadChunk { at: u64 },
    /// The mountpoint is worn by `turns` turns, given or drawn for, at least 2^62. A frame was not
    /// published.
    #[error("no turn after {turns} given or drawn for")]
    Worn { turns: u64 },
    /// No memory for a turn, at a place that takes some. A frame was not published.
    #[error("out of memory")]
    Memory,
}

impl From<TurnFault> for ClaimFault {
    ghost use Rattle.std.specs.Prelude.{◌≡◌};
    ghost use Rattle.source_session.specs.Refusals.{claim_refused};

    ghost from_gives = { λ fault refusal. refusal ≡ claim_refused fault };

    fn from(fault: TurnFault) -> ClaimFault {
        match fault {
            TurnFault::Worn { turns } => ClaimFault::Worn { turns },
            TurnFault::Memory => ClaimFault::Memory,
        }
    }
}

impl From<TurnFault> for SourceHalt {
    ghost use Rattle.std.specs.Prelude.{◌≡◌};
    ghost use Rattle.source_session.specs.Refusals.{halt_refused};

    ghost from_gives = { λ fault halt. halt ≡ halt_refused fault };

    fn from(fault: TurnFault) -> SourceHalt {
        match fault {
            TurnFault::Worn { turns } => SourceHalt::Worn { turns },
            TurnFault::Memory => SourceHalt::Memory,
        }
    }
}
