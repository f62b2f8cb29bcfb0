use ntrip_client::Refusal;
use source_session::{ClaimFault, SourceHalt};
use thiserror::Error;

/// Why a relay takes no more bytes.
#[derive(Clone, Copy, Debug, PartialEq, Eq, Error)]
pub enum RelayHalt {
    /// The other caster's answer is none of a caster.
    #[error("no answer of a caster")]
    BadHead,
    /// 8,192 bytes came, and the head of the answer did not end.
    #[error("the answer is too long")]
    LongHead,
    /// The body would come in a transfer coding other than `chunked`.
    #[error("transfer coding not implemented")]
    Coding,
    /// The other caster sent its sourcetable.
    #[error("the sourcetable came")]
    Table,
    /// The other caster answered a status of HTTP other than 200.
    #[error("status {0}")]
    Status(u16),
    /// The mountpoint is held already, by this caller under this claim.
    #[error("held by caller {caller} under claim {claim}")]
    Taken { caller: u32, claim: u64 },
    /// The chunked body has ended (RFC 9112, section 7.1).
    #[error("the body has ended")]
    Done,
    /// The byte at this place in the chunked body, from 0, was the first after which no
    /// continuation is a body.
    #[error("no chunked body from byte {at} on")]
    BadChunk { at: u64 },
    /// The mountpoint is worn by `turns` turns, given or drawn for, at least 2^62. A claim was not
    /// made, or a frame was not published.
    #[error("no turn after {turns} given or drawn for")]
    Worn { turns: u64 },
    /// No memory for a turn, at a place that takes some. A claim was not made, or a frame was not
    /// published.
    #[error("out of memory")]
    Memory,
}

impl From<Refusal> for RelayHalt {
    ghost use Rattle.std.specs.Prelude.{◌≡◌};
    ghost use Rattle.upstream_relay.specs.Halts.{halt_of_refusal};

    ghost from_gives = { λ refusal halt. halt ≡ halt_of_refusal refusal };

    fn from(refusal: Refusal) -> RelayHalt {
        match refusal {
            Refusal::BadHead => RelayHalt::BadHead,
            Refusal::LongHead => RelayHalt::LongHead,
            Refusal::Coding => RelayHalt::Coding,
            Refusal::Table => RelayHalt::Table,
            Refusal::Status(status) => RelayHalt::Status(status),
        }
    }
}

impl From<ClaimFault> for RelayHalt {
    ghost use Rattle.std.specs.Prelude.{◌≡◌};
    ghost use Rattle.upstream_relay.specs.Halts.{halt_of_claim};

    ghost from_gives = { λ fault halt. halt ≡ halt_of_claim fault };

    fn from(fault: ClaimFault) -> RelayHalt {
        match fault {
            ClaimFault::Taken { caller, claim } => RelayHalt::Taken { caller, claim },
            ClaimFault::Worn { turns } => RelayHalt::Worn { turns },
            ClaimFault::Memory => RelayHalt::Memory,
        }
    }
}

impl From<SourceHalt> for RelayHalt {
    ghost use Rattle.std.specs.Prelude.{◌≡◌};
    ghost use Rattle.upstream_relay.specs.Halts.{halt_of_source};

    ghost from_gives = { λ source halt. halt ≡ halt_of_source source };

    fn from(source: SourceHalt) -> RelayHalt {
        match source {
            SourceHalt::Done => RelayHalt::Done,
            SourceHalt::BadChunk { at } => RelayHalt::BadChunk { at },
            SourceHalt::Worn { turns } => RelayHalt::Worn { turns },
            SourceHalt::Memory => RelayHalt::Memory,
        }
    }
}
