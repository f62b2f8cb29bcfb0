//! Why a head is refused, or was not read.

ghost use Rattle.std.specs.Prelude.{◌≡◌};
ghost use Rattle.ntrip_head.specs.declared.fault.HeadError.TheVariants.{Memory};

use std::alloc::AllocError;
use thiserror::Error;

/// Why a head is refused.
#[derive(Clone, Copy, Debug, PartialEq, Eq, Error)]
pub enum HeadFault {
    /// The bytes are no head, or the target of a request names nothing.
    #[error("no head")]
    Bad,
    /// The method of an HTTP request is neither `GET` nor `POST`.
    #[error("method not implemented")]
    Method,
    /// The body would come in a transfer coding other than `chunked`.
    #[error("transfer coding not implemented")]
    Coding,
}

/// Why a head gives no request.
#[derive(Clone, Copy, Debug, PartialEq, Eq, Error)]
pub enum HeadError {
    /// It is refused.
    #[error("{0}")]
    Refused(HeadFault),
    /// There is no memory for what it says.
    #[error("out of memory")]
    Memory,
}

impl From<AllocError> for HeadError {
    ghost from_gives = { λ _ e. e ≡ Memory };

    fn from(_e: AllocError) -> HeadError {
        HeadError::Memory
    }
}
