//! What a caster answers.

use thiserror::Error;

/// Why no body follows.
#[derive(Clone, Copy, Debug, PartialEq, Eq, Error)]
pub enum Refusal {
    /// The first line is none of a caster, or the head is none of an HTTP response.
    #[error("no head")]
    BadHead,
    /// 8,192 bytes came, and the head did not end.
    #[error("the head is too long")]
    LongHead,
    /// The body would come in a transfer coding other than `chunked`.
    #[error("transfer coding not implemented")]
    Coding,
    /// The sourcetable of NTRIP 1.0 follows, as where the mountpoint is not there.
    #[error("the sourcetable came")]
    Table,
    /// The status of HTTP is another than 200.
    #[error("status {0}")]
    Status(u16),
}

/// What the bytes of an answer say so far.
#[derive(Clone, Copy, Debug, PartialEq, Eq)]
pub enum Answer {
    /// Nothing yet.
    Open,
    /// A body follows from this place on, which is the number of bytes of the head.
    Accepted {
        /// The place of the body's first byte, from 0.
        at: u64,
        /// The body comes in the transfer coding `chunked` (RFC 9112, section 7.1).
        chunked: bool,
    },
    /// No body follows.
    Refused(Refusal),
}
