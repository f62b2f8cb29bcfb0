//! The kinds of replies.

/// What a client is told.
#[derive(Clone, Copy, Debug, PartialEq, Eq)]
pub enum Reply {
    /// A rover is admitted, and frames follow.
    RoverOk,
    /// A source is admitted, and its frames are awaited.
    SourceOk,
    /// The sourcetable was asked for.
    Table,
    /// The head is none that the caster reads.
    BadHead,
    /// The method is neither `GET` nor `POST`.
    Method,
    /// The body would come in a transfer coding other than `chunked`.
    Coding,
    /// A rover asked for a mountpoint that is not there.
    RoverNoMount,
    /// A source asked for a mountpoint that is not there.
    SourceNoMount,
    /// A rover has no account, or gave another password.
    Unauthorized,
    /// The account does not have this mountpoint.
    Denied,
    /// The account has as many sessions as it may have.
    Full,
    /// A source gave another password than that of its mountpoint.
    SourcePassword,
    /// The mountpoint has a source.
    Taken,
}
