//! What a connection without head is, and whether a session goes on.

/// What a connection without head and reply is.
#[derive(Clone, Copy, Debug, PartialEq, Eq)]
pub enum Bare {
    /// A source, of which no password is asked.
    Source,
    /// A rover without credentials.
    Rover,
}

/// Whether a session goes on.
#[derive(Clone, Copy)]
pub enum Flow {
    /// It waits for more.
    Open,
    /// It ended by itself, and waits to be closed.
    Ended,
}
