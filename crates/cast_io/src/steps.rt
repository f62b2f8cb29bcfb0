//! What a link is to do, what links, sources and stores did, and what a street was asked, as plain
//! data.
use crate::bytes::ByteString;

/// A step that a link in memory is to take.
#[derive(Debug, PartialEq, Eq, Drop)]
pub enum LinkStep {
    /// The peer sends these bytes, of which there is at least one.
    Bytes(ByteString),
    /// Nothing is there yet.
    Idle,
    /// The peer has ended.
    End,
}

/// A step that a link took: what a read answered, or a write that failed.
#[derive(Debug, PartialEq, Eq, Drop)]
pub enum Step {
    /// A read gave these bytes.
    Bytes(ByteString),
    /// A read found nothing yet.
    Idle,
    /// A read came to the end.
    End,
    /// A read failed.
    ReadFailed,
    /// A write failed.
    WriteFailed,
}

/// A step that a source or a store took: what a read or an open answered. `B` holds bytes.
#[derive(Debug, PartialEq, Eq, Drop)]
pub enum SourceStep<B> {
    /// The file of this path was opened.
    Opened(B),
    /// A read gave these bytes, at least one.
    Bytes(B),
    /// A read came to the end.
    End,
    /// A read or an open failed.
    Failed,
}

/// What a street was asked for.
#[derive(Debug, PartialEq, Eq, Drop)]
pub enum Asked {
    /// To open so many doors at an address.
    Open { addr: ByteString, doors: u32 },
    /// To dial an address.
    Dial { addr: ByteString },
}
