//! What a yard was asked, as plain data.
use crate::bytes::ByteString;

/// What a yard was asked for. `quiet` is the number of seconds after which a link that gave no byte
/// and took none is to be cut, 0 for never.
#[derive(Debug, PartialEq, Eq, Drop)]
pub enum YardAsked {
    /// To open so many gates at an address.
    OpenGates {
        addr: ByteString,
        gates: u32,
        quiet: u32,
    },
    /// To make a gate that dials an address.
    Reach {
        addr: ByteString,
        quiet: u32,
    },
    /// For a place for notes.
    Notes,
}
