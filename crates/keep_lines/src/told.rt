//! What is told of a link.

use cast_text::MountName;
use ntrip_head::Version;

/// The number of a link: it is the `count`-th, from 1, of its caller. No two links of a run have
/// the same. It is written as `CALLER.COUNT`.
#[derive(Clone, Copy)]
pub struct LinkNumber {
    /// The number of the caller that served it.
    pub caller: u32,
    /// Which of the caller's links it is, from 1.
    pub count: u64,
}

/// Who is at the other end of a link.
#[derive(Clone, Copy)]
pub enum Peer<'a> {
    /// It was accepted, and tells its peer as this text, such as `203.0.113.9:51234`.
    From(&'a [u8]),
    /// It was accepted, and does not tell its peer.
    Unknown,
    /// It was dialled, at this address.
    To(&'a [u8]),
}

/// What the head of a link wants.
#[derive(Clone, Copy)]
pub enum Wants<'a> {
    /// The frames of this mountpoint.
    Rover(&'a MountName),
    /// To give the frames of this mountpoint.
    Source(&'a MountName),
    /// The sourcetable.
    Table,
}

/// What the head of a link asks for.
#[derive(Clone, Copy)]
pub struct Asks<'a> {
    /// The version of NTRIP that it speaks.
    pub version: Version,
    /// What it wants.
    pub wants: Wants<'a>,
    /// The user that its credentials name, of any bytes (RFC 7617), and empty where there are none.
    pub user: &'a [u8],
}

/// As what a link was let in. Accounts are numbered from 1, and 0 stands for those who give no
/// credentials; mountpoints are numbered from 0.
#[derive(Clone, Copy)]
pub enum Entered {
    /// A rover, whose session this account counts.
    Rover { account: u32 },
    /// The source of a mountpoint, under this claim.
    Source { mount: u32, claim: u64 },
    /// A relay that feeds a mountpoint, under this claim.
    Relay { mount: u32, claim: u64 },
}

/// Whose receipt it is. The numbers are those of [`Entered`].
#[derive(Clone, Copy)]
pub enum Who {
    /// A rover of this account.
    Rover { account: u32 },
    /// The source of a mountpoint.
    Source { mount: u32 },
    /// The relay of a mountpoint.
    Relay { mount: u32 },
    /// A link that was let in as none of these.
    Nobody,
}
