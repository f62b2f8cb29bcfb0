//! What is told of a connection, and of a caster, when it is over.

use crate::ending::Ending;
use crate::lists::{Connections, MountTotals, Segments, Sent, Sums};
use caster_accounts::Sum;

/// What a connection came to.
#[derive(Debug, Drop)]
pub struct Receipt {
    /// How it ended.
    pub ending: Ending,
    /// What it read, if it was a rover.
    pub segments: Segments,
    /// How many frames its segments were sent.
    pub sent: u64,
    /// How many permitted frames were overwritten before its segments could read them.
    pub overrun: u64,
    /// How many bytes of its payload were no part of a frame, if it was a source with a claim.
    pub junk: u64,
    /// Whether it entered an account.
    pub entered: bool,
    /// Whether each turn that closed it was taken.
    pub settled: bool,
}

/// What a mountpoint came to.
#[derive(Clone, Copy, Debug, PartialEq, Eq)]
pub struct MountTotal {
    /// How many frames were published.
    pub published: u64,
    /// How many claims were given.
    pub claims: u64,
}

/// What a caster came to.
#[derive(Debug, Drop)]
pub struct Closed {
    /// The mountpoints, in the order of their numbers.
    pub mounts: MountTotals,
    /// The named accounts, in the order of their numbers.
    pub accounts: Sums,
    /// All accounts, with that of rovers without credentials.
    pub total: Sum,
}

/// What is told of one connection.
#[derive(Drop)]
pub struct Connection {
    /// Its number, which is that of its caller too.
    pub number: u32,
    /// What it came to.
    pub receipt: Receipt,
    /// All bytes that were sent to it.
    pub bytes: Sent,
}

/// What is told of a whole run.
#[derive(Drop)]
pub struct Report {
    /// Its connections, in increasing order of number.
    pub connections: Connections,
    /// What the caster came to.
    pub closed: Closed,
}
