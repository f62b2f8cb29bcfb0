//! What is found at a mountpoint.
use mount_ring::Cursor;

/// What a look at a mountpoint found. What its lock refused is not there.
#[derive(Clone, Copy)]
pub struct Found {
    /// The claim under which it is held, if it is held.
    pub looked: Option<Option<u64>>,
    /// Where one stands who joins there now: behind all frames that were published.
    pub joined: Option<Cursor>,
}
