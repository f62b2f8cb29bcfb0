/// Where a reader stands among the published frames of a mountpoint.
///
/// `next` is the place of the next frame to look at, counted from 0 over all frames that were ever
/// published there. `passed` is how many frames before it the filter permits, and `filter` is the
/// number of that filter.
#[derive(Clone, Copy, Debug, PartialEq, Eq)]
pub struct Cursor {
    pub next: u64,
    pub passed: u64,
    pub filter: u32,
}

/// The frames that were overwritten before a reader came to them.
///
/// They have the places from `from` up to, not including, `to`; `published` frames had been
/// published by then, and `overrun` counts those of the lapped ones that the reader's filter
/// permits.
#[derive(Clone, Copy, Debug, PartialEq, Eq)]
pub struct Lap {
    pub from: u64,
    pub to: u64,
    pub published: u64,
    pub overrun: u64,
}

/// What one read answers: the cursor to go on with, the lap where the cursor was lapped, and how
/// many frames were taken, at most 16.
#[derive(Clone, Copy, Debug, PartialEq, Eq)]
pub struct ReadReport {
    pub cursor: Cursor,
    pub lapped: Option<Lap>,
    pub taken: u32,
}
