/// A call that a session makes on the book. An account is named by its place in the list of caps.
#[derive(Clone, Copy, Debug, PartialEq, Eq)]
pub enum BookCall {
    /// Opens a session of this account.
    Enter(u32),
    /// Ends an open session of the caller, in which so many frames were sent, and so many were
    /// overwritten before they could be read.
    Leave {
        account: u32,
        sent: u64,
        overrun: u64,
    },
}

/// What the book answers to a call.
#[derive(Clone, Copy, Debug, PartialEq, Eq)]
pub enum BookAnswer {
    /// The session is open.
    Entered,
    /// The session was not opened: `busy` sessions of the account are open, as many as its `cap`.
    Full { busy: u32, cap: u32 },
    /// The session has ended.
    Left,
}
