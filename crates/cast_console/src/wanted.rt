//! What is wanted at a console.

/// What is wanted at a console.
#[derive(Clone, Copy, Debug, PartialEq, Eq)]
pub enum Wanted {
    /// How things stand: so many workers serve a link now.
    Status { busy: u32 },
    /// Nothing yet.
    Nothing,
    /// Nothing any more.
    Over,
}
