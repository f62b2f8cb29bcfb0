//! Why a keeper stopped.

/// Why a caller that keeps serving serves no more.
#[derive(Clone, Copy, Debug, PartialEq, Eq)]
pub enum Stop {
    /// Its gate is over.
    Over,
    /// Its gate failed.
    Failed,
}
