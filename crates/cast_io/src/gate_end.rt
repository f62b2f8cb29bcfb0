//! When a gate in memory is over, as plain data.

/// When a gate in memory is over.
#[derive(Clone, Copy, Debug, PartialEq, Eq)]
pub enum GateEnd {
    /// Once nothing more is to arrive.
    UsedUp,
    /// Once it was asked so many times whether it is over: 0 is from the first.
    Asked(u64),
}
