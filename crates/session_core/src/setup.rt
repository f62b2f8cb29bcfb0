//! What stays the same while the connections of a caller are served.

use cast_config::Config;
use std::alloc::Global;

/// What stays the same while the connections of one caller are served.
#[derive(Clone, Copy)]
pub struct Setup<'s> {
    /// What memory is taken from.
    pub alloc: Global,
    /// The configuration.
    pub config: &'s Config,
    /// The text of its sourcetable.
    pub table: &'s [u8],
    /// The number of the caller.
    pub me: u32,
}
