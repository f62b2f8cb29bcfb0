use cast_config::Config;
use std::alloc::Global;

/// What stays the same while a session is recorded.
#[derive(Clone, Copy)]
pub(crate) struct RecordSetup<'s> {
    /// What memory is taken from.
    pub(crate) alloc: Global,
    /// The configuration.
    pub(crate) config: &'s Config,
    /// How many links are recorded at most, 1 to 256.
    pub(crate) limit: u32,
}
