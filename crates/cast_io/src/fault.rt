//! The one answer of a call that failed outside of the program.
use thiserror::Error;

/// A read, a write or the opening of something failed outside of the program.
#[derive(Clone, Copy, Debug, PartialEq, Eq, Error)]
#[error("input or output failed")]
pub struct Failed;
