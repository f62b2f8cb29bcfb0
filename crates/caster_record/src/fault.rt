//! Why a session could not be recorded.

ghost use Rattle.std.specs.Prelude.{◌≡◌};
ghost use Rattle.caster_record.specs.declared.fault.RecorderFault.TheVariants.{Memory};

use std::alloc::{AllocError, AllocFailed};
use thiserror::Error;

/// Why a session could not be recorded.
#[derive(Clone, Copy, Debug, PartialEq, Eq, Error)]
pub enum RecorderFault {
    /// The door failed.
    #[error("the network failed")]
    Network,
    /// There is no memory, also where a session was halted by it.
    #[error("out of memory")]
    Memory,
}

impl From<AllocError> for RecorderFault {
    ghost from_gives = { λ _ e. e ≡ Memory };

    fn from(_e: AllocError) -> RecorderFault {
        RecorderFault::Memory
    }
}
