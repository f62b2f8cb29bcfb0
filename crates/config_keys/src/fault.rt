//! Why a key of a configuration is refused. What is printed then is `push_fault`'s.

ghost use Rattle.std.specs.Prelude.{◌≡◌};
ghost use Rattle.config_keys.specs.declared.fault.KeyFault.TheVariants as faults;

use crate::key::Key;
use std::alloc::{AllocError, AllocFailed};

/// Which test a key fails. The tests of one key come in this order, but for `Memory`.
#[derive(Clone, Copy)]
pub enum KeyFault {
    /// The key is required, and it is not there.
    Missing(Key),
    /// The value, or an element of its list, has another TOML type.
    Wrong(Key),
    /// A number, length, count, name or record breaks its rule.
    Range(Key),
    /// Two names are the same that have to differ: of two entries, or of two elements of a list.
    Twice(Key),
    /// A name is that of no mountpoint or group.
    Unknown(Key),
    /// There is no memory for the value.
    Memory,
}

impl From<AllocError> for KeyFault {
    ghost from_gives = { λ _ e. e ≡ faults.Memory };

    fn from(_e: AllocError) -> KeyFault {
        KeyFault::Memory
    }
}

impl<T: Drop> From<AllocFailed<T>> for KeyFault {
    ghost from_gives = { λ _ e. e ≡ faults.Memory };

    fn from(_e: AllocFailed<T>) -> KeyFault {
        KeyFault::Memory
    }
}
