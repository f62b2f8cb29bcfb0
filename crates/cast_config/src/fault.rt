//! Why bytes are no configuration.

ghost use Rattle.std.specs.Prelude.{◌≡◌, ◌++◌, OnOk, OnErr};
ghost use Rattle.cast_config.specs.declared.fault.ConfigFault.TheVariants as faults;
ghost use Rattle.cast_config.specs.Faults.{config_fault, fault_line};

use config_keys::{Key, KeyFault, push_fault};
use std::alloc::AllocError;
use thiserror::Error;

/// Why bytes are no configuration: the first test of the first key that fails.
#[derive(Clone, Copy, Debug, Error)]
pub enum ConfigFault {
    /// The bytes are no TOML document.
    #[error("no TOML document")]
    Toml,
    /// The key is required, and it is not there.
    #[error("a required key is missing")]
    Missing(Key),
    /// The value, or an element of its list, has another TOML type.
    #[error("a key has another type")]
    Wrong(Key),
    /// A number, length, count, name or record breaks its rule.
    #[error("a key is out of its range")]
    Range(Key),
    /// Two names are the same that have to differ: of two entries, or of two elements of a list.
    #[error("a name stands twice")]
    Twice(Key),
    /// A name is that of no mountpoint or group.
    #[error("a name is not known")]
    Unknown(Key),
    /// There is no memory for the configuration.
    #[error("out of memory")]
    Memory,
}

impl From<KeyFault> for ConfigFault {
    ghost from_gives = { λ fault e. e ≡ config_fault fault };

    fn from(fault: KeyFault) -> ConfigFault {
        match fault {
            KeyFault::Missing(key) => ConfigFault::Missing(key),
            KeyFault::Wrong(key) => ConfigFault::Wrong(key),
            KeyFault::Range(key) => ConfigFault::Range(key),
            KeyFault::Twice(key) => ConfigFault::Twice(key),
            KeyFault::Unknown(key) => ConfigFault::Unknown(key),
            KeyFault::Memory => ConfigFault::Memory,
        }
    }
}

impl ConfigFault {
    ghost use Rattle.std.specs.Prelude.{List, ℕ};
    ghost use Rattle.cast_config.specs.Faults.{key_fault};

    /// Appends the line of the fault, as `configuration: range group 1 filter`, with LF: which test
    /// was failed, the top key, the number of the entry from 1, and the entry's key. A refusal
    /// leaves `out` as it was.
    pub fn push_line(&self, out: &mut Vec<u8>) -> Result<(), AllocError>
        ensures ok { OnOk result (out.new.items ≡ out.old.items ++ fault_line self.now) }
        ensures err { OnErr result (out.new.items ≡ out.old.items) }
    {
        let before = out.len();
        let appended = self.push_words(out);
        if appended.is_err() {
            out.truncate(before);
        }
        appended
    }

    /// Appends the line. A refusal may leave some of it.
    fn push_words(&self, out: &mut Vec<u8>) -> Result<(), AllocError>
        ensures ok { OnOk result (out.new.items ≡ out.old.items ++ fault_line self.now) }
        ensures begins { (more : List ℕ) × (out.new.items ≡ out.old.items ++ more) }
    {
        out.extend_from_slice(b"configuration: ")?;
        match self.key_fault() {
            Some(fault) => push_fault(fault, out)?,
            None => out.extend_from_slice(b"toml")?,
        }
        out.push(b'\n')?;
        Ok(())
    }

    /// The fault of a key that it is, if it is one.
    fn key_fault(&self) -> Option<KeyFault>
        ensures { result ≡ key_fault self.now }
    {
        match *self {
            ConfigFault::Toml => None,
            ConfigFault::Missing(key) => Some(KeyFault::Missing(key)),
            ConfigFault::Wrong(key) => Some(KeyFault::Wrong(key)),
            ConfigFault::Range(key) => Some(KeyFault::Range(key)),
            ConfigFault::Twice(key) => Some(KeyFault::Twice(key)),
            ConfigFault::Unknown(key) => Some(KeyFault::Unknown(key)),
            ConfigFault::Memory => Some(KeyFault::Memory),
        }
    }
}
