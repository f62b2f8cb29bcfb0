//! Names of mountpoints, users and groups.

ghost use Rattle.std.specs.Prelude.{◌≡◌, not, position, IfOk, IsTrue};
ghost use Rattle.std.proofs.Common.{rules};
ghost use Rattle.std.specs.Cmp.Rules.{comparing};
ghost use Rattle.cast_text.specs.Name.{Gives, is_name, is_name_byte, name_fault, name_of};

use crate::fault::NameFault;
use std::alloc::{AllocError, Global};
use std::marker::Model;

/// The most bytes that a name has.
const MAX_NAME_BYTES: usize = 100;

/// Whether this byte may stand in a name.
fn is_allowed(byte: u8) -> bool
    ensures { result ≡ is_name_byte byte }
{
    (0x21..=0x7E).contains(&byte) && byte != b'/' && byte != b':' && byte != b';' && byte != b'?'
}

/// The first place whose byte may not stand in a name.
fn first_refused(text: &[u8]) -> Option<usize>
    ensures { result ≡ position (λ b. not (is_name_byte b)) text.now }
{
    text.iter().position(|byte| !is_allowed(*byte))
}

/// What is wrong with these bytes as a name.
fn fault_of(text: &[u8]) -> Option<NameFault>
    ensures { result ≡ name_fault text.now }
{
    if text.is_empty() {
        return Some(NameFault::Empty);
    }
    if text.len() > MAX_NAME_BYTES {
        return Some(NameFault::Long(text.len()));
    }
    match first_refused(text) {
        None => None,
        Some(place) => Some(NameFault::Byte(place)),
    }
}

/// Whether these bytes are a name: the name of a mountpoint, a user or a group can be made of them.
pub fn is_name(text: &[u8]) -> bool
    ensures { result ≡ is_name text.now }
{
    fault_of(text).is_none()
}

/// The name of a mountpoint: 1 to 100 printable ASCII bytes (hexadecimal 21 to 7E) without `;`,
/// `/`, `?` and `:`. Contracts see it as the list of its bytes.
#[derive(Debug, Drop)]
pub struct MountName {
    bytes: Vec<u8>,
}

impl Model for MountName {
    ghost use Rattle.std.specs.Prelude.{List, ℕ, IsTrue};
    ghost use Rattle.cast_text.specs.Name.{is_name};

    ghost Value = { List ℕ };

    ghost view = { λ name. name.bytes.items };

    ghost invariant = { λ name. IsTrue (is_name name.bytes.items) };
}

impl MountName {
    /// The name that these bytes are.
    ///
    /// # Errors
    /// Tested in this order: `Empty` exactly where there is no byte; `Long` exactly where there are
    /// more than 100, with their number; `Byte` exactly where a byte is not allowed, with the first
    /// such place. `Memory` at any time.
    pub fn new(alloc: Global, text: &[u8]) -> Result<MountName, NameFault>
        ensures { Gives result (name_of text.now) }
    {
        if let Some(fault) = fault_of(text) {
            return Err(fault);
        }
        Ok(MountName::of(alloc, text)?)
    }

    /// The name that these bytes are.
    pub fn of(alloc: Global, text: &[u8]) -> Result<MountName, AllocError>
        requires { IsTrue (is_name text.now) }
        ensures { IfOk result (λ name. name ≡ text.now) }
    {
        Ok(MountName {
            bytes: Vec::from_slice(alloc, text)?,
        })
    }

    /// The bytes of the name.
    pub fn bytes(&self) -> &[u8]
        ensures value { result.now ≡ self.now }
        ensures allowed { IsTrue (is_name self.now) }
    {
        &self.bytes
    }

    /// A copy of the name.
    pub fn copy(&self, alloc: Global) -> Result<MountName, AllocError>
        ensures { IfOk result (λ name. name ≡ self.now) }
    {
        MountName::of(alloc, &self.bytes)
    }
}

impl PartialEq for MountName {
    ghost use Rattle.std.specs.Str.{bytes_eq};

    ghost eq = { bytes_eq };

    ghost laws = { Prim.search (comparing, rules) };

    fn eq(&self, other: &MountName) -> bool {
        self.bytes.as_slice() == other.bytes.as_slice()
    }
}

impl Eq for MountName {
    ghost laws = { Prim.search (comparing, rules) };
}

/// The name of a user: 1 to 100 printable ASCII bytes (hexadecimal 21 to 7E) without `;`, `/`,
/// `?` and `:`. Contracts see it as the list of its bytes.
#[derive(Debug, Drop)]
pub struct UserName {
    bytes: Vec<u8>,
}

impl Model for UserName {
    ghost use Rattle.std.specs.Prelude.{List, ℕ, IsTrue};
    ghost use Rattle.cast_text.specs.Name.{is_name};

    ghost Value = { List ℕ };

    ghost view = { λ name. name.bytes.items };

    ghost invariant = { λ name. IsTrue (is_name name.bytes.items) };
}

impl UserName {
    /// The name that these bytes are.
    ///
    /// # Errors
    /// Tested in this order: `Empty` exactly where there is no byte; `Long` exactly where there are
    /// more than 100, with their number; `Byte` exactly where a byte is not allowed, with the first
    /// such place. `Memory` at any time.
    pub fn new(alloc: Global, text: &[u8]) -> Result<UserName, NameFault>
        ensures { Gives result (name_of text.now) }
    {
        if let Some(fault) = fault_of(text) {
            return Err(fault);
        }
        Ok(UserName::of(alloc, text)?)
    }

    /// The name that these bytes are.
    pub fn of(alloc: Global, text: &[u8]) -> Result<UserName, AllocError>
        requires { IsTrue (is_name text.now) }
        ensures { IfOk result (λ name. name ≡ text.now) }
    {
        Ok(UserName {
            bytes: Vec::from_slice(alloc, text)?,
        })
    }

    /// The bytes of the name.
    pub fn bytes(&self) -> &[u8]
        ensures value { result.now ≡ self.now }
        ensures allowed { IsTrue (is_name self.now) }
    {
        &self.bytes
    }

    /// A copy of the name.
    pub fn copy(&self, alloc: Global) -> Result<UserName, AllocError>
        ensures { IfOk result (λ name. name ≡ self.now) }
    {
        UserName::of(alloc, &self.bytes)
    }
}

impl PartialEq for UserName {
    ghost use Rattle.std.specs.Str.{bytes_eq};

    ghost eq = { bytes_eq };

    ghost laws = { Prim.search (comparing, rules) };

    fn eq(&self, other: &UserName) -> bool {
        self.bytes.as_slice() == other.bytes.as_slice()
    }
}

impl Eq for UserName {
    ghost laws = { Prim.search (comparing, rules) };
}

/// The name of a group: 1 to 100 printable ASCII bytes (hexadecimal 21 to 7E) without `;`, `/`,
/// `?` and `:`. Contracts see it as the list of its bytes.
#[derive(Debug, Drop)]
pub struct GroupName {
    bytes: Vec<u8>,
}

impl Model for GroupName {
    ghost use Rattle.std.specs.Prelude.{List, ℕ, IsTrue};
    ghost use Rattle.cast_text.specs.Name.{is_name};

    ghost Value = { List ℕ };

    ghost view = { λ name. name.bytes.items };

    ghost invariant = { λ name. IsTrue (is_name name.bytes.items) };
}

impl GroupName {
    /// The name that these bytes are.
    ///
    /// # Errors
    /// Tested in this order: `Empty` exactly where there is no byte; `Long` exactly where there are
    /// more than 100, with their number; `Byte` exactly where a byte is not allowed, with the first
    /// such place. `Memory` at any time.
    pub fn new(alloc: Global, text: &[u8]) -> Result<GroupName, NameFault>
        ensures { Gives result (name_of text.now) }
    {
        if let Some(fault) = fault_of(text) {
            return Err(fault);
        }
        Ok(GroupName::of(alloc, text)?)
    }

    /// The name that these bytes are.
    pub fn of(alloc: Global, text: &[u8]) -> Result<GroupName, AllocError>
        requires { IsTrue (is_name text.now) }
        ensures { IfOk result (λ name. name ≡ text.now) }
    {
        Ok(GroupName {
            bytes: Vec::from_slice(alloc, text)?,
        })
    }

    /// The bytes of the name.
    pub fn bytes(&self) -> &[u8]
        ensures value { result.now ≡ self.now }
        ensures allowed { IsTrue (is_name self.now) }
    {
        &self.bytes
    }

    /// A copy of the name.
    pub fn copy(&self, alloc: Global) -> Result<GroupName, AllocError>
        ensures { IfOk result (λ name. name ≡ self.now) }
    {
        GroupName::of(alloc, &self.bytes)
    }
}

impl PartialEq for GroupName {
    ghost use Rattle.std.specs.Str.{bytes_eq};

    ghost eq = { bytes_eq };

    ghost laws = { Prim.search (comparing, rules) };

    fn eq(&self, other: &GroupName) -> bool {
        self.bytes.as_slice() == other.bytes.as_slice()
    }
}

impl Eq for GroupName {
    ghost laws = { Prim.search (comparing, rules) };
}
