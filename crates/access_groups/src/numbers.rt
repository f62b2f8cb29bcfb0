//! The bases of an admission, which contracts see as a plain list.

ghost use Rattle.std.specs.Prelude.{◌≡◌};

use std::marker::Model;

/// The numbers of the mountpoints that a rover may be given. Contracts see the list of them. It is
/// made from a `Vec` and gives it back without taking memory.
#[derive(Drop)]
pub struct Bases {
    items: Vec<u32>,
}

impl Model for Bases {
    ghost use Rattle.std.specs.Prelude.{List, ℕ};

    ghost Value = { List ℕ };

    ghost view = { λ list. list.items.items };
}

impl Bases {
    /// These numbers.
    pub fn new(items: Vec<u32>) -> Bases
        ensures { result ≡ items.items }
    {
        Bases { items }
    }

    /// The numbers in order.
    pub fn as_slice(&self) -> &[u32]
        ensures { result.now ≡ self.now }
    {
        &self.items
    }

    /// The `Vec` that they were made from.
    pub fn into_vec(self) -> Vec<u32>
        ensures { result.items ≡ self }
    {
        self.items
    }
}
