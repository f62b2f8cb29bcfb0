ghost use Rattle.std.specs.Prelude.{◌≡◌, ◌==◌, length};

use mount_ring::Lap;
use std::marker::Model;

/// The laps of a segment, in the order in which they happened. Contracts see the list of them.
#[derive(Debug, Drop)]
pub struct Laps {
    pub(crate) items: Vec<Lap>,
}

impl Model for Laps {
    ghost use Rattle.std.specs.Prelude.{List};
    ghost use Rattle.mount_ring.specs.declared.cursor.Lap.{Lap};

    ghost Value = { List Lap };

    ghost view = { λ l. l.items.items };
}

impl Laps {
    /// These laps, in this order. Takes no memory.
    pub fn new(list: Vec<Lap>) -> Laps
        ensures { result ≡ list.items }
    {
        Laps { items: list }
    }

    /// How many laps there are.
    pub fn len(&self) -> usize
        ensures { result ≡ length self.now }
    {
        self.items.len()
    }

    /// Whether there is none.
    pub fn is_empty(&self) -> bool
        ensures { result ≡ (length self.now == 0) }
    {
        self.items.is_empty()
    }

    /// The laps in order.
    pub fn as_slice(&self) -> &[Lap]
        ensures { result.now ≡ self.now }
    {
        &self.items
    }

    /// The list of the laps, given back. Takes no memory.
    pub fn into_vec(self) -> Vec<Lap>
        ensures { result.items ≡ self }
    {
        self.items
    }
}

impl PartialEq for Laps {
    ghost use Rattle.std.proofs.Common.{rules};
    ghost use Rattle.std.specs.Cmp.Rules.{comparing};
    ghost use Rattle.std.specs.Cmp.Lexicographic.{pointwise, lists_per};

    ghost eq = { pointwise ⟦<Lap as PartialEq>⟧.eq };

    ghost laws = { lists_per (Prim.search (comparing, rules)) };

    fn eq(&self, other: &Laps) -> bool {
        self.as_slice() == other.as_slice()
    }
}

impl Eq for Laps {
    ghost use Rattle.std.proofs.Common.{rules};
    ghost use Rattle.std.specs.Cmp.Rules.{comparing};
    ghost use Rattle.std.specs.Cmp.Lexicographic.{lists_equiv};

    ghost laws = { lists_equiv (Prim.search (comparing, rules)) };
}
