//! A history that has no bytes: clauses alone read it.
ghost use Rattle.std.specs.Prelude.{◌≡◌, [], ◌∷◌, ◌++◌};
ghost use Rattle.turn_log.specs.Past.{so_far};

use std::marker::Model;
use std::snapshot::Snapshot;

/// One call, and what was called before it. To clauses it is the whole history up to this call.
#[derive(Drop)]
pub struct Entry<C> {
    past: Option<Snapshot<Entry<C>>>,
    by: u32,
    call: C,
}

impl<C> Model for Entry<C> {
    ghost use Rattle.std.specs.Prelude.{[], ◌∷◌, ◌++◌, length};
    ghost use Rattle.turn_log.specs.History.{History};
    ghost use Rattle.turn_log.specs.Past.{so_far};

    ghost Value = { History C };

    ghost view = { λ entry. so_far entry.past ++ (entry.by, entry.call) ∷ [] };

    ghost size = { length };

    ghost use Rattle.std.proofs.Common.{arith, length-append};

    ghost size_decreases = { λ entry h. Prim.grind (arith, length-append) };
}

/// The history with this call at its end.
pub fn and_then<C: Copy>(
    past: Option<Snapshot<Entry<C>>>,
    by: u32,
    call: C,
) -> Option<Snapshot<Entry<C>>>
    ensures { so_far result ≡ so_far past ++ (by, call) ∷ [] }
{
    Some(Snapshot::of(&Entry { past, by, call }))
}
