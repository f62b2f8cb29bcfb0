//! Laws of what is looked back at, each a clause of a function that does nothing.
ghost use Rattle.std.specs.Prelude.{◌≡◌, ℕ, ◌<◌, ◌≤◌, ◌/◌, ◌^◌, List, sum, take};
ghost use Rattle.send_room.specs.Flows.{lately, new_flow};
ghost use Rattle.send_room.specs.Windows.{InOrder, Part, behind, recent, size_of};

/// What a flow that was told of all parts looks back at, in up to eight half seconds, is what was
/// taken in these: each part of them counts whole, and no other counts. The parts come in the order
/// of their times and have less than 2^32 bytes in all.
pub fn window_is_what_was_taken_lately()
    ensures { (parts : List Part) (now halves : ℕ) → halves ≤ 8 → InOrder 0 parts (now / 500)
        → size_of parts < 2 ^ 32
        → sum (take halves (lately now (behind parts new_flow))) ≡ recent halves now parts }
{}
