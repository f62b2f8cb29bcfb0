//! Seats at the locks of a caster.

ghost use Rattle.std.specs.Prelude.{◌≡◌, ℕ, ◌++◌, ◌≤◌, ◌+◌, length, map, vec_len, vec_capacity};
ghost use Rattle.std.specs.List.{All};
ghost use Rattle.turn_log.specs.Lock.{turn_value, turn_home, pass_number, pass_seen, IsPassOf};
ghost use Rattle.caster_places.specs.Piles.{AreMatched};
ghost use Rattle.caster_seats.specs.Sharing.{AllSay};

use std::sync::Wait;
use turn_log::{Pass, Played, Seat, Turn, Turns};

/// Sits down at each of these locks with the pass at the same place of the list.
pub(crate) fn sit_down<'a, V: Played, R: Wait + Sync>(
    rt: &'a R,
    locks: &'a [Turn<V>],
    seats: &mut Vec<Seat<'a, V, R>>,
    mut passes: Vec<Pass<V>>,
)
    requires matched { AreMatched IsPassOf passes.items locks.now }
    requires room { vec_len seats.old + length passes.items ≤ vec_capacity seats.old }
    ensures seen { map ⟦<Seat<'a, V, R> as Turns<V>>⟧.seen seats.new.items
        ≡ map ⟦<Seat<'a, V, R> as Turns<V>>⟧.seen seats.old.items ++ map pass_seen passes.items }
    ensures shapes { map ⟦<Seat<'a, V, R> as Turns<V>>⟧.shape seats.new.items
        ≡ map ⟦<Seat<'a, V, R> as Turns<V>>⟧.shape seats.old.items
        ++ map (λ turn. V.shape (turn_value turn)) locks.now }
    ensures homes { map ⟦<Seat<'a, V, R> as Turns<V>>⟧.home seats.new.items
        ≡ map ⟦<Seat<'a, V, R> as Turns<V>>⟧.home seats.old.items ++ map turn_home locks.now }
    ensures speaks { (number : ℕ) → All (λ pass. pass_number pass ≡ number) passes.items
        → AllSay number (map ⟦<Seat<'a, V, R> as Turns<V>>⟧.speaks seats.old.items)
        → AllSay number (map ⟦<Seat<'a, V, R> as Turns<V>>⟧.speaks seats.new.items) }
    ensures capacity { vec_capacity seats.old ≤ vec_capacity seats.new }
    ensures count { vec_len seats.new ≡ vec_len seats.old + length passes.items }
{
    let Some(pass) = passes.pop() else {
        return;
    };
    let last = passes.len();
    sit_down(rt, &locks[..last], seats, passes);
    seats.push_reserved(locks[last].seat(rt, pass));
}
