//! Callers leave their places, and their passes come to those of the callers before them.

ghost use Rattle.std.specs.Prelude.{◌≡◌, ℕ, ◌+◌, ◌≤◌, ◌++◌, List, [], ◌∷◌, length, vec_len, vec_capacity};
ghost use Rattle.std.specs.List.{All};
ghost use Rattle.turn_log.specs.History.{IsLegal};
ghost use Rattle.caster_accounts.specs.History.{fits};
ghost use Rattle.session_calls.specs.Rings.{AllLater};
ghost use Rattle.session_model.specs.Run.{Histories};
ghost use Rattle.caster_places.specs.Piles.{AreThree, HasRoom, IsGivenBack};
ghost use Rattle.caster_places.specs.Rows.{AreAt, ArePiles, AreWornWithin, HaveRoom};

use crate::known::AllPlaces;
use crate::pass_piles::PassPiles;
use caster_accounts::Book;
use mount_ring::Ring;
use session_core::Places;
use turn_log::{Leaves, Pass, Played};

/// Gives the passes of these places back, each to the pile at the same place of the list.
fn leave_each<V: Played, T: Leaves<V>>(mut places: Vec<T>, piles: &mut Vec<Vec<Pass<V>>>)
    requires same { length places.items ≡ length piles.old.items }
    requires room { All (HasRoom 1) piles.old.items }
    ensures back { AreThree (λ place old new.
        IsGivenBack T.speaks T.seen T.home T.shape T.worn place old.items new.items)
        places.items piles.old.items piles.new.items }
    ensures room { (n : ℕ) → All (HasRoom (n + 1)) piles.old.items
        → All (HasRoom n) piles.new.items }
    ensures space { (vec_capacity piles.old ≤ vec_capacity piles.new)
        × (vec_len piles.new ≡ vec_len piles.old) }
{
    let Some(place) = places.pop() else {
        places.destroy_empty();
        return;
    };
    let Some(mut pile) = piles.pop() else {
        unreachable!()
    };
    leave_each(places, piles);
    pile.push_reserved(place.give_back());
    piles.push_reserved(pile);
}

/// Gives the passes of these places back, each to the pile of its lock. Piles with room for the
/// passes of so many callers have room for one less afterwards. Where no pass of the piles met its
/// lock worn by more turns than so many, no place was worn by more.
pub fn leave<T: Leaves<Ring>, B: Leaves<Book>>(places: Places<T, B>, piles: &mut PassPiles)
    requires same { length places.rings.items ≡ length piles.old.rings.items }
    requires room { HaveRoom 1 piles.old }
    ensures left { (number : ℕ) (rows : List Histories) (rings : _) (book : _)
        → AreAt number (⟦<Places<T, B> as AllPlaces>⟧.known places) rings book
        → number ≡ length rows → ArePiles rows piles.old rings book
        → ArePiles (rows ++ ⟦<Places<T, B> as AllPlaces>⟧.seen places ∷ []) piles.new rings book }
    ensures legal { IsLegal (fits (⟦<Places<T, B> as AllPlaces>⟧.known places).caps_are)
        (⟦<Places<T, B> as AllPlaces>⟧.seen places).book }
    ensures worn { (mounts : List ℕ) (book : ℕ) → AreWornWithin mounts book piles.new
        → AreWornWithin mounts book piles.old
        × AllLater (⟦<Places<T, B> as AllPlaces>⟧.worn places) (mounts ++ book ∷ []) }
    ensures room { (callers : ℕ) → HaveRoom (callers + 1) piles.old → HaveRoom callers piles.new }
    ensures count { length piles.new.rings.items ≡ length piles.old.rings.items }
    ensures one_more { length piles.new.book.items ≡ length piles.old.book.items + 1 }
{
    let Places { rings, book } = places;
    leave_each(rings, &mut piles.rings);
    piles.book.push_reserved(book.give_back());
}
