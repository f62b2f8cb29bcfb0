//! Callers sit down at the locks of a caster, each with its work, and leave them.

ghost use Rattle.std.specs.Prelude.{◌≡◌, ◌≤◌, ◌+◌, ◌<◌, ◌^◌, ℕ, [], ◌++◌, List, length, map, vec_len, vec_capacity, IfOk, OnErr, OnOk};
ghost use mathlib.Core.Option.{some};
ghost use lib.ListN.{get_elem?};
ghost use Rattle.caster_places.specs.Rows.{HaveRoom};
ghost use Rattle.caster_seats.specs.Seated.{AreLegal, AreSeated, HaveLeft, HavePlaces, TookPasses, TookWork};
ghost use Rattle.caster_seats.specs.Sharing.{AreNewPasses, IsReady};

use crate::shared::{Passes, Shared};
use caster_accounts::Book;
use caster_places::{AllPlaces, PassPiles, leave};
use mount_ring::Ring;
use session_core::Places;
use std::alloc::{AllocError, Global};
use std::sync::Wait;
use turn_log::Seat;

/// A caller at the seats of a caster's locks: its number, its places, and its work, which is
/// whatever it does there.
pub struct SeatedCaller<'a, W, R: Wait + Sync> {
    /// Its number, from 0.
    pub number: u32,
    /// Its places.
    pub places: Places<Seat<'a, Ring, R>, Seat<'a, Book, R>>,
    /// What it does there.
    pub work: W,
}

/// A caller as clauses see it.
pub trait AtPlaces<W> {
    ghost use Rattle.caster_seats.specs.SeatedCallers.{SeatedTold};

    /// What is told of it.
    ghost told: { Self → SeatedTold W };
}

impl<'a, W, R: Wait + Sync> AtPlaces<W> for SeatedCaller<'a, W, R> {
    ghost use Rattle.caster_seats.specs.SeatedCallers.{seated_told};

    ghost told = { λ hand. seated_told hand.number
        (⟦<Places<Seat<'a, Ring, R>, Seat<'a, Book, R>> as AllPlaces>⟧.known hand.places)
        (⟦<Places<Seat<'a, Ring, R>, Seat<'a, Book, R>> as AllPlaces>⟧.seen hand.places)
        (⟦<Places<Seat<'a, Ring, R>, Seat<'a, Book, R>> as AllPlaces>⟧.worn hand.places)
        hand.work };
}

/// Sits down with each of these passes behind those who sat down before, and takes the work at the
/// same place of the list. After a refusal both lists are as they were.
fn sit_each<'a, W, R: Wait + Sync>(
    rt: &'a R,
    alloc: Global,
    shared: &'a Shared,
    mut passes: Vec<Passes>,
    works: &mut Vec<W>,
    hands: &mut Vec<SeatedCaller<'a, W, R>>,
) -> Result<(), AllocError>
    requires ready { IsReady shared.now }
    requires passes { (number : ℕ) (pass : _) → get_elem? passes.items number ≡ some pass
        → AreNewPasses number pass shared.now }
    requires few { length passes.items < 2 ^ 32 }
    requires size { length works.old.items ≡ length passes.items }
    requires room { vec_len hands.old + length passes.items ≤ vec_capacity hands.old }
    ensures seated { OnOk result ((more : List _) × (hands.new.items ≡ hands.old.items ++ more)
        × AreSeated shared.now 0 works.old.items
        (map ⟦<SeatedCaller<'a, W, R> as AtPlaces<W>>⟧.told more)) }
    ensures taken { OnOk result (works.new.items ≡ []) }
    ensures kept { OnErr result (works.new.items ≡ works.old.items) }
    ensures unseated { OnErr result (hands.new.items ≡ hands.old.items) }
    ensures space { vec_capacity works.old ≤ vec_capacity works.new }
    ensures count { OnOk result (vec_len hands.new ≡ vec_len hands.old + length passes.items) }
    ensures capacity { vec_capacity hands.old ≤ vec_capacity hands.new }
{
    let Some(pass) = passes.pop() else {
        return Ok(());
    };
    let number = passes.len() as u32;
    let places = shared.places(rt, alloc, pass)?;
    let Some(work) = works.pop() else {
        unreachable!()
    };
    if let Err(fault) = sit_each(rt, alloc, shared, passes, works, hands) {
        works.push_reserved(work);
        return Err(fault);
    }
    hands.push_reserved(SeatedCaller {
        number,
        places,
        work,
    });
    Ok(())
}

/// Sits down with these passes, which are those of all callers, and takes their work, in the order
/// of their numbers. After a refusal nobody sat down, and the list is as it was.
pub fn sit_all<'a, W, R: Wait + Sync>(
    rt: &'a R,
    alloc: Global,
    shared: &'a Shared,
    passes: Vec<Passes>,
    works: &mut Vec<W>,
) -> Result<Vec<SeatedCaller<'a, W, R>>, AllocError>
    requires ready { IsReady shared.now }
    requires passes { (number : ℕ) (pass : _) → get_elem? passes.items number ≡ some pass
        → AreNewPasses number pass shared.now }
    requires few { length passes.items < 2 ^ 32 }
    requires size { length works.old.items ≡ length passes.items }
    ensures seated { IfOk result (λ hands. AreSeated shared.now 0 works.old.items
        (map ⟦<SeatedCaller<'a, W, R> as AtPlaces<W>>⟧.told hands.items)) }
    ensures count { IfOk result (λ hands. length hands.items ≡ length passes.items) }
    ensures taken { OnOk result (works.new.items ≡ []) }
    ensures kept { OnErr result (works.new.items ≡ works.old.items) }
    ensures space { vec_capacity works.old ≤ vec_capacity works.new }
{
    let mut hands = Vec::with_capacity(alloc, passes.len())?;
    match sit_each(rt, alloc, shared, passes, works, &mut hands) {
        Ok(()) => Ok(hands),
        Err(fault) => {
            hands.destroy_empty();
            Err(fault)
        }
    }
}

/// Takes all of these callers from their seats. Their passes go to the piles of their locks, and
/// their work to the list, in order.
pub fn leave_all<'a, W, R: Wait + Sync>(
    mut hands: Vec<SeatedCaller<'a, W, R>>,
    piles: &mut PassPiles,
    works: &mut Vec<W>,
)
    requires room { vec_len works.old + length hands.items ≤ vec_capacity works.old }
    requires spare { HaveRoom (length hands.items) piles.old }
    requires places { HavePlaces (length piles.old.rings.items)
        (map ⟦<SeatedCaller<'a, W, R> as AtPlaces<W>>⟧.told hands.items) }
    ensures works { TookWork ⟦<SeatedCaller<'a, W, R> as AtPlaces<W>>⟧.told hands.entry.items
        works.old works.new }
    ensures piles { TookPasses ⟦<SeatedCaller<'a, W, R> as AtPlaces<W>>⟧.told hands.entry.items
        piles.old piles.new }
    ensures left { HaveLeft (map ⟦<SeatedCaller<'a, W, R> as AtPlaces<W>>⟧.told hands.entry.items)
        piles.old piles.new }
    ensures legal { AreLegal
        (map ⟦<SeatedCaller<'a, W, R> as AtPlaces<W>>⟧.told hands.entry.items) }
{
    let Some(last) = hands.pop() else {
        hands.destroy_empty();
        return;
    };
    leave_all(hands, piles, works);
    let SeatedCaller {
        number: _,
        places,
        work,
    } = last;
    leave(places, piles);
    works.push_reserved(work);
}
