//! The passes of several locks are dealt to workers.

ghost use Rattle.std.specs.Prelude.{◌≡◌, ℕ, ◌+◌, ◌^◌, ◌<◌, ◌≤◌, List, ◌++◌, length, vec_len, vec_capacity, IfOk, OnOk};
ghost use mathlib.Core.Option.{some};
ghost use lib.ListN.{get_elem?};
ghost use Rattle.caster_places.specs.Piles.{AreMatched};
ghost use Rattle.caster_seats.specs.Sharing.{AreDealt, AreNewPasses, IsNewPass};

use crate::shared::{Passes, Shared};
use caster_accounts::Book;
use mount_ring::Ring;
use std::alloc::{AllocError, Global};
use turn_log::{Pass, Turn};

/// Takes the last pass of each pile, in the order of the piles: each is of the lock at its place,
/// and so many are left in it.
fn take_last(
    locks: &[Turn<Ring>],
    piles: &mut Vec<Vec<Pass<Ring>>>,
    taken: &mut Vec<Pass<Ring>>,
    left: u32,
)
    requires dealt { AreMatched (λ pile lock. AreDealt (left + 1) pile.items lock)
        piles.old.items locks.now }
    requires room { vec_len taken.old + length piles.old.items ≤ vec_capacity taken.old }
    ensures dealt { AreMatched (λ pile lock. AreDealt left pile.items lock)
        piles.new.items locks.now }
    ensures taken { (more : List _) × (taken.new.items ≡ taken.old.items ++ more)
        × AreMatched (IsNewPass left) more locks.now }
    ensures capacity { vec_capacity taken.old ≤ vec_capacity taken.new }
    ensures count { vec_len taken.new ≡ vec_len taken.old + length piles.old.items }
    ensures space { (vec_capacity piles.old ≤ vec_capacity piles.new)
        × (vec_len piles.new ≡ vec_len piles.old) }
{
    let Some(mut pile) = piles.pop() else {
        return;
    };
    let Some(pass) = pile.pop() else {
        unreachable!()
    };
    let last = piles.len();
    take_last(&locks[..last], piles, taken, left);
    taken.push_reserved(pass);
    piles.push_reserved(pile);
}

/// Hands all passes out: of each lock one to each of so many workers, in the order of their
/// numbers. After a refusal some were handed out.
fn hand_out(
    alloc: Global,
    shared: &Shared,
    piles: &mut Vec<Vec<Pass<Ring>>>,
    of_book: &mut Vec<Pass<Book>>,
    list: &mut Vec<Passes>,
) -> Result<(), AllocError>
    requires rings { AreMatched (λ pile lock. AreDealt (length of_book.old.items) pile.items lock)
        piles.old.items shared.now.rings.items }
    requires book { AreDealt (length of_book.old.items) of_book.old.items shared.now.book }
    requires few { length of_book.old.items < 2 ^ 32 }
    requires room { vec_len list.old + length of_book.old.items ≤ vec_capacity list.old }
    ensures handed { OnOk result ((more : List _) × (list.new.items ≡ list.old.items ++ more)
        × (length more ≡ length of_book.old.items)
        × ((number : ℕ) (passes : _) → get_elem? more number ≡ some passes
        → AreNewPasses number passes shared.now)) }
    ensures capacity { vec_capacity list.old ≤ vec_capacity list.new }
    ensures count { OnOk result (vec_len list.new ≡ vec_len list.old + length of_book.old.items) }
{
    let Some(pass) = of_book.pop() else {
        return Ok(());
    };
    let mut taken = Vec::with_capacity(alloc, piles.len())?;
    take_last(&shared.rings, piles, &mut taken, of_book.len() as u32);
    hand_out(alloc, shared, piles, of_book, list)?;
    list.push_reserved(Passes {
        rings: taken,
        book: pass,
    });
    Ok(())
}

/// The passes of so many workers, in the order of their numbers: of each lock one to each.
pub(crate) fn deal_out(
    alloc: Global,
    shared: &Shared,
    mut piles: Vec<Vec<Pass<Ring>>>,
    mut of_book: Vec<Pass<Book>>,
    passes: u32,
) -> Result<Vec<Passes>, AllocError>
    requires rings { AreMatched (λ pile lock. AreDealt passes pile.items lock)
        piles.items shared.now.rings.items }
    requires book { AreDealt passes of_book.items shared.now.book }
    ensures count { IfOk result (λ list. length list.items ≡ passes) }
    ensures each { IfOk result (λ list. (number : ℕ) (passes : _)
        → get_elem? list.items number ≡ some passes → AreNewPasses number passes shared.now) }
{
    let mut list = Vec::with_capacity(alloc, passes as usize)?;
    hand_out(alloc, shared, &mut piles, &mut of_book, &mut list)?;
    Ok(list)
}
