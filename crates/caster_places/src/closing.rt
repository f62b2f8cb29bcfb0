//! The locks are closed, with all passes of their callers.

ghost use Rattle.std.specs.Prelude.{◌≡◌, ℕ, ◌+◌, ◌^◌, ◌<◌, ◌≤◌, ◌++◌, List, length, map, vec_len, vec_capacity};
ghost use Rattle.std.specs.List.{All};
ghost use Rattle.turn_log.specs.History.{History, IsLegal};
ghost use Rattle.turn_log.specs.Lock.{turn_passes, turn_value};
ghost use Rattle.mount_ring.specs.declared.call.RingCall.{RingCall};
ghost use Rattle.mount_ring.specs.Kept.{ring_shape};
ghost use Rattle.caster_accounts.specs.declared.call.BookCall.{BookCall};
ghost use Rattle.caster_accounts.specs.History.{fits};
ghost use Rattle.caster_accounts.specs.Kept.{caps_of};
ghost use Rattle.caster_accounts.specs.Sums.{nothing, total_of_all};
ghost use Rattle.cast_config.specs.Kept.{KeepsRules};
ghost use Rattle.session_model.specs.Reports.{added, closed_of, mount_total, sums_from};
ghost use Rattle.session_model.specs.Run.{Histories};
ghost use Rattle.session_model.specs.Setting.{caps, shapes};
ghost use Rattle.caster_places.specs.Piles.{AreAllOf, AreMatched, HasAllOf};
ghost use Rattle.caster_places.specs.Rows.{ArePiles, AreWhole, AreWornWithin, IsRoomFor, left_by};

use crate::pass_piles::PassPiles;
use crate::totals::Totals;
use cast_config::{Account, Config};
use caster_accounts::{Book, Sum};
use mount_ring::Ring;
use session_core::{Closed, MountTotal, MountTotals, Sums};
use turn_log::{Pass, Played, Turn};

/// Closes the lock of a ring, and gives the totals of its mountpoint.
fn close_ring(lock: Turn<Ring>, pile: Vec<Pass<Ring>>) -> MountTotal
    requires all { AreAllOf pile.items lock }
    ensures { (whole : History RingCall) × (result ≡ mount_total whole)
        × HasAllOf pile.items whole }
{
    let ring = lock.close(pile);
    MountTotal {
        published: ring.published(),
        claims: ring.claims(),
    }
}

/// Closes the locks of the rings, and gives the totals of each mountpoint, in their order.
fn close_rings(locks: Vec<Turn<Ring>>, piles: Vec<Vec<Pass<Ring>>>, totals: &mut Vec<MountTotal>)
    requires all { AreMatched (λ pile lock. AreAllOf pile.items lock) piles.items locks.items }
    requires room { vec_len totals.old + length locks.items ≤ vec_capacity totals.old }
    ensures closed { (wholes : List (History RingCall))
        × (totals.new.items ≡ totals.old.items ++ map mount_total wholes)
        × AreMatched (λ pile whole. HasAllOf pile.items whole) piles.items wholes }
    ensures space { (vec_capacity totals.old ≤ vec_capacity totals.new)
        × (vec_len totals.new ≡ vec_len totals.old + length locks.items) }
{
    let mut locks = locks.into_iter();
    let mut piles = piles.into_iter();
    while let Some(lock) = locks.next() {
        let Some(pile) = piles.next() else {
            unreachable!()
        };
        totals.push_reserved(close_ring(lock, pile));
    }
    locks.destroy_empty();
    piles.destroy_empty();
}

/// The totals of the named accounts, which are numbered from 1.
fn sum_up(book: &Book, accounts: &[Account], sums: &mut Vec<Sum>)
    requires accounts { length accounts.now < length (caps_of book.now) }
    requires few { length accounts.now < 2 ^ 31 }
    requires room { vec_len sums.old + length accounts.now ≤ vec_capacity sums.old }
    ensures { (h : Histories) → ⟦<Book as Played>⟧.stands book.now h.book
        → sums.new.items ≡ sums.old.items ++ sums_from 1 h accounts.now }
{
    for number in 0..accounts.len() {
        sums.push_reserved(book.total(number as u32 + 1));
    }
}

/// Closes the lock of the book, and gives the totals of the named accounts and of all accounts.
fn close_book(
    lock: Turn<Book>,
    pile: Vec<Pass<Book>>,
    accounts: &[Account],
    sums: &mut Vec<Sum>,
) -> Sum
    requires all { AreAllOf pile.items lock }
    requires accounts { length accounts.now < length (caps_of (turn_value lock)) }
    requires few { length accounts.now < 2 ^ 31 }
    requires room { vec_len sums.old + length accounts.now ≤ vec_capacity sums.old }
    ensures closed { (whole : History BookCall) × HasAllOf pile.items whole
        × ((h : Histories) → h.book ≡ whole
        → (sums.new.items ≡ sums.old.items ++ sums_from 1 h accounts.now)
        × (result ≡ total_of_all whole)) }
{
    let book = lock.close(pile);
    sum_up(&book, accounts, sums);
    book.total_of_all()
}

/// Closes all locks of a caster of this configuration with the passes of all its callers, and tells
/// what it came to. It takes no memory.
///
/// There is one whole history of each lock, of which each caller has seen a beginning. Nobody else
/// called anything, and no caller called anything after what it has seen. By these histories the
/// mountpoints and the accounts are told, and the sums of all accounts are those of the callers.
/// Where a caller met a lock worn by so many turns, the history of the lock has as many calls.
pub fn close(
    config: &Config,
    rings: Vec<Turn<Ring>>,
    book: Turn<Book>,
    piles: PassPiles,
    totals: Totals,
) -> Closed
    requires kept { (cap : ℕ) × KeepsRules cap config.now }
    requires shapes { map (λ lock. ring_shape (turn_value lock)) rings.items ≡ shapes config.now }
    requires caps { caps_of (turn_value book) ≡ caps config.now }
    requires rings { All (λ lock. turn_passes lock ≡ length piles.book.items) rings.items }
    requires book { turn_passes book ≡ length piles.book.items }
    requires rows { (rows : List Histories) × ArePiles rows piles rings.items book }
    requires room { IsRoomFor config.now totals }
    ensures { (rows : List Histories) → ArePiles rows piles rings.items book
        → All (λ row. IsLegal (fits (caps config.now)) row.book) rows
        → (whole : Histories) × AreWhole rows whole (length config.now.mount)
        × (result ≡ closed_of config.now whole)
        × (result.total ≡ added nothing (left_by 0 rows))
        × AreWornWithin (map length whole.rings) (length whole.book) piles }
{
    let Totals {
        mut mounts,
        mut accounts,
    } = totals;
    let PassPiles {
        rings: of_rings,
        book: of_book,
    } = piles;
    close_rings(rings, of_rings, &mut mounts);
    let total = close_book(book, of_book, config.account.as_slice(), &mut accounts);
    Closed {
        mounts: MountTotals::new(mounts),
        accounts: Sums::new(accounts),
        total,
    }
}
