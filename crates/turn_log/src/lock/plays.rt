//! What each step at the lock's table tells. These types are for the proofs alone.
use super::rule::{Held, Known};
use crate::object::Played;
use atomic_table::{Join, Play, Split};
use std::marker::PhantomData;

/// A load of the ticket word: the seat may draw, or the lock is worn.
pub struct Clear<V> {
    of: PhantomData<V>,
}

impl<V: Played> Play<Held<V, V::Call>, Known<V::Call, V>> for Clear<V> {
    ghost use Rattle.turn_log.specs.LockSteps.{clears};

    ghost then = { λ _. clears };
}

/// An increment of the ticket word: the seat gets the old word as its ticket.
pub struct Draw<V> {
    of: PhantomData<V>,
}

impl<V: Played> Play<Held<V, V::Call>, Known<V::Call, V>> for Draw<V> {
    ghost use Rattle.turn_log.specs.LockSteps.{draws};

    ghost then = { λ _. draws };
}

/// A load of the serving word: where it is the seat's ticket, the object is lent to the seat.
pub struct Look<V> {
    of: PhantomData<V>,
}

impl<V: Played> Play<Held<V, V::Call>, Known<V::Call, V>> for Look<V> {
    ghost use Rattle.turn_log.specs.LockSteps.{looks};

    ghost then = { λ _. looks V.stands V.shape V.fits };
}

/// An increment of the serving word: the seat gives the object back, and the history has one
/// entry more.
pub struct Advance<V> {
    of: PhantomData<V>,
}

impl<V: Played> Play<Held<V, V::Call>, Known<V::Call, V>> for Advance<V> {
    ghost use Rattle.turn_log.specs.LockSteps.{advances};

    ghost then = { λ _ me _. advances me };
}

/// A load of the serving word after a seat was taken in: the longer history is seen.
pub struct Settle<V> {
    of: PhantomData<V>,
}

impl<V: Played> Play<Held<V, V::Call>, Known<V::Call, V>> for Settle<V> {
    ghost use Rattle.turn_log.specs.LockSteps.{settles};

    ghost then = { λ _ me _. settles V.shape V.fits me };
}

/// Cuts off a pass: it gets the first number that is left.
pub struct Deal<V> {
    of: PhantomData<V>,
}

impl<V: Played> Split<Known<V::Call, V>> for Deal<V> {
    ghost use Rattle.turn_log.specs.LockSteps.{dealt, after_deal};

    ghost left = { after_deal };

    ghost right = { dealt };
}

/// Cuts off a note: it has seen the same, and speaks for nobody.
pub struct Write<V> {
    of: PhantomData<V>,
}

impl<V: Played> Split<Known<V::Call, V>> for Write<V> {
    ghost use Rattle.turn_log.specs.LockSteps.{noted};

    ghost left = { λ view. view };

    ghost right = { noted };
}

/// Takes in a note or a pass.
pub struct Meet<V> {
    of: PhantomData<V>,
}

impl<V: Played> Join<Known<V::Call, V>> for Meet<V> {
    ghost use Rattle.turn_log.specs.LockSteps.{met, spent};

    ghost both = { met };

    ghost spent = { spent };
}
