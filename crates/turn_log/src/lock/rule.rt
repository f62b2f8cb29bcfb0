//! What the lock's table holds, and its rule.
use crate::object::Played;
use atomic_table::TableRule;
use std::collections::LinkedList;
use std::marker::PhantomData;
use std::snapshot::Snapshot;

/// Where a seat is in its turn.
pub enum SeatStage {
    /// It takes no turn now.
    Idle,
    /// It may draw a ticket.
    Cleared,
    /// It has this ticket and waits.
    Waiting(u64),
    /// It has this ticket, it is being served, and the object is lent to it.
    AtTurn(u64),
}

/// What a seat at the table knows. Clauses alone speak of it: no value of it is made.
pub struct Known<C, V> {
    /// The object as it was when the lock was opened.
    pub about: Option<V>,
    /// The callers that the seat speaks for.
    pub numbers: LinkedList<u32>,
    /// The history as the seat has seen it.
    pub seen: LinkedList<(u32, C)>,
    /// The callers of a seat that was taken in, and what that seat had seen.
    pub brought: LinkedList<u32>,
    pub told: LinkedList<(u32, C)>,
    pub stage: SeatStage,
    /// The last count of tickets of 2 ^ 62 or more that the seat met, or 0.
    pub worn: u64,
}

/// What the lock's slot holds: the object, and the last call that was made of it.
#[derive(Drop)]
pub struct Held<V, C> {
    pub value: V,
    pub last: Option<(u32, C)>,
}

/// What the lock is told once: how many passes there are, and the object as it was then.
#[derive(Drop)]
pub struct Key<V> {
    pub passes: u32,
    pub value: Snapshot<V>,
}

/// The rule of the lock of objects V.
pub struct Fair<V> {
    of: PhantomData<V>,
}

impl<V: Played> TableRule<Held<V, V::Call>, Known<V::Call, V>, Key<V>> for Fair<V> {
    ghost use Rattle.turn_log.specs.LockRule.{Kept, maker};

    ghost holds = { λ key. Kept key.passes V.stands V.shape V.fits (V.shape key.value.value) };

    ghost first = { λ key. maker key.value.value key.passes };
}
