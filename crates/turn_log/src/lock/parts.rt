//! What the lock is made of, as its callers hold it.
ghost use Rattle.std.specs.Prelude.{◌≡◌, ◌<◌, IsTrue, [], ◌∷◌, length, is_some, Some};
ghost use Rattle.turn_log.specs.declared.lock.rule.SeatStage.TheVariants.{Idle};
ghost use Rattle.turn_log.specs.History.{IsLegal};
ghost use Rattle.turn_log.specs.LockNames.{table_id_set};

use super::bells::Bells;
use super::rule::{Fair, Held, Key, Known};
use crate::object::Played;
use atomic_table::Table;
use std::alloc::Global;
use std::sync::Wait;

/// A token at the lock's table: what its holder knows, and the object while it is lent.
pub type Token<V> = atomic_table::Seat<Held<V, <V as Played>::Call>, Known<<V as Played>::Call, V>>;

/// An object that many threads take turns on. It was opened with a number of passes, and each
/// turn is taken through a seat that one of them was given.
#[derive(Drop)]
pub struct Turn<V: Played> {
    pub(super) table: Table<Held<V, V::Call>, Known<V::Call, V>, Key<V>, Fair<V>, Global>,
    // Where callers sleep while they wait.
    pub(super) bells: Bells,
    // Two words, ticket and serving, and one slot, the object's.
    ghost sized: { (table.shared.table_id.words ≡ 2) × (table.shared.table_id.slots ≡ 1) },
    ghost some_pass: { 0 < table.shared.key.passes },
}

/// The right to take turns under one caller number. A thread has it while it sits at the lock.
#[derive(Drop)]
pub struct Pass<V: Played> {
    pub(super) number: u32,
    pub(super) token: Token<V>,
    ghost rests: { (token.me.0.stage ≡ Idle) × (length token.me.1 ≡ 0) },
    ghost numbered: { (token.me.0.numbers ≡ number ∷ []) × (length token.me.0.brought ≡ 0) },
    ghost about: { IsTrue (is_some token.me.0.about) },
    // Each call that was seen fitted when it was made.
    ghost legal: { (v : V) → token.me.0.about ≡ Some v
        → IsLegal (V.fits (V.shape v)) token.me.0.seen },
}

/// What a pass had seen when the note was written. Another pass that meets it has seen it too.
#[derive(Drop)]
pub struct Note<V: Played> {
    pub(super) token: Token<V>,
    ghost rests: { (token.me.0.stage ≡ Idle) × (length token.me.1 ≡ 0) },
    ghost mute: { (length token.me.0.numbers ≡ 0) × (length token.me.0.brought ≡ 0) },
    ghost unworn: { token.me.0.worn ≡ 0 },
}

/// A place at the lock, for the caller number of its pass.
#[derive(Drop)]
pub struct Seat<'a, V: Played, R: Wait + Sync> {
    pub(super) turn: &'a Turn<V>,
    pub(super) rt: &'a R,
    pub(super) pass: Pass<V>,
    ghost here: { pass.token.table_id ≡ turn.now.table.shared.table_id } by { table_id_set _ _ },
}
