//! A lock is opened with an object, and its passes are dealt.
ghost use Rattle.std.specs.Prelude.{◌≡◌, ℕ, suc, ◌<◌, ◌≤◌, [], ◌∷◌, length, vec_capacity, IfOk, None};
ghost use mathlib.Core.Option.{some};
ghost use lib.ListN.{get_elem?};
ghost use Rattle.turn_log.specs.LockSteps.{after_deal};
ghost use Rattle.turn_log.specs.LockRule.{from, maker};
ghost use Rattle.turn_log.specs.Lock.{turn_passes, turn_value, pass_number, pass_seen, pass_worn, IsPassOf};

use super::bells::Bells;
use super::parts::{Pass, Token, Turn};
use super::plays::Deal;
use super::rule::{Held, Key};
use crate::object::Played;
use atomic_table::Table;
use std::alloc::{AllocError, Global};
use std::snapshot::Snapshot;

impl<V: Played + Drop> Turn<V> {
    /// A lock for an object that no call was made of yet, and its passes, numbered from 0.
    ///
    /// All memory is taken first. Where there is too little, nothing is left behind.
    pub fn open(alloc: Global, value: V, passes: u32) -> Result<(Turn<V>, Vec<Pass<V>>), AllocError>
        requires new { V.stands value [] }
        requires some_pass { 0 < passes }
        ensures turn { IfOk result (λ opened. (turn_passes opened.0 ≡ passes)
            × (V.shape (turn_value opened.0) ≡ V.shape value)) }
        ensures all { IfOk result (λ opened. length opened.1.items ≡ passes) }
        ensures each { IfOk result (λ opened. (i : ℕ) (pass : _)
            → get_elem? opened.1.items i ≡ some pass
            → (pass_number pass ≡ i) × (pass_seen pass ≡ []) × (pass_worn pass ≡ 0)
            × IsPassOf pass opened.0) }
    {
        let list = Vec::with_capacity(alloc, passes as usize)?;
        let (turn, first) = Turn::at_table(alloc, value, passes)?;
        let list = turn.deal_all(first, list, passes);
        Ok((turn, list))
    }

    /// A lock for an object that no call was made of yet, and the token that speaks for all its
    /// callers.
    fn at_table(alloc: Global, value: V, passes: u32) -> Result<(Turn<V>, Token<V>), AllocError>
        requires new { V.stands value [] }
        requires some_pass { 0 < passes }
        ensures turn { IfOk result (λ opened. (turn_passes opened.0 ≡ passes)
            × (turn_value opened.0 ≡ value)) }
        ensures first { IfOk result (λ opened.
            (opened.1.table_id ≡ opened.0.table.shared.table_id)
            × (opened.1.me ≡ (maker value passes, []))) }
    {
        let key = Key {
            passes,
            value: Snapshot::of(&value),
        };
        let bells = Bells::with_count(alloc, passes)?;
        let slots = lone_slot(alloc, value)?;
        match Table::new(alloc, &[0, 0], slots, &key) {
            Ok((table, first)) => Ok((Turn { table, bells }, first)),
            Err(_) => Err(AllocError),
        }
    }
}

/// The slot of a lock, with an object that no call was made of yet.
fn lone_slot<V: Played + Drop>(alloc: Global, value: V) -> Result<Vec<Held<V, V::Call>>, AllocError>
    ensures { IfOk result (λ slots. slots.items ≡ record { value = value; last = None } ∷ []) }
{
    let mut slots = Vec::with_capacity(alloc, 1)?;
    slots.push_reserved(Held { value, last: None });
    Ok(slots)
}

impl<V: Played> Turn<V> {
    /// Deals all passes into the list, which has room for them.
    fn deal_all(&self, mut first: Token<V>, mut list: Vec<Pass<V>>, passes: u32) -> Vec<Pass<V>>
        requires here { first.table_id ≡ self.now.table.shared.table_id }
        requires first { first.me ≡ (maker self.now.table.shared.key.value.value passes, []) }
        requires room { (list.items ≡ []) × (passes ≤ vec_capacity list) }
        ensures all { length result.items ≡ passes }
        ensures each { (i : ℕ) (pass : _) → get_elem? result.items i ≡ some pass
            → (pass_number pass ≡ i) × (pass_seen pass ≡ []) × (pass_worn pass ≡ 0)
            × IsPassOf pass self.now }
    {
        for number in 0..passes {
            list.push_reserved(self.deal(&mut first, number));
        }
        list
    }

    /// Deals the pass of the first number that is left.
    fn deal(&self, first: &mut Token<V>, number: u32) -> Pass<V>
        requires here { first.old.table_id ≡ self.now.table.shared.table_id }
        requires rests { first.old.me.1 ≡ [] }
        requires left { (n : ℕ) × (first.old.me.0
            ≡ record (maker self.now.table.shared.key.value.value 0) {
              numbers = from number (suc n);
            }) }
        ensures same { (first.new.table_id ≡ first.old.table_id)
            × (first.new.me ≡ (after_deal first.old.me.0, [])) }
        ensures pass { (pass_number result ≡ number) × (pass_seen result ≡ [])
            × (pass_worn result ≡ 0) × IsPassOf result self.now }
    {
        Pass {
            number,
            token: self.table.shared.split_seat::<Deal<V>>(first),
        }
    }
}
