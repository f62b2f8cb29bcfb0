//! A lock is closed with all its passes, and the object comes back.
ghost use Rattle.std.specs.Prelude.{◌≡◌, ℕ, ◌<◌, ◌≤◌, ◌+◌, [], length, All};
ghost use mathlib.Core.Option.{some};
ghost use lib.ListN.{get_elem?};
ghost use Rattle.turn_log.specs.declared.lock.rule.SeatStage.TheVariants.{Idle};
ghost use Rattle.turn_log.specs.History.{History, GoesOn};
ghost use Rattle.turn_log.specs.LockRule.{times};
ghost use Rattle.turn_log.specs.Lock.{turn_passes, turn_value, pass_number, pass_seen, pass_worn, IsPassOf};

use super::parts::{Pass, Token, Turn};
use super::rule::Held;
use super::steps::OBJECT;
use crate::object::Played;

impl<V: Played> Turn<V> {
    /// Ends the lock, and gives the object back. It takes no memory.
    ///
    /// The object stands for one history that each pass has seen a beginning of. A pass has seen
    /// all calls under its own number, and there are no calls but of the passes' numbers. Where a
    /// pass met so many turns that the lock was worn, as many calls were made in the end.
    pub fn close(self, mut passes: Vec<Pass<V>>) -> V
        requires here { (i : ℕ) (pass : _) → get_elem? passes.items i ≡ some pass
            → IsPassOf pass self }
        requires all { length passes.items ≡ turn_passes self }
        ensures shape { V.shape result ≡ V.shape (turn_value self) }
        ensures whole { (whole : History V.Call) × V.stands result whole
            × All (λ entry. entry.0 < turn_passes self) whole
            × ((i : ℕ) (pass : _) → get_elem? passes.items i ≡ some pass
            → GoesOn (pass_number pass) (pass_seen pass) whole)
            × ((i : ℕ) (pass : _) → get_elem? passes.items i ≡ some pass
            → pass_worn pass ≤ length whole) }
    {
        let Some(last) = passes.pop() else {
            unreachable!()
        };
        let Pass {
            number: _,
            mut token,
        } = last;
        self.take_in_all(&mut token, &mut passes);
        passes.destroy_empty();
        let Turn { table, bells: _ } = self;
        let mut closed = table.close_with(token);
        let Held { value, last: _ } = closed.take(OBJECT);
        closed.free();
        value
    }

    /// Takes in all passes of the list, from the last to the first.
    fn take_in_all(&self, token: &mut Token<V>, passes: &mut Vec<Pass<V>>)
        requires here { token.old.table_id ≡ self.now.table.shared.table_id }
        requires rests { (token.old.me.0.stage ≡ Idle) × (token.old.me.0.brought ≡ []) }
        requires each { (i : ℕ) (pass : _) → get_elem? passes.old.items i ≡ some pass
            → IsPassOf pass self.now }
        ensures none_left { passes.new.items ≡ [] }
        ensures same { (token.new.table_id ≡ token.old.table_id) × (token.new.me.0.stage ≡ Idle) }
        ensures numbers { length token.new.me.0.numbers
            ≡ length token.old.me.0.numbers + length passes.old.items }
        ensures own { (k : ℕ) → 0 < times k token.old.me.0.numbers
            → (0 < times k token.new.me.0.numbers)
            × GoesOn k token.old.me.0.seen token.new.me.0.seen }
        ensures taken { (i : ℕ) (pass : _) → get_elem? passes.old.items i ≡ some pass
            → (0 < times (pass_number pass) token.new.me.0.numbers)
            × GoesOn (pass_number pass) (pass_seen pass) token.new.me.0.seen }
        ensures worn { (token.old.me.0.worn ≤ token.new.me.0.worn)
            × ((i : ℕ) (pass : _) → get_elem? passes.old.items i ≡ some pass
            → pass_worn pass ≤ token.new.me.0.worn) }
    {
        while let Some(pass) = passes.pop() {
            let Pass {
                number: _,
                token: other,
            } = pass;
            self.take_in(token, other);
        }
    }
}
