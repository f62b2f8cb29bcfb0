//! What one pass has seen is told to another.
ghost use Rattle.std.specs.Prelude.{◌≡◌, []};
ghost use Rattle.turn_log.specs.declared.lock.rule.SeatStage.TheVariants.{Idle};
ghost use Rattle.turn_log.specs.History.{GoesOn};
ghost use Rattle.turn_log.specs.LockRule.{Begins};
ghost use Rattle.turn_log.specs.LockSteps.{met, settles};
ghost use Rattle.turn_log.specs.Lock.{pass_number, pass_seen, IsPassOf, SamePass, note_seen, IsNoteOf};

use super::parts::{Note, Pass, Token, Turn};
use super::plays::{Meet, Settle, Write};
use super::steps::SERVING;
use crate::object::Played;

impl<V: Played> Turn<V> {
    /// Writes down what the pass has seen, for another pass to meet.
    pub fn note(&self, pass: &mut Pass<V>) -> Note<V>
        requires { IsPassOf pass.old self.now }
        ensures same { SamePass pass.old pass.new }
        ensures seen { pass_seen pass.new ≡ pass_seen pass.old }
        ensures copied { note_seen result ≡ pass_seen pass.old }
        ensures here { IsNoteOf result self.now }
    {
        Note {
            token: self.table.shared.split_seat::<Write<V>>(&mut pass.token),
        }
    }

    /// From now on the pass has seen all that the note's writer had seen.
    pub fn meet(&self, pass: &mut Pass<V>, note: Note<V>)
        requires pass { IsPassOf pass.old self.now }
        requires note { IsNoteOf note self.now }
        ensures same { SamePass pass.old pass.new }
        ensures seen { GoesOn (pass_number pass.old) (pass_seen pass.old) (pass_seen pass.new) }
        ensures told { Begins (note_seen note) (pass_seen pass.new) }
    {
        let Note { token } = note;
        self.take_in(&mut pass.token, token);
    }

    /// The token has seen what the other has seen too, and speaks for its callers.
    pub(super) fn take_in(&self, token: &mut Token<V>, other: Token<V>)
        requires here { (token.old.table_id ≡ self.now.table.shared.table_id)
            × (other.table_id ≡ self.now.table.shared.table_id) }
        requires rests { (token.old.me.0.stage ≡ Idle) × (other.me.0.stage ≡ Idle)
            × (other.me.1 ≡ []) }
        ensures same { token.new.table_id ≡ token.old.table_id }
        ensures taken { settles V.shape V.fits (met token.old.me.0 other.me.0, token.old.me.1)
            token.new.me }
    {
        self.table.shared.join_seat::<Meet<V>>(token, other);
        self.table.shared.load::<Settle<V>>(token, SERVING);
    }
}
