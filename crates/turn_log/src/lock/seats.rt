//! A thread sits down at the lock with a pass, takes turns, and gets the pass back.
ghost use Rattle.std.specs.Prelude.{◌≡◌, ℕ, ◌==◌, ◌≤◌, false, IsTrue, IfOk, IfErr};
ghost use Rattle.turn_log.specs.Faults.{IsFault};
ghost use Rattle.turn_log.specs.Turn.{Turned};
ghost use Rattle.turn_log.specs.Lock.{turn_value, turn_home, pass_number, pass_seen, pass_worn, pass_home, HasShape, IsPassOf};

use super::parts::{Pass, Seat, Turn};
use crate::object::Played;
use crate::place::{TurnFault, Turns};
use std::sync::Wait;

impl<V: Played> Turn<V> {
    /// A place at the lock, for the caller number of this pass.
    pub fn seat<'a, R: Wait + Sync>(&'a self, rt: &'a R, pass: Pass<V>) -> Seat<'a, V, R>
        requires { IsPassOf pass self.now }
        ensures seen { ⟦<Seat<'a, V, R> as Turns<V>>⟧.seen result ≡ pass_seen pass }
        ensures shape { ⟦<Seat<'a, V, R> as Turns<V>>⟧.shape result
            ≡ V.shape (turn_value self.now) }
        ensures speaks { (k : ℕ) → ⟦<Seat<'a, V, R> as Turns<V>>⟧.speaks result k
            ≡ (k == pass_number pass) }
        ensures worn { ⟦<Seat<'a, V, R> as Turns<V>>⟧.worn result ≡ pass_worn pass }
        ensures home { ⟦<Seat<'a, V, R> as Turns<V>>⟧.home result ≡ turn_home self.now }
    {
        Seat {
            turn: self,
            rt,
            pass,
        }
    }
}

impl<V: Played> Pass<V> {
    /// Takes a turn at the lock that the pass is of.
    fn turn_at<R: Wait>(
        &mut self,
        turn: &Turn<V>,
        rt: &R,
        me: u32,
        call: V::Call,
        room: &mut V::Room,
    ) -> Result<V::Answer, TurnFault>
        requires here { self.old.token.table_id ≡ turn.now.table.shared.table_id }
        requires me { me ≡ self.old.number }
        requires fits { (value : V) → self.old.token.me.0.about ≡ Some value
            → IsTrue (V.fits (V.shape value) self.old.token.me.0.seen me call) }
        ensures same { (self.new.number ≡ self.old.number)
            × (self.new.token.table_id ≡ self.old.token.table_id)
            × (self.new.token.me.0.about ≡ self.old.token.me.0.about) }
        ensures worn { self.old.token.me.0.worn ≤ self.new.token.me.0.worn }
        ensures ok { IfOk result (λ reply. (value : V) → self.old.token.me.0.about ≡ Some value
            → Turned false (V.fits (V.shape value)) (V.answer (V.shape value))
            (V.filled (V.shape value)) self.old.token.me.0.seen self.new.token.me.0.seen me call
            reply room.old room.new) }
        ensures err { IfErr result (λ fault. (self.new.token.me.0.seen ≡ self.old.token.me.0.seen)
            × (room.new ≡ room.old) × IsFault false self.new.token.me.0.worn fault) }
    {
        match turn.take_turn(rt, &mut self.token, me, call, room) {
            Ok(answer) => Ok(answer),
            Err(turns) => Err(TurnFault::Worn { turns }),
        }
    }
}

impl<'a, V: Played, R: Wait + Sync> Seat<'a, V, R> {
    /// Gives the pass back.
    pub fn leave(self) -> Pass<V>
        ensures number { (k : ℕ) → ⟦<Seat<'a, V, R> as Turns<V>>⟧.speaks self.entry k
            ≡ (k == pass_number result) }
        ensures seen { pass_seen result ≡ ⟦<Seat<'a, V, R> as Turns<V>>⟧.seen self.entry }
        ensures worn { pass_worn result ≡ ⟦<Seat<'a, V, R> as Turns<V>>⟧.worn self.entry }
        ensures home { pass_home result ≡ ⟦<Seat<'a, V, R> as Turns<V>>⟧.home self.entry }
        ensures shape { HasShape result (⟦<Seat<'a, V, R> as Turns<V>>⟧.shape self.entry) }
    {
        let Seat {
            turn: _,
            rt: _,
            pass,
        } = self;
        pass
    }
}

/// A place at a lock, as code knows it that is generic in its places: it gives its pass back.
pub trait Leaves<V: Played>: Turns<V> {
    /// Gives the pass back: of the same lock, for the same caller, with all that the place has
    /// seen.
    fn give_back(self) -> Pass<V>
        ensures number { (k : ℕ) → Self.speaks self k ≡ (k == pass_number result) }
        ensures seen { pass_seen result ≡ Self.seen self }
        ensures worn { pass_worn result ≡ Self.worn self }
        ensures home { pass_home result ≡ Self.home self }
        ensures shape { HasShape result (Self.shape self) };
}

impl<'a, V: Played, R: Wait + Sync> Leaves<V> for Seat<'a, V, R> {
    fn give_back(self) -> Pass<V> {
        let Seat {
            turn: _,
            rt: _,
            pass,
        } = self;
        pass
    }
}

impl<'a, V: Played, R: Wait + Sync> Turns<V> for Seat<'a, V, R> {
    ghost use Rattle.std.specs.Prelude.{◌==◌, false, unwrap_or};
    ghost use Rattle.atomic_table.specs.Seated.{table_id_coded};
    ghost use Rattle.turn_log.specs.LockNames.{some_is};

    ghost seen = { λ seat. seat.pass.token.me.0.seen };

    ghost shape = { λ seat. V.shape
        (unwrap_or seat.pass.token.me.0.about seat.turn.now.table.shared.key.value.value) };

    ghost speaks = { λ seat k. k == seat.pass.number };

    ghost may_lack = { λ seat. false };

    ghost alone = { λ seat. false };

    ghost worn = { λ seat. seat.pass.token.me.0.worn };

    ghost home = { λ seat. table_id_coded.code seat.pass.token.table_id };

    fn turn(&mut self, me: u32, call: V::Call, room: &mut V::Room) -> Result<V::Answer, TurnFault> {
        let turn = self.turn;
        let rt = self.rt;
        let pass = &mut self.pass;
        pass.turn_at(turn, rt, me, call, room)
    }

    ghost legal = { λ seat. seat.pass.legal
        (unwrap_or seat.pass.token.me.0.about seat.turn.now.table.shared.key.value.value)
        (some_is seat.pass.token.me.0.about seat.turn.now.table.shared.key.value.value
        seat.pass.about) };
}
