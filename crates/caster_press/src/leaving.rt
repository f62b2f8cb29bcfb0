//! Callers sit down at a press and leave it, and it is closed with the passes of all of them.
ghost use Rattle.std.specs.Prelude.{◌≡◌, ◌≤◌, ◌+◌, ◌<◌, ◌++◌, ◌∷◌, [], List, length, vec_len, vec_capacity};
ghost use Rattle.turn_log.specs.History.{History};
ghost use Rattle.turn_log.specs.Lock.{IsPassOf, pass_number, pass_seen, turn_passes, turn_value};
ghost use Rattle.caster_press.specs.declared.line.Line.{Line as LineValue};
ghost use Rattle.caster_press.specs.Lines.{text_in};
ghost use Rattle.caster_press.specs.Piles.{IsPile, IsWhole};
ghost use Rattle.caster_press.specs.Places.{IsAt, LockTold, lock_told};
ghost use Rattle.caster_press.specs.Written.{IsWritten};

use crate::place::AtPress;
use crate::press::Press;
use cast_io::Sink;
use std::sync::Wait;
use turn_log::{Pass, Played, Seat, Turn};

/// A place at the press for the caller of this pass.
pub fn sit<'a, O: Sink + Drop + Send, R: Wait + Sync>(
    rt: &'a R,
    press: &'a Turn<Press<O>>,
    pass: Pass<Press<O>>,
) -> Seat<'a, Press<O>, R>
    requires pass { IsPassOf pass press.now }
    ensures at { IsAt (pass_number pass) (⟦<Seat<'a, Press<O>, R> as AtPress>⟧.told result)
        (lock_told ⟦<Press<O> as Played>⟧.shape press.now) }
    ensures seen { (⟦<Seat<'a, Press<O>, R> as AtPress>⟧.told result).seen ≡ pass_seen pass }
{
    press.seat(rt, pass)
}

/// Gives the pass of this place back, behind those of the callers before it.
pub fn leave<'a, O: Sink + Drop + Send, R: Wait + Sync>(
    place: Seat<'a, Press<O>, R>,
    pile: &mut Vec<Pass<Press<O>>>,
)
    requires { vec_len pile.old < vec_capacity pile.old }
    ensures left { (rows : List (History LineValue)) (lock : LockTold)
        → IsAt (length rows) (⟦<Seat<'a, Press<O>, R> as AtPress>⟧.told place.entry) lock
        → IsPile rows pile.old.items lock
        → IsPile (rows ++ (⟦<Seat<'a, Press<O>, R> as AtPress>⟧.told place.entry).seen ∷ [])
        pile.new.items lock }
    ensures count { vec_len pile.new ≡ vec_len pile.old + 1 }
    ensures space { vec_capacity pile.old ≤ vec_capacity pile.new }
{
    pile.push_reserved(place.leave());
}

/// An output that a press gave back.
#[derive(Drop)]
pub struct Closed<O> {
    /// The output.
    pub sink: O,
    /// Whether a write to it failed, so that only some first part of the text was written.
    pub is_torn: bool,
}

/// Closes the press with the passes of all its callers, and gives its output back. It takes no
/// memory.
///
/// The text is that of one whole history, of which each caller's own lines are exactly those that
/// it put, in its order, and nobody else put any. It was written whole; or a write failed, and the
/// output took some first part of it.
pub fn close<O: Sink + Drop + Send>(press: Turn<Press<O>>, pile: Vec<Pass<Press<O>>>) -> Closed<O>
    requires all { length pile.items ≡ turn_passes press }
    requires pile { (rows : List (History LineValue))
        × IsPile rows pile.items (lock_told ⟦<Press<O> as Played>⟧.shape press) }
    ensures { (rows : List (History LineValue))
        → IsPile rows pile.items (lock_told ⟦<Press<O> as Played>⟧.shape press)
        → (whole : History LineValue) × IsWhole rows whole
        × IsWritten result.is_torn (⟦<Press<O> as Played>⟧.shape (turn_value press))
        (O.taken result.sink) (O.faults result.sink) (text_in whole) }
{
    let (sink, is_torn) = press.close(pile).into_parts();
    Closed { sink, is_torn }
}
