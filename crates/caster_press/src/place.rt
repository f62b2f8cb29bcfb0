//! Places of callers at a press.
ghost use Rattle.std.specs.Prelude.{IsTrue};
ghost use Rattle.caster_press.specs.Places.{HasPut, IsSamePlace};

use crate::line::Line;
use crate::press::Press;
use cast_io::Sink;
use std::sync::Wait;
use turn_log::{Seat, TurnFault, Turns};

/// A caller's place at a press, as code knows it that is generic in its places.
pub trait AtPress {
    ghost use Rattle.std.specs.Prelude.{IsTrue, [], ◌∷◌};
    ghost use Rattle.caster_press.specs.Places.{HasPut, IsSamePlace, PlaceTold};

    /// What is told of it.
    ghost told: { Self → PlaceTold };

    /// Puts the line, behind all lines that were put before it. It takes no memory.
    ///
    /// A line that was put is written, but where a write failed before it or at it. Where the lock
    /// of the press is worn by 2^62 lines, this waits for ever.
    fn put<R: WaitsAtEnd>(&mut self, rt: &R, me: u32, line: &Line)
        requires { IsTrue ((told self.old).speaks me) }
        ensures same { IsSamePlace (told self.old) (told self.new) }
        ensures put { HasPut me (line.now ∷ []) (told self.old).seen (told self.new).seen };
}

/// Who can wait for ever, but only where the lock of a press is worn. Code that has no more than this
/// of its host puts each line, or can show that no more lines are taken.
pub trait WaitsAtEnd {
    ghost use Rattle.std.specs.Prelude.{◌^◌, ◌≤◌};

    /// Waits for ever at a lock of a press that gave 2^62 turns.
    fn wait_at_end<'a, O: Sink + Drop + Send, R: Wait + Sync>(&self, place: &Seat<'a, Press<O>, R>)
        requires worn { 2 ^ 62 ≤ ⟦<Seat<'a, Press<O>, R> as Turns<Press<O>>>⟧.worn place.now }
        ensures never { ⊥ };
}

impl<Q: Wait> WaitsAtEnd for Q {
    fn wait_at_end<'a, O: Sink + Drop + Send, R: Wait + Sync>(
        &self,
        place: &Seat<'a, Press<O>, R>,
    ) {
        for _ in self.forever() {}
        unreachable!()
    }
}

impl<'a, O: Sink + Drop + Send, R: Wait + Sync> AtPress for Seat<'a, Press<O>, R> {
    ghost told = { λ seat. record {
      speaks = ⟦<Seat<'a, Press<O>, R> as Turns<Press<O>>>⟧.speaks seat;
      home = ⟦<Seat<'a, Press<O>, R> as Turns<Press<O>>>⟧.home seat;
      start = ⟦<Seat<'a, Press<O>, R> as Turns<Press<O>>>⟧.shape seat;
      seen = ⟦<Seat<'a, Press<O>, R> as Turns<Press<O>>>⟧.seen seat;
    } };

    fn put<Q: WaitsAtEnd>(&mut self, rt: &Q, me: u32, line: &Line) {
        match self.turn(me, *line, &mut ()) {
            Ok(()) => {}
            Err(TurnFault::Worn { .. }) => rt.wait_at_end(self),
            Err(TurnFault::Memory) => unreachable!(),
        }
    }
}

/// Puts these lines, in order.
pub fn put_all<P: AtPress, R: WaitsAtEnd>(rt: &R, place: &mut P, me: u32, lines: &[Line])
    requires { IsTrue ((P.told place.old).speaks me) }
    ensures same { IsSamePlace (P.told place.old) (P.told place.new) }
    ensures put { HasPut me lines.now (P.told place.old).seen (P.told place.new).seen }
{
    for line in lines {
        place.put(rt, me, line);
    }
}
