ghost use Rattle.std.specs.Prelude.{◌≡◌, ℕ, ◌≤◌, Bool, IsTrue, IfOk, IfErr};
ghost use Rattle.turn_log.specs.History.{History, IsLegal};
ghost use Rattle.turn_log.specs.Turn.{SamePlace, Turned};
ghost use base.Stored.{Gv};

use crate::object::Played;
use thiserror::Error;

/// How many turns a desk gives, and for how many a ticket may be drawn at a lock. At a lock each
/// of the callers that look at the same time may still draw one more.
pub const MAX_TURNS: u64 = 1 << 62;

/// Why a place refused a turn. The call was not made: history and room are as before.
#[derive(Clone, Copy, Debug, PartialEq, Eq, Error)]
pub enum TurnFault {
    /// The place is worn by `turns` turns, at least 2^62: those that a desk gave, or those for
    /// which a ticket was drawn at the lock of a seat, whether they were taken yet or not.
    #[error("worn by {turns} turns given or drawn for")]
    Worn { turns: u64 },
    /// No memory for the turn. Desks and seats take none, and never answer this.
    #[error("out of memory")]
    Memory,
}

/// A place that gives turns on one object: a `Desk` of one thread, or a seat at an object that
/// threads share.
pub trait Turns<V: Played> {
    ghost use Rattle.turn_log.specs.Faults.{IsFault};

    /// The history so far, as this place knows it.
    ghost seen: { Self → History V.Call };

    /// The shape of the place's object.
    ghost shape: { Self → V.Shape };

    /// The callers that the place speaks for.
    ghost speaks: { Self → ℕ → Bool };

    /// The place may answer Memory.
    ghost may_lack: { Self → Bool };

    /// Nobody else takes turns on the object: all that is in the history came through this place.
    ghost alone: { Self → Bool };

    /// The largest number of turns of 2 ^ 62 or more that the place met, or 0. A desk counts the
    /// turns that it gave, and a seat the tickets that were drawn at its lock.
    ghost worn: { Self → ℕ };

    /// Which object this is: a seat is given back to the object that it came from.
    ghost home: { Self → Gv };

    /// Makes one call of the caller `me`, after all calls that came before.
    ///
    /// After a refusal nothing was called. A shared place waits for the callers before it.
    fn turn(&mut self, me: u32, call: V::Call, room: &mut V::Room) -> Result<V::Answer, TurnFault>
        requires speaks { IsTrue (speaks self.old me) }
        requires fits { IsTrue (V.fits (shape self.old) (seen self.old) me call) }

        // A turn changes what was seen and how worn the place is, and nothing else.
        ensures same { SamePlace shape speaks may_lack alone home self.old self.new }
        ensures worn { worn self.old ≤ worn self.new }
        ensures ok { IfOk result (λ reply.
            Turned (alone self.old) (V.fits (shape self.old)) (V.answer (shape self.old))
            (V.filled (shape self.old)) (seen self.old) (seen self.new) me call reply
            room.old room.new) }
        ensures err { IfErr result (λ fault.
            (seen self.new ≡ seen self.old) × (room.new ≡ room.old)
            × IsFault (may_lack self.old) (worn self.new) fault) };

    /// At every moment each entry of the history fits those before it.
    ghost legal: { (place : Self) → IsLegal (V.fits (shape place)) (seen place) };
}
