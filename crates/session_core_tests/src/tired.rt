//! A place that refuses one turn.

ghost use Rattle.std.specs.Prelude.{◌≡◌, ◌^◌, ◌≤◌};

use turn_log::{Played, TurnFault, Turns};

/// A place that refuses one turn, as if it were worn, and gives all others.
#[derive(Drop)]
pub struct Tired<T> {
    place: T,
    taken: u64,
    refused: u64,
    worn: u64,
    // It is worn by so many turns as a place is that refuses one.
    ghost many: { 2 ^ 62 ≤ worn },
}

impl<T> Tired<T> {
    /// Refuses the turn of this number, counted from 0, as worn by so many turns, 2^62 at least.
    pub fn new(place: T, refused: u64, worn: u64) -> Tired<T>
        requires { 2 ^ 62 ≤ worn }
        ensures { result.place ≡ place }
    {
        Tired {
            place,
            taken: 0,
            refused,
            worn,
        }
    }
}

impl<V: Played, T: Turns<V>> Turns<V> for Tired<T> {
    ghost seen = { λ tired. T.seen tired.place };

    ghost shape = { λ tired. T.shape tired.place };

    ghost speaks = { λ tired me. T.speaks tired.place me };

    ghost may_lack = { λ tired. T.may_lack tired.place };

    ghost alone = { λ tired. T.alone tired.place };

    ghost worn = { λ tired. tired.worn };

    ghost home = { λ tired. T.home tired.place };

    fn turn(&mut self, me: u32, call: V::Call, room: &mut V::Room) -> Result<V::Answer, TurnFault> {
        let taken = self.taken;
        self.taken = taken.saturating_add(1);
        if taken == self.refused {
            return Err(TurnFault::Worn { turns: self.worn });
        }
        match self.place.turn(me, call, room) {
            Ok(answer) => Ok(answer),
            Err(_) => Err(TurnFault::Worn { turns: self.worn }),
        }
    }

    ghost legal = { λ tired. T.legal tired.place };
}
