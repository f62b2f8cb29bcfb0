//! Of `turn_log`: turns on one object.
ghost use Rattle.std.specs.Prelude.{◌≡◌, ◌+◌, ◌<◌, length, IfOk, IsTrue};

use crate::counter::Counter;
use turn_log::{TurnFault, Turns};

/// Two turns of one caller, at a desk of one thread or at a seat of a lock.
pub fn count_twice<T: Turns<Counter>>(place: &mut T, me: u32) -> Result<u64, TurnFault>
    requires { IsTrue (T.speaks place.old me) }
    ensures last { IfOk result (λ count. length (T.seen place.new) ≡ count + 1) }
    ensures later { IfOk result (λ count. length (T.seen place.old) < count) }
    ensures alone { IfOk result (λ count. IsTrue (T.alone place.old)
        → count ≡ length (T.seen place.old) + 1) }
{
    place.turn(me, (), &mut ())?;
    place.turn(me, (), &mut ())
}
