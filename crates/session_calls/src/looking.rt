//! A look at one of several mountpoints.

ghost use Rattle.std.specs.Prelude.{◌≡◌, ◌<◌, [], ◌∷◌, length, map, IfOk, IfErr, OnErr};
ghost use Rattle.turn_log.specs.Faults.{IsFault};
ghost use Rattle.session_calls.specs.Steps.{at_ring};
ghost use Rattle.session_calls.specs.Rings.{Went, SamePlaces, AllSpeak, AllLater, IsAmong, all_alone};

use mount_ring::{Outbox, Ring, RingAnswer, RingCall};
use turn_log::{TurnFault, Turns};

/// Asks whether the mountpoint of this number is held, and under which claim: one turn of the
/// caller `me` there, which calls Look.
///
/// # Errors
/// What the place answered, Worn with the number by which it is worn; then nothing was called.
pub fn look<T: Turns<Ring>>(places: &mut [T], me: u32, mount: u32) -> Result<Option<u64>, TurnFault>
    requires within { mount < length places.old }
    requires speaks { AllSpeak T.speaks places.old me }
    ensures same { SamePlaces T.shape T.speaks T.may_lack T.alone T.home places.old places.new }
    ensures worn { AllLater (map T.worn places.old) (map T.worn places.new) }
    ensures went { IfOk result (λ live.
        Went (map T.shape places.old) (all_alone T.alone places.old)
        (map T.seen places.old) (map T.seen places.new) me
        (at_ring mount RingCall.Look (RingAnswer.Looked live) ∷ [])) }
    ensures err { OnErr result (map T.seen places.new ≡ map T.seen places.old) }
    ensures fault { IfErr result (λ fault.
        IsAmong (λ place. IsFault (T.may_lack place) (T.worn place) fault) places.new) }
{
    let mut outbox = Outbox::new();
    match places[mount as usize].turn(me, RingCall::Look, &mut outbox) {
        Ok(RingAnswer::Looked(live)) => Ok(live),
        Ok(_) => unreachable!(),
        Err(fault) => Err(fault),
    }
}
