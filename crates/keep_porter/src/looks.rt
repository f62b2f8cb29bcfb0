//! The porter looks at the mountpoints.

ghost use Rattle.std.specs.Prelude.{◌≡◌, ◌<◌, [], ◌∷◌, length, map, IfErr, IfOk, None, OnErr};
ghost use Rattle.turn_log.specs.Faults.{IsFault};
ghost use Rattle.session_calls.specs.Steps.{at_ring};
ghost use Rattle.session_calls.specs.Rings.{AllSpeak, IsAmong, Went, all_alone};
ghost use Rattle.rover_session.specs.Places.{StayAtRings};
ghost use Rattle.rover_session.specs.Standing.{KnowsFilter};
ghost use Rattle.keep_porter.specs.Porters.{IsFound, MayShut, any_lacks, joins_at, looks_at, steps_at};

use crate::found::Found;
use mount_ring::{Cursor, Outbox, Ring, RingAnswer, RingCall};
use session_calls::look;
use turn_log::{TurnFault, Turns};

/// The claim under which the mountpoint of this number is held, if it is: one turn of the caller
/// `me` there. None where the turn was refused.
fn look_at<T: Turns<Ring>>(places: &mut [T], me: u32, mount: u32) -> Option<Option<u64>>
    requires within { mount < length places.old }
    requires speaks { AllSpeak T.speaks places.old me }
    ensures stay { StayAtRings T.Turns places.old places.new }
    ensures went { Went (map T.shape places.old) (all_alone T.alone places.old)
        (map T.seen places.old) (map T.seen places.new) me (looks_at mount result) }
    ensures refused { result ≡ None →
        MayShut (any_lacks (map T.may_lack places.new)) (map T.worn places.new) }
{
    match look(places, me, mount) {
        Ok(claim) => Some(claim),
        Err(_) => None,
    }
}

/// Joins the mountpoint of this number, by the filter of the first group: one turn of the caller
/// `me` there.
///
/// # Errors
/// What the place answered; then nothing was called.
fn join<T: Turns<Ring>>(places: &mut [T], me: u32, mount: u32) -> Result<Cursor, TurnFault>
    requires within { mount < length places.old }
    requires speaks { AllSpeak T.speaks places.old me }
    requires filter { KnowsFilter (map T.shape places.old) 0 }
    ensures stay { StayAtRings T.Turns places.old places.new }
    ensures went { IfOk result (λ cursor.
        Went (map T.shape places.old) (all_alone T.alone places.old)
        (map T.seen places.old) (map T.seen places.new) me
        (at_ring mount (RingCall.Join 0) (RingAnswer.Joined cursor) ∷ [])) }
    ensures err { OnErr result (map T.seen places.new ≡ map T.seen places.old) }
    ensures fault { IfErr result (λ fault.
        IsAmong (λ place. IsFault (T.may_lack place) (T.worn place) fault) places.new) }
{
    let mut outbox = Outbox::new();
    match places[mount as usize].turn(me, RingCall::Join(0), &mut outbox) {
        Ok(RingAnswer::Joined(cursor)) => Ok(cursor),
        Ok(_) => unreachable!(),
        Err(fault) => Err(fault),
    }
}

/// Where one stands who joins the mountpoint of this number now: one turn of the caller `me` there.
/// None where the turn was refused.
fn join_now<T: Turns<Ring>>(places: &mut [T], me: u32, mount: u32) -> Option<Cursor>
    requires within { mount < length places.old }
    requires speaks { AllSpeak T.speaks places.old me }
    requires filter { KnowsFilter (map T.shape places.old) 0 }
    ensures stay { StayAtRings T.Turns places.old places.new }
    ensures went { Went (map T.shape places.old) (all_alone T.alone places.old)
        (map T.seen places.old) (map T.seen places.new) me (joins_at mount result) }
    ensures refused { result ≡ None
        → MayShut (any_lacks (map T.may_lack places.new)) (map T.worn places.new) }
{
    match join(places, me, mount) {
        Ok(cursor) => Some(cursor),
        Err(_) => None,
    }
}

/// How the mountpoint of this number stands: two turns of the caller `me` there.
pub(crate) fn find<T: Turns<Ring>>(places: &mut [T], me: u32, mount: u32) -> Found
    requires within { mount < length places.old }
    requires speaks { AllSpeak T.speaks places.old me }
    requires filter { KnowsFilter (map T.shape places.old) 0 }
    ensures stay { StayAtRings T.Turns places.old places.new }
    ensures went { Went (map T.shape places.old) (all_alone T.alone places.old)
        (map T.seen places.old) (map T.seen places.new) me (steps_at mount result) }
    ensures found { IsFound (any_lacks (map T.may_lack places.new)) (map T.worn places.new) result }
{
    let claim = look_at(places, me, mount);
    let cursor = join_now(places, me, mount);
    Found {
        looked: claim,
        joined: cursor,
    }
}
