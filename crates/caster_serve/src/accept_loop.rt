//! A worker serves the links that its door gives, one after the other.

ghost use Rattle.std.specs.Prelude.{◌+◌, ◌^◌, ◌<◌};
ghost use Rattle.caster_places.specs.Known.{Fit, StayKnown};
ghost use Rattle.session_core.specs.Setups.{IsSetUp};
ghost use Rattle.caster_link.specs.Wear.{wear_of};
ghost use Rattle.caster_serve.specs.Works.{IsWithin, Worked};

use crate::tally::{Tally, serve_counted};
use cast_io::{Arrived, Door};
use caster_accounts::Book;
use caster_link::Role;
use caster_places::AllPlaces;
use mount_ring::Ring;
use session_core::{Places, Setup};
use std::sync::Wait;
use turn_log::Turns;

/// Serves the links that the door gives until `limit` came, or until the door fails. Answers how
/// many came.
pub fn work_places<T: Turns<Ring>, B: Turns<Book>, D: Door, R: Wait>(
    rt: &R,
    setup: &Setup,
    places: &mut Places<T, B>,
    door: &mut D,
    tally: &mut Tally,
    limit: u64,
) -> u64
    requires ready { IsSetUp setup.now }
    requires fit { Fit setup.now.config.now setup.now.me
        (⟦<Places<T, B> as AllPlaces>⟧.known places.old) }
    requires room { tally.old.sessions + limit < 2 ^ 64 }
    requires within { IsWithin tally.old }
    ensures stay { StayKnown (⟦<Places<T, B> as AllPlaces>⟧.known places.old)
        (⟦<Places<T, B> as AllPlaces>⟧.known places.new)
        (⟦<Places<T, B> as AllPlaces>⟧.worn places.old)
        (⟦<Places<T, B> as AllPlaces>⟧.worn places.new) }
    ensures within { IsWithin tally.new }
    ensures worked { Worked setup.now.config.now setup.now.me
        (wear_of (⟦<Places<T, B> as AllPlaces>⟧.known places.new)
        (⟦<Places<T, B> as AllPlaces>⟧.worn places.new))
        (⟦<Places<T, B> as AllPlaces>⟧.seen places.old)
        (⟦<Places<T, B> as AllPlaces>⟧.seen places.new) (D.told door.old) (D.told door.new)
        tally.old tally.new limit result }
{
    let mut left = limit;
    for _ in rt.forever() {
        if left == 0 {
            return limit;
        }
        match door.accept() {
            Arrived::Link(mut link) => {
                left -= 1;
                serve_counted(rt, setup, places, Role::Caller, &mut link, tally);
                door.hang_up(link);
            }
            Arrived::Idle => door.rest(),
            Arrived::Failed => return limit - left,
        }
    }
    unreachable!()
}
