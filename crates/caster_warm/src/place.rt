//! A place of a run with greetings.

ghost use Rattle.std.specs.Prelude.{◌≡◌, map, IfNone, IfSome};
ghost use Rattle.caster_warm.specs.Places.{cleared_home, greeting_at, place_home, place_seen, place_shape};

use cast_config::Config;
use caster_replay::RingPlace;
use last_frames::{Station, StationPlace};
use mount_ring::{Outbox, Ring, RingAnswer, RingCall};
use rtcm_frame::Frame;
use std::alloc::{AllocError, Global};
use turn_log::{Desk, TurnFault, Turns};

/// A place at the ring of a station, which keeps the greeting of who joined last.
#[derive(Drop)]
pub(crate) struct GreetingPlace {
    place: StationPlace<Desk<Station>>,
}

impl GreetingPlace {
    /// The frames that the last one was greeted by who joined since it was made or cleared, if
    /// somebody did.
    pub(crate) fn greeting(&self) -> Option<&[Frame]>
        ensures none { IfNone result (greeting_at self.now ≡ None) }
        ensures some { IfSome result (λ frames. greeting_at self.now ≡ Some frames.now) }
    {
        self.place.greeting()
    }

    /// From now on nobody joined here.
    fn clear(&mut self)
        ensures shape { place_shape self.new ≡ place_shape self.old }
        ensures seen { place_seen self.new ≡ place_seen self.old }
        ensures cleared { place_home self.new ≡ cleared_home self.old }
    {
        self.place.clear();
    }
}

/// Clears at each of these places whose greeting it holds.
pub(crate) fn clear_all(places: &mut Vec<GreetingPlace>)
    ensures shape { map place_shape places.new.items ≡ map place_shape places.old.items }
    ensures seen { map place_seen places.new.items ≡ map place_seen places.old.items }
    ensures cleared { map place_home places.new.items ≡ map cleared_home places.old.items }
{
    for place in places.iter_mut() {
        place.clear();
    }
}

impl Turns<Ring> for GreetingPlace {
    ghost use Rattle.std.specs.Prelude.{true, false};
    ghost use Rattle.caster_warm.specs.Places.{place_home, place_legal, place_seen, place_shape, place_worn};

    ghost seen = { place_seen };

    ghost shape = { place_shape };

    ghost speaks = { λ place me. true };

    ghost may_lack = { λ place. false };

    ghost alone = { λ place. true };

    ghost worn = { place_worn };

    ghost home = { place_home };

    fn turn(
        &mut self,
        me: u32,
        call: RingCall,
        room: &mut Outbox,
    ) -> Result<RingAnswer, TurnFault> {
        self.place.turn(me, call, room)
    }

    ghost legal = { place_legal };
}

impl RingPlace for GreetingPlace {
    ghost use Rattle.std.specs.Prelude.{refl};

    fn open(alloc: Global, config: &Config, number: u32) -> Result<GreetingPlace, AllocError> {
        let capacity = config.mount.as_slice()[number as usize].ring;
        let station = Station::new(alloc, capacity, config.filters(number))?;
        let place = StationPlace::new(Desk::new(station));
        Ok(GreetingPlace { place })
    }

    fn ring(&self) -> &Ring {
        self.place.get_ref().value().ring()
    }

    ghost speaks_for_all = { λ place me. refl };

    ghost is_alone = { λ place. refl };
}
