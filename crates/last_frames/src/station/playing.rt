use super::Station;
use crate::hall::Hall;
use crate::latest::note_call;
use mount_ring::{RingAnswer, RingCall, RingShape};
use turn_log::Played;

impl Played for Station {
    ghost use Rattle.mount_ring.specs.History as history;
    ghost use Rattle.mount_ring.specs.Shapes.{shape_of};
    ghost use Rattle.mount_ring.specs.StillFits.{still_fits_one};
    ghost use Rattle.last_frames.specs.Once.{is_kept_once};
    ghost use Rattle.last_frames.specs.Station.{IsKept, filled, station_shape};

    type Call = RingCall;

    type Answer = RingAnswer;

    type Room = Hall;

    type Shape = RingShape;

    ghost shape = { station_shape };

    ghost stands = { λ station h. IsKept station (history.state_of h) };

    ghost stands_once = { λ station h. is_kept_once station (history.state_of h) };

    // What fits and what is answered is as at the ring.
    ghost fits = { λ shape h me call.
        history.fits (shape_of shape) (history.state_of h) me call };

    ghost answer = { λ shape h me call.
        history.answer (shape_of shape) (history.state_of h) call };

    ghost filled = { λ shape h me call hall.
        filled (shape_of shape) (history.state_of h) call hall };

    fn play(&mut self, me: u32, call: RingCall, hall: &mut Hall) -> RingAnswer {
        self.greet_by(&call, &mut hall.greeting);
        note_call(&mut self.latest, &call);
        self.ring.play(me, call, &mut hall.outbox)
    }

    ghost still_fits = { λ shape h me by call other fitting apart other_fits.
        still_fits_one (shape_of shape) h me by call other fitting apart other_fits };
}
