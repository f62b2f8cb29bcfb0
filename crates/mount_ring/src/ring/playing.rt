use super::Ring;
use crate::call::{RingAnswer, RingCall};
use crate::outbox::Outbox;
use crate::shape::RingShape;
use turn_log::Played;

impl Played for Ring {
    ghost use Rattle.mount_ring.specs.History as history;
    ghost use Rattle.mount_ring.specs.Shapes.{shape_of};
    ghost use Rattle.mount_ring.specs.Kept.{Keeps, ring_shape};
    ghost use Rattle.mount_ring.specs.KeptOnce.{kept_once};
    ghost use Rattle.mount_ring.specs.StillFits.{still_fits_one};

    type Call = RingCall;

    type Answer = RingAnswer;

    type Room = Outbox;

    type Shape = RingShape;

    ghost shape = { ring_shape };

    ghost stands = { λ ring h. Keeps ring (history.state_of h) };

    ghost stands_once = { λ ring h. kept_once ring (history.state_of h) };

    ghost fits = { λ shape h me call.
        history.fits (shape_of shape) (history.state_of h) me call };

    ghost answer = { λ shape h me call.
        history.answer (shape_of shape) (history.state_of h) call };

    ghost filled = { λ shape h me call room.
        history.filled (shape_of shape) (history.state_of h) call room };

    fn play(&mut self, me: u32, call: RingCall, room: &mut Outbox) -> RingAnswer {
        match call {
            RingCall::Claim => self.claim(me),
            RingCall::Release(_) => {
                self.release();
                RingAnswer::Released
            }
            RingCall::Publish(_, frame) => RingAnswer::At(self.publish(frame)),
            RingCall::Join(filter) => RingAnswer::Joined(self.join(filter)),
            RingCall::Look => RingAnswer::Looked(self.look()),
            RingCall::Read { cursor, budget } => {
                RingAnswer::Read(self.read(cursor, budget, room))
            }
        }
    }

    ghost still_fits = { λ shape h me by call other fitting apart other_fits.
        still_fits_one (shape_of shape) h me by call other fitting apart other_fits };
}
