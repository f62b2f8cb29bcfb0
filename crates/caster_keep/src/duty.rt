//! What a caller does at a press: it serves at a gate, or it waits at the console.

use caster_press::{AtPress, Writer};
use std::sync::Wait;

/// The work of a caller: one at a gate, or one at the console.
pub(crate) enum Duty<A, B> {
    Gate(A),
    Console(B),
}

impl<A: Writer, B: Writer> Writer for Duty<A, B> {
    ghost use Rattle.caster_keep.specs.Stations.{HasDone, MayBegin};

    ghost ready = { λ duty. MayBegin A.ready B.ready duty };

    ghost wrote = { λ old new lines. HasDone A.wrote B.wrote old new lines };

    fn write<P: AtPress, R: Wait>(&mut self, rt: &R, place: &mut P, me: u32) {
        match self {
            Duty::Gate(work) => work.write(rt, place, me),
            Duty::Console(work) => work.write(rt, place, me),
        }
    }
}
