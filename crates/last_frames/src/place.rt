//! A place at the ring of a station.
ghost use Rattle.std.specs.Prelude.{◌≡◌, ◌≤◌, ◌∷◌, ◌++◌, [], length, None, Some, IsTrue, IfErr, IfNone, IfOk, IfSome, OnErr, OnOk};
ghost use Rattle.turn_log.specs.History.{History};
ghost use Rattle.mount_ring.specs.declared.call.RingCall.{RingCall as CallValue};
ghost use Rattle.mount_ring.specs.History.{state_of};
ghost use Rattle.mount_ring.specs.Shapes.{shape_of};
ghost use Rattle.last_frames.specs.Greeted.{greeted_by, greeted_since};

use crate::hall::{Greeting, Hall};
use crate::station::Station;
use mount_ring::{Outbox, Ring, RingAnswer, RingCall};
use rtcm_frame::Frame;
use std::marker::Model;
use std::snapshot::Snapshot;
use turn_log::{Played, TurnFault, Turns};

/// A place at a station, as a place at its ring. It keeps the greeting of the last one who joined
/// through it.
///
/// Contracts see the place at the station, that greeting, and how many calls there were when the
/// place was made or cleared last.
#[derive(Drop)]
pub struct StationPlace<T: Turns<Station>> {
    inner: T,
    // Of the last one who joined since the place was made or cleared, which was then.
    greeting: Option<Greeting>,
    since: Snapshot<T>,
}

impl<T: Turns<Station>> Model for StationPlace<T> {
    ghost use Rattle.std.specs.Prelude.{◌≡◌, ◌≤◌, length, IsTrue};
    ghost use Rattle.mount_ring.specs.Shapes.{shape_of};
    ghost use Rattle.last_frames.specs.Greeted.{greeted_since};
    ghost use Rattle.last_frames.specs.Placed.{Placed};

    ghost Value = { Placed T };

    ghost view = { λ place. record {
      inner = place.inner;
      greeting = place.greeting;
      since = length (T.seen place.since.value);
    } };

    // Where nobody else calls, the history tells whom the greeting is of.
    ghost invariant = { λ place. (length (T.seen place.since.value) ≤ length (T.seen place.inner))
        × (IsTrue (T.alone place.inner) → place.greeting
        ≡ greeted_since (shape_of (T.shape place.inner)) (length (T.seen place.since.value))
        (T.seen place.inner)) };
}

impl<T: Turns<Station> + Drop> StationPlace<T> {
    /// A place at the ring of the station that this place is at. Nobody joined through it.
    pub fn new(inner: T) -> StationPlace<T>
        ensures inner { result.inner ≡ inner }
        ensures none { result.greeting ≡ None }
        ensures since { result.since ≡ length (T.seen inner) }
    {
        let since = Snapshot::of(&inner);
        StationPlace {
            inner,
            greeting: None,
            since,
        }
    }
}

impl<T: Turns<Station>> StationPlace<T> {
    /// The place at the station.
    pub fn inner(self) -> T
        ensures { result ≡ self.inner }
    {
        self.inner
    }

    /// The place at the station, which stays in here.
    pub fn get_ref(&self) -> &T
        ensures { result.now ≡ self.now.inner }
    {
        &self.inner
    }

    /// The frames that the last one was greeted by who joined through this place since it was made
    /// or cleared; `None` exactly where nobody joined since.
    pub fn greeting(&self) -> Option<&[Frame]>
        ensures none { IfNone result (self.now.greeting ≡ None) }
        ensures some { IfSome result (λ frames. self.now.greeting ≡ Some frames.now) }

        // Where nobody else calls, it is that of the last Join since.
        ensures alone { IsTrue (T.alone self.now.inner) → self.now.greeting
            ≡ greeted_since (shape_of (T.shape self.now.inner)) self.now.since
            (T.seen self.now.inner) }
    {
        match &self.greeting {
            Some(greeting) => Some(greeting.frames()),
            None => None,
        }
    }

    /// From now on nobody joined through it.
    pub fn clear(&mut self)
        ensures inner { self.new.inner ≡ self.old.inner }
        ensures none { self.new.greeting ≡ None }
        ensures since { self.new.since ≡ length (T.seen self.old.inner) }
    {
        self.greeting = None;
        self.since = Snapshot::of(&self.inner);
    }
}

impl<T: Turns<Station>> Turns<Ring> for StationPlace<T> {
    ghost use Rattle.turn_log.specs.Faults.{IsFault};
    ghost use Rattle.turn_log.specs.Turn.{SamePlace, Turned};
    ghost use Rattle.mount_ring.specs.History as rings;

    ghost seen = { λ place. T.seen place.inner };

    ghost shape = { λ place. T.shape place.inner };

    ghost speaks = { λ place. T.speaks place.inner };

    ghost may_lack = { λ place. T.may_lack place.inner };

    ghost alone = { λ place. T.alone place.inner };

    ghost worn = { λ place. T.worn place.inner };

    ghost home = { λ place. T.home place.inner };

    fn turn(&mut self, me: u32, call: RingCall, room: &mut Outbox) -> Result<RingAnswer, TurnFault>
        requires speaks { IsTrue (T.speaks self.old.inner me) }
        requires fits { IsTrue (rings.fits (shape_of (T.shape self.old.inner))
            (state_of (T.seen self.old.inner)) me call) }
        ensures same { SamePlace T.shape T.speaks T.may_lack T.alone T.home
            self.old.inner self.new.inner }
        ensures worn { T.worn self.old.inner ≤ T.worn self.new.inner }
        ensures ok { let ring = ⟦<Ring as Played>⟧ in IfOk result (λ reply.
            Turned (T.alone self.old.inner) (ring.fits (T.shape self.old.inner))
            (ring.answer (T.shape self.old.inner)) (ring.filled (T.shape self.old.inner))
            (T.seen self.old.inner) (T.seen self.new.inner) me call reply room.old room.new) }
        ensures err { IfErr result (λ fault.
            (T.seen self.new.inner ≡ T.seen self.old.inner) × (room.new ≡ room.old)
            × IsFault (T.may_lack self.old.inner) (T.worn self.new.inner) fault) }

        // One who joins is greeted by what was published before that, and nobody else changes it.
        ensures greeted { OnOk result ((before : History CallValue)
            × (T.seen self.new.inner ≡ before ++ (me, call) ∷ [])
            × (self.new.greeting ≡ greeted_by (shape_of (T.shape self.old.inner))
            (state_of before) call self.old.greeting)) }
        ensures since { self.new.since ≡ self.old.since }
        ensures refused { OnErr result (self.new.greeting ≡ self.old.greeting) }
    {
        let mut hall = Hall::new();
        let answer = self.inner.turn(me, call, &mut hall)?;
        hall.hand_over(&call, &mut self.greeting, room);
        Ok(answer)
    }

    ghost legal = { λ place. T.Turns.legal place.inner };
}
