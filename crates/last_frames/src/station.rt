//! The ring of a mountpoint with the last frames of the messages that are sent seldom.
ghost use Rattle.std.specs.Prelude.{◌≡◌, ◌<◌, ◌≤◌, [], length, map, IfOk};
ghost use Rattle.mount_ring.specs.History.{permits_at};
ghost use Rattle.mount_ring.specs.Shapes.{shape_of};
ghost use Rattle.mount_ring.specs.Kept.{ring_shape};
ghost use Rattle.last_frames.specs.Filters.{filters_once};
ghost use Rattle.last_frames.specs.Last.{station_numbers};
ghost use Rattle.last_frames.specs.Latest.{latest_of, permitted_of};

use crate::hall::Greeting;
use crate::latest::Latest;
use mount_ring::{Ring, RingCall};
use std::alloc::{AllocError, Global};
use turn_log::Played;
use type_filter::Filters;

mod playing;

/// The ring of a mountpoint, and the last frame of each message that a rover needs before it can
/// use the others: the message numbers 1005, 1006, 1007, 1008, 1033 and 1230 of RTCM 10403.3.
///
/// It is `Played` as its ring is, by the same calls and answers. A Join also fills the greeting of
/// the caller's hall. All memory is taken when it is made.
#[derive(Debug, Drop)]
pub struct Station {
    ring: Ring,
    latest: Vec<Latest>,
    filters: Filters,
    // It has the filters that its ring offers, and keeps a frame for each of the numbers.
    ghost offered: { (ring_shape ring).filters ≡ filters } by { filters_once _ _ },
    ghost numbered: { length latest.items ≡ 6 },
}

/// Nothing kept yet of any number.
fn none_yet(alloc: Global) -> Result<Vec<Latest>, AllocError>
    ensures { IfOk result (λ kept. kept.items ≡ map (latest_of []) station_numbers) }
{
    let kept = [
        Latest::new(1005),
        Latest::new(1006),
        Latest::new(1007),
        Latest::new(1008),
        Latest::new(1033),
        Latest::new(1230),
    ];
    Ok(Vec::from_array(alloc, kept)?)
}

impl Station {
    ghost use Rattle.std.specs.Prelude.{ℕ, IsTrue};
    ghost use Rattle.turn_log.specs.History.{History};
    ghost use Rattle.mount_ring.specs.declared.call.RingCall.{RingCall as CallValue};
    ghost use Rattle.mount_ring.specs.History.{State, fits};
    ghost use Rattle.last_frames.specs.Station.{IsKept, greeting_by};

    /// The station of a new ring of this capacity, 1 to 4,096 frames, that offers these filters.
    ///
    /// # Errors
    /// For want of memory.
    pub fn new(alloc: Global, capacity: u32, filters: &Filters) -> Result<Station, AllocError>
        requires capacity { (1 ≤ capacity) × (capacity ≤ 4096) }
        ensures shape { IfOk result (λ station. ⟦<Station as Played>⟧.shape station
            ≡ record { capacity = capacity; filters = filters.now }) }
        ensures stands { IfOk result (λ station. ⟦<Station as Played>⟧.stands station []) }
    {
        let ring = Ring::new(alloc, capacity, filters)?;
        let latest = none_yet(alloc)?;
        let filters = filters.copy(alloc)?;
        Ok(Station {
            ring,
            latest,
            filters,
        })
    }

    /// Its ring, which keeps what the station does.
    pub fn ring(&self) -> &Ring
        ensures shape { ⟦<Ring as Played>⟧.shape result.now ≡ ⟦<Station as Played>⟧.shape self.now }
        ensures stands { (h : History CallValue) → ⟦<Station as Played>⟧.stands self.now h
            → ⟦<Ring as Played>⟧.stands result.now h }
    {
        &self.ring
    }

    /// The greeting gets the permitted frames of one who joins through the filter of this number.
    fn greet(&self, filter: u32, greeting: &mut Greeting)
        requires { filter < length (ring_shape self.now.ring).filters }
        ensures { greeting.new ≡ permitted_of
            (permits_at (shape_of (ring_shape self.now.ring)) filter) self.now.latest.items }
    {
        greeting.fill(&self.latest, self.filters.get(filter));
    }

    /// The greeting of a caller after this call: filled where it joins.
    fn greet_by(&self, call: &RingCall, greeting: &mut Greeting)
        requires { (s : State) × (me : ℕ) × IsTrue
            (fits (shape_of (ring_shape self.now.ring)) s me call.now) }
        ensures { (s : State) → IsKept self.now s → greeting.new
            ≡ greeting_by (shape_of (ring_shape self.now.ring)) s call.now greeting.old }
    {
        match call {
            RingCall::Join(filter) => self.greet(*filter, greeting),
            _ => (),
        }
    }
}
