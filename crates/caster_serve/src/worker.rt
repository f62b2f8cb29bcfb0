//! A worker of a caster: a door, and seats at all its locks.

ghost use Rattle.std.specs.Prelude.{◌≡◌, ◌+◌, ◌*◌, ◌^◌, ◌<◌, ◌≤◌, ℕ};
ghost use Rattle.caster_accounts.specs.Sums.{nothing};
ghost use Rattle.caster_places.specs.Known.{Fit, StayKnown};
ghost use Rattle.caster_seats.specs.Sharing.{IsReady};
ghost use Rattle.caster_link.specs.Wear.{only_worn};
ghost use Rattle.caster_serve.specs.Works.{Worked};

use crate::accept_loop::work_places;
use crate::tally::Tally;
use cast_io::Door;
use caster_accounts::Book;
use caster_places::AllPlaces;
use caster_seats::Shared;
use mount_ring::Ring;
use session_core::Places;
use std::alloc::Global;
use std::sync::Wait;
use turn_log::Seat;

/// A worker: it serves the links of its door as one caller.
pub struct Worker<'a, D: Door, R: Wait + Sync> {
    pub(crate) number: u32,
    pub(crate) places: Places<Seat<'a, Ring, R>, Seat<'a, Book, R>>,
    pub(crate) door: D,
    pub(crate) tally: Tally,
    // No more than its sessions can count.
    ghost within: { (tally.sent ≤ tally.sessions * 2 ^ 64)
        × (tally.overrun ≤ tally.sessions * 2 ^ 64) },
}

impl<'a, D: Door, R: Wait + Sync> Worker<'a, D, R> {
    /// The worker of this number, which served nothing yet.
    pub fn new(
        number: u32,
        places: Places<Seat<'a, Ring, R>, Seat<'a, Book, R>>,
        door: D,
    ) -> Worker<'a, D, R>
        ensures number { result.number ≡ number }
        ensures places { result.places ≡ places.entry }
        ensures door { result.door ≡ door }
        ensures tally { result.tally ≡ nothing }
    {
        Worker {
            number,
            places,
            door,
            tally: Tally::default(),
        }
    }

    /// What the rovers that it served add up to.
    pub fn tally(&self) -> Tally
        ensures { result ≡ self.now.tally }
    {
        self.tally
    }

    /// Its places and its door, as they are now.
    pub fn into_parts(self) -> (Places<Seat<'a, Ring, R>, Seat<'a, Book, R>>, D)
        ensures places { result.0 ≡ self.entry.places }
        ensures door { result.1 ≡ self.entry.door }
    {
        let Worker {
            number: _,
            places,
            door,
            tally: _,
        } = self;
        (places, door)
    }
}

/// Serves the links that the worker's door gives until `limit` came, or until the door fails. Each
/// is hung up at the door after its receipt.
pub fn work<'a, D: Door, R: Wait + Sync>(
    rt: &R,
    alloc: Global,
    shared: &Shared,
    worker: &mut Worker<'a, D, R>,
    limit: u64,
)
    requires ready { IsReady shared.now }
    requires fit { Fit shared.now.config.now worker.old.number
        (⟦<Places<Seat<'a, Ring, R>, Seat<'a, Book, R>> as AllPlaces>⟧.known worker.old.places) }
    requires room { worker.old.tally.sessions + limit < 2 ^ 64 }
    ensures number { worker.new.number ≡ worker.old.number }
    ensures stay { StayKnown
        (⟦<Places<Seat<'a, Ring, R>, Seat<'a, Book, R>> as AllPlaces>⟧.known worker.old.places)
        (⟦<Places<Seat<'a, Ring, R>, Seat<'a, Book, R>> as AllPlaces>⟧.known worker.new.places)
        (⟦<Places<Seat<'a, Ring, R>, Seat<'a, Book, R>> as AllPlaces>⟧.worn worker.old.places)
        (⟦<Places<Seat<'a, Ring, R>, Seat<'a, Book, R>> as AllPlaces>⟧.worn worker.new.places) }
    ensures worked { (count : ℕ) × Worked shared.now.config.now worker.old.number
        (only_worn
        (⟦<Places<Seat<'a, Ring, R>, Seat<'a, Book, R>> as AllPlaces>⟧.worn worker.new.places))
        (⟦<Places<Seat<'a, Ring, R>, Seat<'a, Book, R>> as AllPlaces>⟧.seen worker.old.places)
        (⟦<Places<Seat<'a, Ring, R>, Seat<'a, Book, R>> as AllPlaces>⟧.seen worker.new.places)
        (D.told worker.old.door) (D.told worker.new.door) worker.old.tally worker.new.tally
        limit count }
{
    let setup = shared.setup(alloc, worker.number);
    work_places(
        rt,
        &setup,
        &mut worker.places,
        &mut worker.door,
        &mut worker.tally,
        limit,
    );
}
