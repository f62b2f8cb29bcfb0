//! The callers of a caster serve side by side, each in a thread of its own.

ghost use Rattle.std.specs.Prelude.{◌≡◌, ◌<◌, ℕ, length, slice_index_or};
ghost use Rattle.std.specs.List.{All};
ghost use Rattle.caster_seats.specs.SeatedCallers.{seated_told};
ghost use Rattle.caster_serve.specs.Serving.{CallerServed, MayServe, task_told};

use crate::accept_loop::work_places;
use crate::caller_task::{CallerTask, Endpoint};
use crate::tally::serve_counted;
use cast_config::Config;
use cast_io::{Door, Link};
use caster_accounts::Book;
use caster_link::Role;
use caster_places::AllPlaces;
use caster_seats::SeatedCaller;
use mount_ring::Ring;
use session_core::{Places, Setup};
use std::alloc::Global;
use std::sync::Wait;
use std::thread::{self, Threads};
use turn_log::{Seat, Turns};

/// Serves the links of the task's door, as many as it is to, or the one link of its relay.
fn do_task<T: Turns<Ring>, B: Turns<Book>, L: Link, D: Door<Link = L>, R: Wait>(
    rt: &R,
    setup: &Setup,
    places: &mut Places<T, B>,
    task: &mut CallerTask<D, L>,
    limit: u64,
)
    requires { MayServe setup.now.config.now setup.now.table.now limit (seated_told setup.now.me
        (⟦<Places<T, B> as AllPlaces>⟧.known places.old)
        (⟦<Places<T, B> as AllPlaces>⟧.seen places.old)
        (⟦<Places<T, B> as AllPlaces>⟧.worn places.old) (task_told D.told L.told task.old)) }
    ensures { CallerServed setup.now.config.now limit (seated_told setup.now.me
        (⟦<Places<T, B> as AllPlaces>⟧.known places.old)
        (⟦<Places<T, B> as AllPlaces>⟧.seen places.old)
        (⟦<Places<T, B> as AllPlaces>⟧.worn places.old) (task_told D.told L.told task.old))
        (seated_told setup.now.me (⟦<Places<T, B> as AllPlaces>⟧.known places.new)
        (⟦<Places<T, B> as AllPlaces>⟧.seen places.new)
        (⟦<Places<T, B> as AllPlaces>⟧.worn places.new) (task_told D.told L.told task.new)) }
{
    let tally = &mut task.tally;
    task.served = match &mut task.end {
        Endpoint::Door(door) => { work_places(rt, setup, places, door, tally, limit) }
        Endpoint::Link(relay, link) => {
            serve_counted(rt, setup, places, Role::Relay(*relay), link, tally);
            1
        }
    };
}

/// What serves in a thread of its own.
pub(crate) trait Serves: Send {
    ghost use Rattle.caster_serve.specs.Callers.{is_whole};
    ghost use Rattle.caster_seats.specs.SeatedCallers.{SeatedTold};
    ghost use Rattle.caster_serve.specs.Serving.{CallerServed, MayServe, TaskTold, caller_of};

    /// What is told of it.
    ghost told: { Self → SeatedTold TaskTold };

    /// Serves the links of its door, as many as it is to, or the one link of its relay.
    fn serve<R: Wait>(&mut self, rt: &R, alloc: Global, config: &Config, table: &[u8], limit: u64)
        requires { MayServe config.now table.now limit (told self.old) }
        ensures { CallerServed config.now limit (told self.old) (told self.new) };

    /// Whether it served as many links as it was to: `limit` at a door, one of a relay.
    fn is_whole(&self, limit: u64) -> bool
        ensures { result ≡ is_whole limit (caller_of (told self.now)) };
}

impl<'a, L: Link + Send, D: Door<Link = L> + Send, R: Wait + Sync> Serves
    for SeatedCaller<'a, CallerTask<D, L>, R> {
    ghost use Rattle.caster_seats.specs.SeatedCallers.{seated_told};
    ghost use Rattle.caster_serve.specs.Serving.{task_told};

    ghost told = { λ hand. seated_told hand.number
        (⟦<Places<Seat<'a, Ring, R>, Seat<'a, Book, R>> as AllPlaces>⟧.known hand.places)
        (⟦<Places<Seat<'a, Ring, R>, Seat<'a, Book, R>> as AllPlaces>⟧.seen hand.places)
        (⟦<Places<Seat<'a, Ring, R>, Seat<'a, Book, R>> as AllPlaces>⟧.worn hand.places)
        (task_told D.told L.told hand.work) };

    fn serve<Q: Wait>(&mut self, rt: &Q, alloc: Global, config: &Config, table: &[u8], limit: u64) {
        let setup = Setup {
            alloc,
            config,
            table,
            me: self.number,
        };
        do_task(rt, &setup, &mut self.places, &mut self.work, limit);
    }

    fn is_whole(&self, limit: u64) -> bool {
        match self.work.end {
            Endpoint::Door(_) => self.work.served == limit,
            Endpoint::Link(..) => true,
        }
    }
}

/// Runs each of these callers, in a thread of its own where one can be made.
pub(crate) fn serve_all<H: Serves, R: Threads + Wait + Sync>(
    rt: &R,
    alloc: Global,
    config: &Config,
    table: &[u8],
    hands: &mut [H],
    limit: u64,
)
    requires some { 0 < length hands.old }
    requires fit { All (λ hand. MayServe config.now table.now limit (H.told hand)) hands.old }
    ensures size { length hands.new ≡ length hands.old }
    ensures each { (k : ℕ) (d : _) → k < length hands.old
        → CallerServed config.now limit (H.told (slice_index_or hands.old k d))
        (H.told (slice_index_or hands.new k d)) }
{
    let count = hands.len();
    thread::for_each_mut(
        rt,
        hands,
        count,
        &|_, hand: &mut H|
            requires { MayServe config.now table.now limit (H.told hand.now) }
        { hand.serve(rt, alloc, config, table, limit) },
    );
}
