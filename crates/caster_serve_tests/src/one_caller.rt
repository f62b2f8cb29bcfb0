//! The one caller of a caster, at seats of its locks, and what is told of it as plain values.

ghost use Rattle.std.specs.Prelude.{◌≡◌, ◌<◌, ◌≤◌, ◌^◌, ℕ, length, IfOk, OnOk};
ghost use mathlib.Core.Option.{some};
ghost use lib.ListN.{get_elem?};
ghost use Rattle.cast_config.specs.Kept.{KeepsRules};
ghost use Rattle.caster_places.specs.Known.{Fit};
ghost use Rattle.caster_seats.specs.Sharing.{AreNewPasses, IsReady};

use crate::setting::{config_of, is_there};
use crate::telling::{Ended, ended_at, ended_of};
use cast_config::Config;
use cast_io::{Door, Link, MemDoor, MemLink};
use caster_accounts::Book;
use caster_link::serve_places;
use caster_places::AllPlaces;
use caster_seats::{Passes, Shared};
use caster_serve::{Role, Tally, Worker, serve_link, work};
use mount_ring::Ring;
use session_core::{Ending, Places, Receipt};
use std::alloc::Global;
use std::sync::Wait;
use std::test::Fail;
use turn_log::Seat;

/// Sits down with the last of these passes, each of which is that of its place in the list. Answers
/// the number of the caller too.
pub(crate) fn sit_down<'a, R: Wait + Sync>(
    rt: &'a R,
    alloc: Global,
    shared: &'a Shared,
    list: &mut Vec<Passes>,
) -> Result<(u32, Places<Seat<'a, Ring, R>, Seat<'a, Book, R>>), Fail>
    requires ready { IsReady shared.now }
    requires each { (number : ℕ) (passes : _) → get_elem? list.old.items number ≡ some passes
        → AreNewPasses number passes shared.now }
    requires few { length list.old.items < 2 ^ 32 }
    ensures few { length list.new.items ≤ length list.old.items }
    ensures each { OnOk result ((number : ℕ) (passes : _)
        → get_elem? list.new.items number ≡ some passes
        → AreNewPasses number passes shared.now) }
    ensures fit { IfOk result (λ sat. Fit shared.now.config.now sat.0
        (⟦<Places<Seat<'a, Ring, R>, Seat<'a, Book, R>> as AllPlaces>⟧.known sat.1)) }
{
    let Some(passes) = list.pop() else {
        return Err(Fail::from("no passes"));
    };
    let me = list.len() as u32;
    let places = shared.places(rt, alloc, passes)?;
    Ok((me, places))
}

/// What a connection over this link came to that is served so at the last of these passes: a
/// client's by `serve_link`, and a relay's by `caster_link` alone.
fn serve_at<L: Link, R: Wait + Sync>(
    rt: &R,
    alloc: Global,
    shared: &Shared,
    list: &mut Vec<Passes>,
    role: Role,
    link: &mut L,
) -> Result<Receipt, Fail>
    requires ready { IsReady shared.now }
    requires each { (number : ℕ) (passes : _) → get_elem? list.old.items number ≡ some passes
        → AreNewPasses number passes shared.now }
    requires few { length list.old.items < 2 ^ 32 }
    requires relay { (number : ℕ) → role ≡ Role.Relay number
        → number < length shared.now.config.now.relay }
{
    let (me, mut places) = sit_down(rt, alloc, shared, list)?;
    Ok(match role {
        Role::Caller => serve_link(rt, alloc, shared, me, &mut places, role, link),
        Role::Relay(_) => serve_places(rt, &shared.setup(alloc, me), &mut places, role, link),
    })
}

/// What a connection over this link came to that the caster of this configuration serves so.
fn serve_over<L: Link, R: Wait + Sync>(
    rt: &R,
    alloc: Global,
    config: &Config,
    role: Role,
    link: &mut L,
) -> Result<Receipt, Fail>
    requires kept { KeepsRules 1000000 config.now }
    requires relay { (number : ℕ) → role ≡ Role.Relay number → number < length config.now.relay }
{
    let (shared, mut list) = Shared::new(alloc, config, 1)?;
    serve_at(rt, alloc, &shared, &mut list, role, link)
}

/// What a connection over this link came to that is served so. The configuration has this behind
/// it.
pub(crate) fn serve_as<L: Link, R: Wait + Sync>(
    rt: &R,
    alloc: Global,
    more: &[u8],
    role: Role,
    link: &mut L,
) -> Result<Receipt, Fail> {
    let config = config_of(alloc, more)?;
    if !is_there(&config, role) {
        return Err(Fail::from("no such relay"));
    }
    serve_over(rt, alloc, &config, role, link)
}

/// This door after a worker with the last of these passes served so many of its links, and what the
/// worker counted.
fn run_worker<D: Door + Drop, R: Wait + Sync>(
    rt: &R,
    alloc: Global,
    shared: &Shared,
    list: &mut Vec<Passes>,
    door: D,
    limit: u64,
) -> Result<(D, Tally), Fail>
    requires ready { IsReady shared.now }
    requires each { (number : ℕ) (passes : _) → get_elem? list.old.items number ≡ some passes
        → AreNewPasses number passes shared.now }
    requires few { length list.old.items < 2 ^ 32 }
    requires limit { limit < 2 ^ 63 }
{
    let (me, places) = sit_down(rt, alloc, shared, list)?;
    let mut worker = Worker::new(me, places, door);
    work(rt, alloc, shared, &mut worker, limit);
    let tally = worker.tally();
    let (_places, door) = worker.into_parts();
    Ok((door, tally))
}

/// This door after a worker of this configuration's caster served so many of its links, and what
/// the worker counted.
fn work_over<D: Door + Drop, R: Wait + Sync>(
    rt: &R,
    alloc: Global,
    config: &Config,
    door: D,
    limit: u64,
) -> Result<(D, Tally), Fail>
    requires kept { KeepsRules 1000000 config.now }
    requires limit { limit < 2 ^ 63 }
{
    let (shared, mut list) = Shared::new(alloc, config, 1)?;
    run_worker(rt, alloc, &shared, &mut list, door, limit)
}

/// The same of the caster that is tried.
pub(crate) fn work_at<D: Door + Drop, R: Wait + Sync>(
    rt: &R,
    alloc: Global,
    door: D,
    limit: u64,
) -> Result<(D, Tally), Fail>
    requires { limit < 2 ^ 63 }
{
    let config = config_of(alloc, b"")?;
    work_over(rt, alloc, &config, door, limit)
}

/// What was told of a connection: how it ended, how much junk came, and what its link came to.
#[derive(Drop)]
pub(crate) struct LinkOutcome {
    pub(crate) ending: Ending,
    pub(crate) settled: bool,
    pub(crate) junk: u64,
    pub(crate) link: Ended,
}

impl LinkOutcome {
    /// It ended so, each turn that closed it was taken, and its link was sent this and took so many
    /// steps.
    pub(crate) fn is(&self, ending: Ending, bytes: &[u8], steps: usize) -> bool {
        self.ending == ending && self.settled && self.link.is(bytes, steps)
    }
}

/// What is told of a connection over this link that is served so.
pub(crate) fn told_of<R: Wait + Sync>(
    rt: &R,
    alloc: Global,
    more: &[u8],
    role: Role,
    mut link: MemLink,
) -> Result<LinkOutcome, Fail> {
    let receipt = serve_as(rt, alloc, more, role, &mut link)?;
    Ok(LinkOutcome {
        ending: receipt.ending,
        settled: receipt.settled,
        junk: receipt.junk,
        link: ended_of(alloc, &link)?,
    })
}

/// What is told of a worker: what it counted, and what the links came to that came back.
pub(crate) fn told_at<R: Wait + Sync>(
    rt: &R,
    alloc: Global,
    door: MemDoor,
    limit: u64,
) -> Result<(Tally, Vec<Ended>), Fail>
    requires { limit < 2 ^ 63 }
{
    let (door, tally) = work_at(rt, alloc, door, limit)?;
    Ok((tally, ended_at(alloc, &door)?))
}
