//! A whole caster, from the opening of its doors to its closing.

ghost use Rattle.std.specs.Prelude.{◌≡◌, ◌<◌, ◌≤◌, ◌^◌, ℕ, length, map, IfOk};
ghost use Rattle.std.specs.List.{All};
ghost use Rattle.cast_config.specs.Kept.{KeepsRules};
ghost use Rattle.caster_serve.specs.Endpoints.{IsUnserved, IsUnused, end_told, kind_of, kinds};
ghost use Rattle.caster_serve.specs.Caster.{Ended, HasServed};
ghost use Rattle.caster_serve.specs.Prepared.{IsPrepared};

use crate::caller_task::CallerTask;
use crate::callers::serve_tasks;
use crate::listeners::{ask_all, give_back};
use cast_config::Config;
use cast_io::{Street, StreetFault};
use caster_places::{PassPiles, Totals};
use caster_seats::{Passes, Shared};
use session_core::Closed;
use std::alloc::{AllocError, Global};
use std::sync::Wait;
use std::thread::Threads;
use thiserror::Error;

/// Why a caster did not come to its closing totals.
#[derive(Clone, Copy, Debug, PartialEq, Eq, Error)]
pub enum ServeFault {
    /// A door could not be opened or failed, or a relay's peer could not be reached.
    #[error("network fault")]
    Network,
    /// No memory was left before the first worker started.
    #[error("out of memory")]
    Memory,
}

/// What a caster needs before its first worker starts: its locks with the passes of all callers,
/// and room for what comes back.
struct Ready<'c> {
    shared: Shared<'c>,
    passes: Vec<Passes>,
    piles: PassPiles,
    totals: Totals,
}

/// Takes all memory that is needed.
fn prepare<'c>(alloc: Global, config: &'c Config, callers: u32) -> Result<Ready<'c>, AllocError>
    requires kept { (cap : ℕ) × KeepsRules cap config.now }
    requires some_caller { 0 < callers }
    ensures config { IfOk result (λ ready. ready.shared.config.now ≡ config.now) }
    ensures prepared { IfOk result (IsPrepared callers) }
{
    let (shared, passes) = Shared::new(alloc, config, callers)?;
    let Ok(piles) = PassPiles::with_room(alloc, config.mount.as_slice().len(), callers) else {
        drop(shared);
        drop(passes);
        return Err(AllocError);
    };
    let Ok(totals) = Totals::with_room(alloc, config) else {
        drop(shared);
        drop(passes);
        drop(piles);
        return Err(AllocError);
    };
    Ok(Ready {
        shared,
        passes,
        piles,
        totals,
    })
}

/// All callers do these tasks, whose ends are given back then, and the locks are closed.
fn serve_given<N: Street, R: Threads + Wait + Sync>(
    rt: &R,
    alloc: Global,
    ready: Ready,
    mut tasks: Vec<CallerTask<N::Door, N::Link>>,
    limit: u64,
    street: &mut N,
) -> Result<Closed, ServeFault>
where
    N::Door: Send,
    N::Link: Send,
    requires prepared { IsPrepared (length tasks.items) ready }
    requires some_caller { 0 < length tasks.items }
    requires few { length tasks.items < 2 ^ 32 }
    requires kinds { map kind_of (map (end_told N.Door.told N.Link.told) tasks.items)
        ≡ kinds ready.shared.config.now }
    requires unused { All IsUnused (map (end_told N.Door.told N.Link.told) tasks.items) }
    requires unserved { All IsUnserved tasks.items }
    ensures asked { (N.told street.new).asked ≡ (N.told street.old).asked }
    ensures later { (N.told street.old).faults ≤ (N.told street.new).faults }
    ensures ended { Ended ready.entry.shared.config.now limit (N.told street.old)
        (N.told street.new) result }
{
    let Ready {
        shared,
        passes,
        mut piles,
        totals,
    } = ready;
    let served = serve_tasks(rt, alloc, &shared, passes, &mut tasks, &mut piles, limit);
    give_back(street, tasks);
    let Ok(is_whole) = served else {
        drop(shared);
        drop(piles);
        drop(totals);
        return Err(ServeFault::Memory);
    };
    let closed = shared.close(piles, totals);
    if is_whole {
        Ok(closed)
    } else {
        drop(closed);
        Err(ServeFault::Network)
    }
}

/// Serves: opens a door for each worker at this address and dials the peer of each relay, once
/// and in order; then all workers serve side by side, each as many links as `limit` says, and
/// each relay its one link. Then the doors are shut, the relays' links hung up, and the locks are
/// closed.
///
/// # Errors
/// `Network` only where the street's count of faults rose: what was asked was refused, and nobody
/// served; or a door failed while its worker served. `Memory` at any time before the first worker
/// starts, and nobody served.
pub fn serve<N: Street, R: Threads + Wait + Sync>(
    rt: &R,
    alloc: Global,
    config: &Config,
    addr: &str,
    limit: u64,
    street: &mut N,
) -> Result<Closed, ServeFault>
where
    N::Door: Send,
    N::Link: Send,
    requires kept { (cap : ℕ) × KeepsRules cap config.now }
    ensures served { HasServed config.now addr.now limit (N.told street.old) (N.told street.new)
        result }
{
    let callers = config.workers + config.relay.as_slice().len() as u32;
    let Ok(mut tasks) = Vec::with_capacity(alloc, callers as usize) else {
        return Err(ServeFault::Memory);
    };
    match ask_all(config, addr, street, &mut tasks) {
        Ok(()) => {}
        Err(StreetFault::Failed) => {
            give_back(street, tasks);
            return Err(ServeFault::Network);
        }
        Err(StreetFault::Memory) => {
            give_back(street, tasks);
            return Err(ServeFault::Memory);
        }
    }
    match prepare(alloc, config, callers) {
        Ok(ready) => serve_given(rt, alloc, ready, tasks, limit, street),
        Err(AllocError) => {
            give_back(street, tasks);
            Err(ServeFault::Memory)
        }
    }
}
