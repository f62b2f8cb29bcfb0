//! All callers of a caster serve at its locks, and leave them.

ghost use Rattle.std.specs.Prelude.{◌≡◌, ◌<◌, ◌^◌, ℕ, [], length, map, IfOk, OnErr};
ghost use Rattle.std.specs.List.{All, list_all};
ghost use mathlib.Core.Option.{some};
ghost use lib.ListN.{get_elem?};
ghost use Rattle.caster_serve.specs.Endpoints.{IsUnserved, IsUnused, end_told, kind_of, kinds};
ghost use Rattle.caster_places.specs.Rows.{ArePiles, HaveRoom};
ghost use Rattle.caster_places.specs.Piles.{AreMatched};
ghost use Rattle.caster_serve.specs.Callers.{is_whole};
ghost use Rattle.caster_serve.specs.Serving.{CallerServed, HaveCalled, MayServe, caller_of};
ghost use Rattle.caster_seats.specs.Sharing.{AreNewPasses, IsReady};

use crate::caller_task::CallerTask;
use crate::threads::{Serves, serve_all};
use cast_config::Config;
use cast_io::{Door, Link};
use caster_places::PassPiles;
use caster_seats::{Passes, SeatedCaller, Shared, leave_all, sit_all};
use std::alloc::{AllocError, Global};
use std::sync::Wait;
use std::thread::Threads;

/// Lets each caller serve, in a thread of its own where one can be made.
fn serve_hands<'a, L: Link + Send, D: Door<Link = L> + Send, R: Threads + Wait + Sync>(
    rt: &R,
    alloc: Global,
    config: &Config,
    table: &[u8],
    hands: &mut Vec<SeatedCaller<'a, CallerTask<D, L>, R>>,
    limit: u64,
)
    requires some_hand { 0 < length hands.old.items }
    requires fit { All (MayServe config.now table.now limit)
        (map ⟦<SeatedCaller<'a, CallerTask<D, L>, R> as Serves>⟧.told hands.old.items) }
    ensures size { length hands.new.items ≡ length hands.old.items }
    ensures served { AreMatched (CallerServed config.now limit)
        (map ⟦<SeatedCaller<'a, CallerTask<D, L>, R> as Serves>⟧.told hands.old.items)
        (map ⟦<SeatedCaller<'a, CallerTask<D, L>, R> as Serves>⟧.told hands.new.items) }
{
    serve_all(rt, alloc, config, table, hands.as_mut_slice(), limit);
}

/// Whether each of these served as many links as it was to: `limit` at a door, one of a relay.
fn are_whole<'a, L: Link + Send, D: Door<Link = L> + Send, R: Wait + Sync>(
    hands: &[SeatedCaller<'a, CallerTask<D, L>, R>],
    limit: u64,
) -> bool
    ensures { result ≡ list_all (λ hand. is_whole limit
        (caller_of (⟦<SeatedCaller<'a, CallerTask<D, L>, R> as Serves>⟧.told hand))) hands.now }
{
    hands.iter().all(|hand| hand.is_whole(limit))
}

/// Sits down with these passes, which are those of all callers, does the tasks at the same places
/// of the list, and leaves. Answers whether each served as many links as it was to. After a refusal
/// nobody served.
pub(crate) fn serve_tasks<L: Link + Send, D: Door<Link = L> + Send, R: Threads + Wait + Sync>(
    rt: &R,
    alloc: Global,
    shared: &Shared,
    passes: Vec<Passes>,
    tasks: &mut Vec<CallerTask<D, L>>,
    piles: &mut PassPiles,
    limit: u64,
) -> Result<bool, AllocError>
    requires ready { IsReady shared.now }
    requires passes { (number : ℕ) (pass : _) → get_elem? passes.items number ≡ some pass
        → AreNewPasses number pass shared.now }
    requires some_pass { 0 < length passes.items }
    requires few { length passes.items < 2 ^ 32 }
    requires size { length tasks.old.items ≡ length passes.items }
    requires unused { All IsUnused (map (end_told D.told L.told) tasks.old.items) }
    requires unserved { All IsUnserved tasks.old.items }
    requires kinds { map kind_of (map (end_told D.told L.told) tasks.old.items)
        ≡ kinds shared.now.config.now }
    requires room { HaveRoom (length passes.items) piles.old }
    requires empty { ArePiles [] piles.old shared.now.rings.items shared.now.book }
    requires none { piles.old.book.items ≡ [] }
    ensures called { IfOk result (λ whole. HaveCalled shared.now limit
        (map (end_told D.told L.told) tasks.new.items) piles.new whole) }
    ensures kept { OnErr result (tasks.new.items ≡ tasks.old.items) }
{
    let mut hands = sit_all(rt, alloc, shared, passes, tasks)?;
    serve_hands(
        rt,
        alloc,
        shared.config(),
        shared.table(),
        &mut hands,
        limit,
    );
    let is_whole = are_whole(&hands, limit);
    leave_all(hands, piles, tasks);
    Ok(is_whole)
}
