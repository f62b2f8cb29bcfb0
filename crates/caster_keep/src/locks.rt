//! All keepers serve side by side at the locks of a caster, and the porter waits beside them. Their
//! lines go to one output, and they leave the locks.

ghost use Rattle.std.specs.Prelude.{◌≡◌, ◌<◌, ◌+◌, ◌^◌, ℕ, [], length, map, IfOk, OnErr};
ghost use Rattle.std.specs.List.{All};
ghost use mathlib.Core.Option.{some};
ghost use lib.ListN.{get_elem?};
ghost use Rattle.cast_console.specs.Consoles.{IsNewConsole};
ghost use Rattle.cast_io.specs.Doors.{IsNewDoor};
ghost use Rattle.caster_places.specs.Rows.{ArePiles, HaveRoom};
ghost use Rattle.caster_seats.specs.Seated.{IsSeated};
ghost use Rattle.caster_seats.specs.Sharing.{AreNewPasses, IsReady};
ghost use Rattle.caster_keep.specs.Gates.{roles_of};
ghost use Rattle.caster_keep.specs.Stations.{new_porter};
ghost use Rattle.caster_keep.specs.Together.{HaveKept, HaveWorked, IsNewKeeper, gate_at, role_at};

use crate::booth::{AtBooth, Booth};
use crate::duty::Duty;
use crate::keeper::Keeper;
use crate::porter::Porter;
use crate::posts::{leave_posts, room_for_posts, take_posts};
use cast_console::Console;
use cast_io::{Door, Gate, Link, Sink};
use caster_places::{PassPiles, leave};
use caster_press::{Closed, write_at_once};
use caster_seats::{Passes, SeatedCaller, Shared, leave_all, sit_all};
use std::alloc::{AllocError, Global};
use std::sync::Wait;
use std::thread::Threads;

/// Sits down with these passes, which are those of all keepers, does the work of the keepers at the
/// same places of the list, and that of the porter at its booth behind them, each in a thread of
/// its own where one can be made. The keepers leave; the porter stays at its booth. The lines of
/// all go to this output, which is given back. After a refusal nobody served.
fn keep_at_seats<
    'a,
    L: Link + Send,
    G: Gate<Link = L> + Send,
    C: Console + Send,
    O: Sink + Drop + Send,
    R: Threads + Wait + Sync,
>(
    rt: &'a R,
    alloc: Global,
    shared: &'a Shared,
    passes: Vec<Passes>,
    keepers: &mut Vec<Keeper<G>>,
    booth: Booth<'a, C, R>,
    piles: &mut PassPiles,
    notes: O,
) -> (Result<Closed<O>, AllocError>, Booth<'a, C, R>)
    requires ready { IsReady shared.now }
    requires passes { (number : ℕ) (pass : _) → get_elem? passes.items number ≡ some pass
        → AreNewPasses number pass shared.now }
    requires some_pass { 0 < length passes.items }
    requires few { length passes.items + 1 < 2 ^ 32 }
    requires size { length keepers.old.items ≡ length passes.items }
    requires fresh { All IsNewKeeper keepers.old.items }
    requires unused { All (λ keeper. IsNewDoor (G.told keeper.gate)) keepers.old.items }
    requires roles { map role_at keepers.old.items ≡ roles_of shared.now.config.now }
    requires booth { ((⟦<Booth<'a, C, R> as AtBooth<C>>⟧.told booth).config
        ≡ shared.now.config.now)
        × ((work : _) × IsSeated shared.now (length passes.items) work
        (⟦<Booth<'a, C, R> as AtBooth<C>>⟧.told booth).hand) }
    requires room { HaveRoom (length passes.items) piles.old }
    requires empty { ArePiles [] piles.old shared.now.rings.items shared.now.book }
    requires none { piles.old.book.items ≡ [] }
    ensures worked { IfOk result.0 (λ closed. HaveKept G.told G.over G.peer C.told shared.now
        (record { taken = O.taken notes; faults = O.faults notes }) closed.is_torn
        (record { taken = O.taken closed.sink; faults = O.faults closed.sink })
        (map gate_at keepers.old.items) keepers.new.items
        (⟦<Booth<'a, C, R> as AtBooth<C>>⟧.told booth.entry)
        (⟦<Booth<'a, C, R> as AtBooth<C>>⟧.told result.1) piles.new) }
    ensures kept { OnErr result.0 (keepers.new.items ≡ keepers.old.items) }
    ensures waiting { OnErr result.0 (result.1 ≡ booth.entry) }
    ensures known { (⟦<Booth<'a, C, R> as AtBooth<C>>⟧.told result.1).hand.known
        ≡ (⟦<Booth<'a, C, R> as AtBooth<C>>⟧.told booth.entry).hand.known }
    ensures mounts { length piles.new.rings.items ≡ length piles.old.rings.items }
    ensures spare { HaveRoom (length passes.items + 1) piles.old → HaveRoom 1 piles.new }
{
    let mut hands = match sit_all(rt, alloc, shared, passes, keepers) {
        Ok(hands) => hands,
        Err(AllocError) => return (Err(AllocError), booth),
    };
    let Ok((mut posts, mut booths)) = room_for_posts(alloc, hands.len()) else {
        leave_all(hands, piles, keepers);
        return (Err(AllocError), booth);
    };
    take_posts(
        alloc,
        shared.config(),
        shared.table(),
        &mut hands,
        &mut posts,
    );
    posts.push_reserved(Duty::Console(booth));
    let written = write_at_once(rt, alloc, notes, &mut posts);
    leave_posts(posts, &mut hands, &mut booths);
    leave_all(hands, piles, keepers);
    let Some(booth) = booths.pop() else {
        unreachable!()
    };
    booths.destroy_empty();
    (written, booth)
}

/// Sits down with these passes, which are those of all callers, does the work of the keepers at the
/// same places of the list and behind it that of the porter, each in a thread of its own where one
/// can be made, and leaves. Their lines go to this output, which is given back, as the porter is.
/// After a refusal nobody served.
pub(crate) fn keep_at_locks<
    L: Link + Send,
    G: Gate<Link = L> + Send,
    C: Console + Send,
    O: Sink + Drop + Send,
    R: Threads + Wait + Sync,
>(
    rt: &R,
    alloc: Global,
    shared: &Shared,
    mut passes: Vec<Passes>,
    keepers: &mut Vec<Keeper<G>>,
    console: C,
    piles: &mut PassPiles,
    notes: O,
) -> (Result<Closed<O>, AllocError>, Porter<C>)
    requires ready { IsReady shared.now }
    requires passes { (number : ℕ) (pass : _) → get_elem? passes.items number ≡ some pass
        → AreNewPasses number pass shared.now }
    requires some_keeper { 0 < length keepers.old.items }
    requires few { length passes.items < 2 ^ 32 }
    requires size { length keepers.old.items + 1 ≡ length passes.items }
    requires fresh { All IsNewKeeper keepers.old.items }
    requires unused { All (λ keeper. IsNewDoor (G.told keeper.gate)) keepers.old.items }
    requires unheard { IsNewConsole (C.told console) }
    requires roles { map role_at keepers.old.items ≡ roles_of shared.now.config.now }
    requires room { HaveRoom (length passes.items) piles.old }
    requires empty { ArePiles [] piles.old shared.now.rings.items shared.now.book }
    requires none { piles.old.book.items ≡ [] }
    ensures worked { IfOk result.0 (λ closed. HaveWorked G.told G.over G.peer C.told shared.now
        (record { taken = O.taken notes; faults = O.faults notes }) closed.is_torn
        (record { taken = O.taken closed.sink; faults = O.faults closed.sink })
        (map gate_at keepers.old.items) keepers.new.items console result.1 piles.new) }
    ensures kept { OnErr result.0 (keepers.new.items ≡ keepers.old.items) }
    ensures unsaid { OnErr result.0 (result.1 ≡ new_porter console) }
{
    let Some(last) = passes.pop() else {
        unreachable!()
    };
    let number = passes.len() as u32;
    let porter = Porter::new(console);
    let places = match shared.places(rt, alloc, last) {
        Ok(places) => places,
        Err(AllocError) => return (Err(AllocError), porter),
    };
    let hand = SeatedCaller {
        number,
        places,
        work: porter,
    };
    let booth = Booth::new(shared.config(), hand);
    let (written, booth) = keep_at_seats(rt, alloc, shared, passes, keepers, booth, piles, notes);
    let SeatedCaller {
        number: _,
        places,
        work,
    } = booth.into_hand();
    leave(places, piles);
    (written, work)
}
