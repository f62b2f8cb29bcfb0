//! A whole caster that keeps serving, from the opening of its gates to its totals.

ghost use Rattle.std.specs.Prelude.{◌≡◌, ◌<◌, ◌≤◌, ◌+◌, ◌^◌, ℕ, [], ◌∷◌, length, map, IfOk};
ghost use Rattle.std.specs.List.{All};
ghost use Rattle.cast_config.specs.Kept.{KeepsRules};
ghost use Rattle.cast_io.specs.Doors.{IsNewDoor};
ghost use Rattle.cast_io.specs.Yards.{AreNewNotes};
ghost use Rattle.cast_io.specs.declared.yard_asked.YardAsked.TheVariants as asked;
ghost use Rattle.caster_keep.specs.Gates.{roles_of};
ghost use Rattle.caster_keep.specs.Keeping.{Answered, HasKept};
ghost use Rattle.caster_keep.specs.Together.{IsNewKeeper, IsPrepared, role_at};

use crate::gates::{ask_gates, give_back};
use crate::keeper::Keeper;
use crate::locks::keep_at_locks;
use crate::porter::Porter;
use crate::stop::Stop;
use crate::totals::{first_stop, write_totals};
use cast_config::Config;
use cast_console::{Console, Lodge};
use cast_io::{Door, Gate, Sink, Street, StreetFault, Yard};
use caster_places::{PassPiles, Totals};
use caster_seats::{Passes, Shared};
use session_core::Closed;
use session_text::room_for_closed;
use std::alloc::{AllocError, Global};
use std::sync::Wait;
use std::thread::Threads;
use thiserror::Error;

/// The outcome of a caster that kept serving until its gates were over.
#[derive(Drop)]
pub struct Outcome {
    /// The totals of its mountpoints and accounts.
    pub closed: Closed,
    /// Why the first of its callers stopped that did not stop since its gate was over; or `Over`.
    pub stop: Stop,
    /// Whether a write failed, so that some first part of the text was written, and not all of it.
    pub is_torn: bool,
}

/// Why a caster did not begin to serve.
#[derive(Clone, Copy, Debug, PartialEq, Eq, Error)]
pub enum KeepFault {
    /// A gate could not be opened or made, or there was no place for lines.
    #[error("network fault")]
    Network,
    /// No memory was left before the first caller started.
    #[error("out of memory")]
    Memory,
}

impl From<StreetFault> for KeepFault {
    ghost use Rattle.caster_keep.specs.Together.{fault_of};

    ghost from_gives = { λ fault result. result ≡ fault_of fault };

    fn from(fault: StreetFault) -> KeepFault {
        match fault {
            StreetFault::Failed => KeepFault::Network,
            StreetFault::Memory => KeepFault::Memory,
        }
    }
}

/// What a caster needs before its first caller starts: its locks with the passes of all callers,
/// room for what comes back, and room for the text of its totals.
#[derive(Drop)]
struct Ready<'c> {
    shared: Shared<'c>,
    passes: Vec<Passes>,
    piles: PassPiles,
    totals: Totals,
    text: Vec<u8>,
}

/// Takes all memory that is needed beside that of the callers' seats.
fn prepare<'c>(alloc: Global, config: &'c Config, callers: u32) -> Result<Ready<'c>, AllocError>
    requires kept { (cap : ℕ) × KeepsRules cap config.now }
    requires some_caller { 0 < callers }
    ensures config { IfOk result (λ ready. ready.shared.config.now ≡ config.now) }
    ensures prepared { IfOk result (IsPrepared callers) }
{
    let (shared, passes) = Shared::new(alloc, config, callers)?;
    let piles = PassPiles::with_room(alloc, config.mount.as_slice().len(), callers)?;
    let totals = Totals::with_room(alloc, config)?;
    let text = room_for_closed(alloc, config)?;
    Ok(Ready {
        shared,
        passes,
        piles,
        totals,
        text,
    })
}

/// All keepers serve until they stop, and the porter waits beside them at a console of the lodge,
/// the lines of all going to these notes; the gates and the console are given back then, the locks
/// are closed, and behind the lines the totals are written.
fn keep_ready<Y: Yard, Z: Lodge, R: Threads + Wait + Sync>(
    rt: &R,
    alloc: Global,
    ready: Ready,
    mut keepers: Vec<Keeper<Y::Gate>>,
    notes: Y::Notes,
    yard: &mut Y,
    lodge: &mut Z,
) -> Result<Outcome, KeepFault>
where
    Y::Link: Send,
    Y::Gate: Send,
    Y::Notes: Drop + Send,
    Z::Console: Send,
    requires prepared { IsPrepared (length keepers.items + 1) ready }
    requires some_keeper { 0 < length keepers.items }
    requires few { length keepers.items + 1 < 2 ^ 32 }
    requires roles { map role_at keepers.items ≡ roles_of ready.shared.config.now }
    requires fresh { All IsNewKeeper keepers.items }
    requires unused { All (λ keeper. IsNewDoor (Y.Gate.told keeper.gate)) keepers.items }
    requires untaken { AreNewNotes
        (record { taken = Y.Notes.taken notes; faults = Y.Notes.faults notes }) }
    ensures later { (Y.kept yard.old).faults ≤ (Y.kept yard.new).faults }
    ensures answered { Answered Y.Gate.told Y.Gate.over Y.Gate.peer Y.Gate.origin Y.Notes.taken
        Y.Notes.faults (Z.back lodge.old) (Z.back lodge.new) ready.entry.shared.config.now
        (map (λ keeper. Y.Gate.origin keeper.gate) keepers.items) [] (Y.kept yard.old)
        (Y.kept yard.new) result }
    ensures street { Y.told yard.new ≡ Y.told yard.old }
{
    let Ready {
        shared,
        passes,
        mut piles,
        totals,
        text,
    } = ready;
    let (written, porter) = keep_at_locks(
        rt,
        alloc,
        &shared,
        passes,
        &mut keepers,
        lodge.console(),
        &mut piles,
        notes,
    );
    let stop = first_stop(&keepers);
    give_back(yard, keepers);
    let Porter { console } = porter;
    lodge.take_console(console);
    let Ok(pressed) = written else {
        drop(shared);
        drop(piles);
        drop(totals);
        drop(text);
        return Err(KeepFault::Memory);
    };
    let config = shared.config();
    let closed = shared.close(piles, totals);
    let (notes, is_torn) = write_totals(config, &closed, text, pressed);
    yard.take_notes(notes);
    Ok(Outcome {
        closed,
        stop,
        is_torn,
    })
}

/// Keeps serving at these gates, which are all that a caster asks for. Where memory or a place for
/// lines is lacking, the gates are given back as they came.
fn keep_given<Y: Yard, Z: Lodge, R: Threads + Wait + Sync>(
    rt: &R,
    alloc: Global,
    config: &Config,
    keepers: Vec<Keeper<Y::Gate>>,
    yard: &mut Y,
    lodge: &mut Z,
) -> Result<Outcome, KeepFault>
where
    Y::Link: Send,
    Y::Gate: Send,
    Y::Notes: Drop + Send,
    Z::Console: Send,
    requires kept { (cap : ℕ) × KeepsRules cap config.now }
    requires roles { map role_at keepers.items ≡ roles_of config.now }
    requires fresh { All IsNewKeeper keepers.items }
    requires unused { All (λ keeper. IsNewDoor (Y.Gate.told keeper.gate)) keepers.items }
    ensures later { (Y.kept yard.old).faults ≤ (Y.kept yard.new).faults }
    ensures answered { Answered Y.Gate.told Y.Gate.over Y.Gate.peer Y.Gate.origin Y.Notes.taken
        Y.Notes.faults (Z.back lodge.old) (Z.back lodge.new) config.now
        (map (λ keeper. Y.Gate.origin keeper.gate) keepers.items) (asked.Notes ∷ [])
        (Y.kept yard.old) (Y.kept yard.new) result }
    ensures street { Y.told yard.new ≡ Y.told yard.old }
{
    let Ok(ready) = prepare(alloc, config, keepers.len() as u32 + 1) else {
        give_back(yard, keepers);
        return Err(KeepFault::Memory);
    };
    match yard.notes() {
        Ok(notes) => keep_ready(rt, alloc, ready, keepers, notes, yard, lodge),
        Err(fault) => {
            drop(ready);
            give_back(yard, keepers);
            Err(KeepFault::from(fault))
        }
    }
}

/// Keeps serving: opens a gate for each worker at this address, makes one to the peer of each relay
/// and a place for lines, in this order; then all callers serve side by side, each the links of its
/// gate until the gate is over or fails. The lines of each link go to the one place for lines as
/// they become known. Beside them a porter waits at a console of the lodge until nothing is wanted
/// there any more, and puts lines that say how things stand each time that this is wanted. Then the
/// gates are shut, the console is given back, the locks are closed, the totals are written behind
/// the lines, and the place for lines is given back.
///
/// A caller that served 2^62 links waits for ever, and so does each that puts a line where 2^62 were
/// put.
///
/// `quiet` is the number of seconds after which a link is to be cut that gave no byte and took
/// none, 0 for never: the yard is asked for that.
///
/// # Errors
/// `Network` only where the yard's count of faults rose, and `Memory` at any time, both before the
/// first caller starts: nobody served, and no line was written.
pub fn keep<Y: Yard, Z: Lodge, R: Threads + Wait + Sync>(
    rt: &R,
    alloc: Global,
    config: &Config,
    addr: &str,
    quiet: u32,
    yard: &mut Y,
    lodge: &mut Z,
) -> Result<Outcome, KeepFault>
where
    Y::Link: Send,
    Y::Gate: Send,
    Y::Notes: Drop + Send,
    Z::Console: Send,
    requires kept { (cap : ℕ) × KeepsRules cap config.now }
    ensures kept { HasKept Y.Gate.told Y.Gate.over Y.Gate.peer Y.Gate.origin Y.Notes.taken
        Y.Notes.faults (Z.back lodge.old) (Z.back lodge.new) config.now addr.now quiet
        (Y.kept yard.old) (Y.kept yard.new) result }
    ensures street { Y.told yard.new ≡ Y.told yard.old }
{
    let callers = config.workers + config.relay.as_slice().len() as u32;
    let Ok(mut keepers) = Vec::with_capacity(alloc, callers as usize) else {
        return Err(KeepFault::Memory);
    };
    match ask_gates(config, addr, quiet, yard, &mut keepers) {
        Ok(()) => keep_given(rt, alloc, config, keepers, yard, lodge),
        Err(fault) => {
            give_back(yard, keepers);
            Err(KeepFault::from(fault))
        }
    }
}
