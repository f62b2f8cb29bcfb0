//! Callers write lines to one output at once.
ghost use Rattle.std.specs.Prelude.{◌≡◌, ◌<◌, ◌≤◌, ◌^◌, ℕ, [], length, vec_capacity, IfOk, OnErr};
ghost use Rattle.std.specs.List.{All};
ghost use mathlib.Core.Option.{some};
ghost use lib.ListN.{get_elem?};
ghost use Rattle.turn_log.specs.Lock.{turn_passes, turn_value};
ghost use Rattle.caster_press.specs.Callers.{HaveLeft, HaveWritten, IsNew};
ghost use Rattle.caster_press.specs.Places.{lock_told};

use crate::callers::{Caller, Writer, call_all, leave_all, sit_all};
use crate::leaving::{Closed, close};
use crate::press::Press;
use cast_io::Sink;
use std::alloc::{AllocError, Global};
use std::sync::Wait;
use std::thread::Threads;
use turn_log::{Pass, Played, Seat, Turn};

/// The lock of a press, the passes of its callers, and room for them as they are given back.
type Opened<O> = (Turn<Press<O>>, Vec<Pass<Press<O>>>, Vec<Pass<Press<O>>>);

/// Opens the lock of a press that writes to this output, for so many callers.
fn open<O: Sink + Drop>(alloc: Global, sink: O, callers: u32) -> Result<Opened<O>, AllocError>
    requires { 0 < callers }
    ensures passes { IfOk result (λ opened. (number : ℕ) (pass : _)
        → get_elem? opened.1.items number ≡ some pass → IsNew number pass opened.0) }
    ensures count { IfOk result (λ opened. length opened.1.items ≡ callers) }
    ensures callers { IfOk result (λ opened. turn_passes opened.0 ≡ callers) }
    ensures pile { IfOk result (λ opened. (opened.2.items ≡ [])
        × (callers ≤ vec_capacity opened.2)) }
    ensures start { IfOk result (λ opened. ⟦<Press<O> as Played>⟧.shape (turn_value opened.0)
        ≡ record { taken = O.taken sink; faults = O.faults sink }) }
{
    let pile = Vec::with_capacity(alloc, callers as usize)?;
    let (press, passes) = Turn::open(alloc, Press::new(sink), callers)?;
    Ok((press, passes, pile))
}

/// Callers sit down with these passes, which are all of this press, each with the work at the same
/// place of the list. Each does its work, in a thread of its own where one can be made, and leaves.
/// Gives their passes back. The lists of callers and of passes are empty, and have room.
fn work_at<'a, O: Sink + Drop + Send, W: Writer, R: Threads + Wait + Sync>(
    rt: &'a R,
    press: &'a Turn<Press<O>>,
    passes: Vec<Pass<Press<O>>>,
    works: &mut Vec<W>,
    mut callers: Vec<Caller<Seat<'a, Press<O>, R>, W>>,
    mut pile: Vec<Pass<Press<O>>>,
) -> Vec<Pass<Press<O>>>
    requires passes { (number : ℕ) (pass : _) → get_elem? passes.items number ≡ some pass
        → IsNew number pass press.now }
    requires some_pass { 0 < length passes.items }
    requires few { length passes.items < 2 ^ 32 }
    requires size { length works.old.items ≡ length passes.items }
    requires ready { All W.ready works.old.items }
    requires empty { (callers.items ≡ []) × (pile.items ≡ []) }
    requires room { length passes.items ≤ vec_capacity callers }
    requires pile_room { length passes.items ≤ vec_capacity pile }
    ensures left { HaveLeft W.wrote (lock_told ⟦<Press<O> as Played>⟧.shape press.now)
        works.old.items works.new.items result.items }
    ensures count { length result.items ≡ length passes.items }
{
    sit_all(rt, press, passes, works, &mut callers);
    call_all(rt, &mut callers);
    leave_all(callers, &mut pile, works);
    pile
}

/// Makes the list of callers, who then do their work at the press. After a refusal nobody did
/// anything.
fn work_all<O: Sink + Drop + Send, W: Writer, R: Threads + Wait + Sync>(
    rt: &R,
    alloc: Global,
    press: &Turn<Press<O>>,
    passes: Vec<Pass<Press<O>>>,
    works: &mut Vec<W>,
    pile: Vec<Pass<Press<O>>>,
) -> Result<Vec<Pass<Press<O>>>, AllocError>
    requires passes { (number : ℕ) (pass : _) → get_elem? passes.items number ≡ some pass
        → IsNew number pass press.now }
    requires some_pass { 0 < length passes.items }
    requires few { length passes.items < 2 ^ 32 }
    requires size { length works.old.items ≡ length passes.items }
    requires ready { All W.ready works.old.items }
    requires empty { pile.items ≡ [] }
    requires room { length passes.items ≤ vec_capacity pile }
    ensures left { IfOk result (λ pile. HaveLeft W.wrote
        (lock_told ⟦<Press<O> as Played>⟧.shape press.now) works.old.items works.new.items
        pile.items) }
    ensures count { IfOk result (λ pile. length pile.items ≡ length passes.items) }
    ensures kept { OnErr result (works.new.items ≡ works.old.items) }
{
    let callers = Vec::with_capacity(alloc, passes.len())?;
    Ok(work_at(rt, press, passes, works, callers, pile))
}

/// Callers do their work at the press, which is closed then. After a refusal nobody did anything.
fn work_and_close<O: Sink + Drop + Send, W: Writer, R: Threads + Wait + Sync>(
    rt: &R,
    alloc: Global,
    press: Turn<Press<O>>,
    passes: Vec<Pass<Press<O>>>,
    works: &mut Vec<W>,
    pile: Vec<Pass<Press<O>>>,
) -> Result<Closed<O>, AllocError>
    requires passes { (number : ℕ) (pass : _) → get_elem? passes.items number ≡ some pass
        → IsNew number pass press }
    requires all { length passes.items ≡ turn_passes press }
    requires some_pass { 0 < length passes.items }
    requires few { length passes.items < 2 ^ 32 }
    requires size { length works.old.items ≡ length passes.items }
    requires ready { All W.ready works.old.items }
    requires empty { pile.items ≡ [] }
    requires room { length passes.items ≤ vec_capacity pile }
    ensures written { IfOk result (λ closed. HaveWritten W.wrote
        (⟦<Press<O> as Played>⟧.shape (turn_value press)) closed.is_torn (O.taken closed.sink)
        (O.faults closed.sink) works.old.items works.new.items) }
    ensures kept { OnErr result (works.new.items ≡ works.old.items) }
{
    let pile = work_all(rt, alloc, &press, passes, works, pile)?;
    Ok(close(press, pile))
}

/// Each of these works writes its lines to this one output, in a thread of its own where one can be
/// made, as the caller of its number, from 0.
///
/// The text is the lines of all of them, each line whole and each work's lines in its order. After
/// a refusal nothing was written.
pub fn write_at_once<O: Sink + Drop + Send, W: Writer, R: Threads + Wait + Sync>(
    rt: &R,
    alloc: Global,
    sink: O,
    works: &mut Vec<W>,
) -> Result<Closed<O>, AllocError>
    requires some { 0 < length works.old.items }
    requires few { length works.old.items < 2 ^ 32 }
    requires ready { All W.ready works.old.items }
    ensures written { IfOk result (λ closed. HaveWritten W.wrote
        (record { taken = O.taken sink; faults = O.faults sink }) closed.is_torn
        (O.taken closed.sink) (O.faults closed.sink) works.old.items works.new.items) }
    ensures kept { OnErr result (works.new.items ≡ works.old.items) }
{
    let (press, passes, pile) = open(alloc, sink, works.len() as u32)?;
    work_and_close(rt, alloc, press, passes, works, pile)
}
