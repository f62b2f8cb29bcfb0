//! Callers at a press, each with its work, in threads of their own.
ghost use Rattle.std.specs.Prelude.{◌≡◌, ◌<◌, ◌≤◌, ◌+◌, ◌^◌, ◌++◌, ℕ, [], List, length, map, slice_index_or, vec_len, vec_capacity};
ghost use Rattle.std.specs.List.{All};
ghost use mathlib.Core.Option.{some};
ghost use lib.ListN.{get_elem?};
ghost use Rattle.caster_press.specs.Callers.{AreCallers, AreNewCallers, HasCalled, HaveCalled, IsNew, MayCall, rows_of};
ghost use Rattle.caster_press.specs.Piles.{IsPile};
ghost use Rattle.caster_press.specs.Places.{LockTold, lock_told};

use crate::leaving::{leave, sit};
use crate::place::AtPress;
use crate::press::Press;
use cast_io::Sink;
use std::sync::Wait;
use std::thread::{self, Threads};
use turn_log::{Pass, Played, Seat, Turn};

/// The work of a caller at a press: it puts lines.
pub trait Writer: Send {
    ghost use Rattle.std.specs.Prelude.{IsTrue, List};
    ghost use Rattle.caster_press.specs.declared.line.Line.{Line as LineValue};
    ghost use Rattle.caster_press.specs.Places.{HasPut, IsSamePlace};

    /// It may begin.
    ghost ready: { Self → Type 0 };

    /// What it does, from before to after, by the lines that it puts, in order.
    ghost wrote: { Self → Self → List LineValue → Type 0 };

    /// Puts lines at this place, as the caller `me`.
    fn write<P: AtPress, R: Wait>(&mut self, rt: &R, place: &mut P, me: u32)
        requires speaks { IsTrue ((P.told place.old).speaks me) }
        requires ready { ready self.old }
        ensures same { IsSamePlace (P.told place.old) (P.told place.new) }
        ensures wrote { (lines : List LineValue)
            × HasPut me lines (P.told place.old).seen (P.told place.new).seen
            × wrote self.old self.new lines };
}

/// A caller at a press: its number, its place, and its work.
pub(crate) struct Caller<P, W> {
    number: u32,
    place: P,
    work: W,
}

/// What calls in a thread of its own.
pub(crate) trait Calls: Send {
    ghost use Rattle.caster_press.specs.Callers.{CallerTold, HasCalled, MayCall};

    /// What is told of it.
    ghost told: { Self → CallerTold };

    /// Its work may begin.
    ghost ready: { Self → Type 0 };

    /// What its work does, from before to after.
    ghost wrote: { Self → Self → Type 0 };

    /// Does its work.
    fn call<R: Wait>(&mut self, rt: &R)
        requires may { MayCall (told self.old) }
        requires ready { ready self.old }
        ensures called { HasCalled (told self.old) (told self.new) }
        ensures wrote { wrote self.old self.new };
}

impl<P: AtPress + Send, W: Writer> Calls for Caller<P, W> {
    ghost use Rattle.caster_press.specs.Callers.{caller_told, lines_put};

    ghost told = { λ caller. caller_told caller.number (P.told caller.place) };

    ghost ready = { λ caller. W.ready caller.work };

    ghost wrote = { λ old new. W.wrote old.work new.work
        (lines_put (caller_told new.number (P.told new.place))) };

    fn call<R: Wait>(&mut self, rt: &R) {
        let me = self.number;
        self.work.write(rt, &mut self.place, me);
    }
}

/// Each of these does its work, in a thread of its own where one can be made.
fn call_each<H: Calls, R: Threads + Wait + Sync>(rt: &R, callers: &mut [H])
    requires some { 0 < length callers.old }
    requires fit { All (λ caller. MayCall (H.told caller) × H.ready caller) callers.old }
    ensures size { length callers.new ≡ length callers.old }
    ensures each { (k : ℕ) (d : _) → k < length callers.old
        → HasCalled (H.told (slice_index_or callers.old k d))
        (H.told (slice_index_or callers.new k d)) }
    ensures wrote { (k : ℕ) (d : _) → k < length callers.old
        → H.wrote (slice_index_or callers.old k d) (slice_index_or callers.new k d) }
{
    let count = callers.len();
    thread::for_each_mut(
        rt,
        callers,
        count,
        &|_, caller: &mut H|
            requires { MayCall (H.told caller.now) × H.ready caller.now }
        { caller.call(rt) },
    );
}

/// Each caller at the seats of a press does its work, in a thread where one can be made.
pub(crate) fn call_all<'a, O: Sink + Drop + Send, W: Writer, R: Threads + Wait + Sync>(
    rt: &R,
    callers: &mut Vec<Caller<Seat<'a, Press<O>, R>, W>>,
)
    requires some { 0 < length callers.old.items }
    requires fit { All MayCall
        (map ⟦<Caller<Seat<'a, Press<O>, R>, W> as Calls>⟧.told callers.old.items) }
    requires ready { All ⟦<Caller<Seat<'a, Press<O>, R>, W> as Calls>⟧.ready callers.old.items }
    ensures size { length callers.new.items ≡ length callers.old.items }
    ensures called { HaveCalled
        (map ⟦<Caller<Seat<'a, Press<O>, R>, W> as Calls>⟧.told callers.old.items)
        (map ⟦<Caller<Seat<'a, Press<O>, R>, W> as Calls>⟧.told callers.new.items) }
    ensures wrote { (k : ℕ) (old new : _) → get_elem? callers.old.items k ≡ some old
        → get_elem? callers.new.items k ≡ some new
        → ⟦<Caller<Seat<'a, Press<O>, R>, W> as Calls>⟧.wrote old new }
{
    call_each(rt, callers.as_mut_slice());
}

/// Sits down with each of these passes, which are numbered from 0, behind those who sat down
/// before, and takes the work at the same place of the list. None of them has put a line.
pub(crate) fn sit_all<'a, O: Sink + Drop + Send, W: Writer, R: Threads + Wait + Sync>(
    rt: &'a R,
    press: &'a Turn<Press<O>>,
    mut passes: Vec<Pass<Press<O>>>,
    works: &mut Vec<W>,
    callers: &mut Vec<Caller<Seat<'a, Press<O>, R>, W>>,
)
    requires passes { (number : ℕ) (pass : _) → get_elem? passes.items number ≡ some pass
        → IsNew number pass press.now }
    requires few { length passes.items < 2 ^ 32 }
    requires size { length works.old.items ≡ length passes.items }
    requires room { vec_len callers.old + length passes.items ≤ vec_capacity callers.old }
    ensures callers { (more : List _) × (callers.new.items ≡ callers.old.items ++ more)
        × AreNewCallers 0 (map ⟦<Caller<Seat<'a, Press<O>, R>, W> as Calls>⟧.told more)
        (lock_told ⟦<Press<O> as Played>⟧.shape press.now)
        × (works.old.items ≡ map (λ caller. caller.work) more) }
    ensures taken { works.new.items ≡ [] }
    ensures space { vec_capacity works.old ≤ vec_capacity works.new }
    ensures count { vec_len callers.new ≡ vec_len callers.old + length passes.items }
    ensures capacity { vec_capacity callers.old ≤ vec_capacity callers.new }
{
    let Some(pass) = passes.pop() else {
        return;
    };
    let Some(work) = works.pop() else {
        unreachable!()
    };
    let number = passes.len() as u32;
    sit_all(rt, press, passes, works, callers);
    callers.push_reserved(Caller {
        number,
        place: sit(rt, press, pass),
        work,
    });
}

/// Takes all of these callers from their seats. Their passes go to the pile, and their works to the
/// list, in order.
pub(crate) fn leave_all<'a, O: Sink + Drop + Send, W: Writer, R: Wait + Sync>(
    mut callers: Vec<Caller<Seat<'a, Press<O>, R>, W>>,
    pile: &mut Vec<Pass<Press<O>>>,
    works: &mut Vec<W>,
)
    requires room { vec_len works.old + length callers.items ≤ vec_capacity works.old }
    requires spare { vec_len pile.old + length callers.items ≤ vec_capacity pile.old }
    ensures works { works.new.items
        ≡ works.old.items ++ map (λ caller. caller.work) callers.entry.items }
    ensures left { (lock : LockTold) → pile.old.items ≡ []
        → AreCallers 0 (map ⟦<Caller<Seat<'a, Press<O>, R>, W> as Calls>⟧.told callers.entry.items)
        lock
        → IsPile (rows_of (map ⟦<Caller<Seat<'a, Press<O>, R>, W> as Calls>⟧.told
        callers.entry.items)) pile.new.items lock }
    ensures count { vec_len works.new ≡ vec_len works.old + length callers.entry.items }
    ensures capacity { vec_capacity works.old ≤ vec_capacity works.new }
    ensures passes { vec_len pile.new ≡ vec_len pile.old + length callers.entry.items }
    ensures pile_space { vec_capacity pile.old ≤ vec_capacity pile.new }
{
    let Some(last) = callers.pop() else {
        callers.destroy_empty();
        return;
    };
    leave_all(callers, pile, works);
    let Caller {
        number: _,
        place,
        work,
    } = last;
    leave(place, pile);
    works.push_reserved(work);
}
