//! The book behind the lock, by two threads.
ghost use Rattle.std.specs.Prelude.{◌≡◌, ◌<◌, [], length, IsTrue, IfOk};
ghost use Rattle.caster_accounts.specs.Kept.{caps_of};
ghost use Rattle.turn_log.specs.Turn.{SamePlace};
ghost use Rattle.turn_log.specs.Lock.{turn_passes, turn_value, pass_number, IsPassOf};

use crate::desks::expect_eq;
use caster_accounts::{Book, BookAnswer, BookCall, Sum};
use std::alloc::{AllocError, Global};
use std::sync::Wait;
use std::test::Fail;
use std::thread::{Threads, join};
use turn_log::{Pass, Played, Turn, TurnFault, Turns};

// One session of account 0, of two turns, at any place.
fn visit<T: Turns<Book>>(place: &mut T, me: u32, sent: u64) -> Result<BookAnswer, TurnFault>
    requires speaks { IsTrue (T.speaks place.old me) }
    requires account { 0 < length (T.shape place.old) }
    ensures same { SamePlace T.shape T.speaks T.may_lack T.alone T.home place.old place.new }
{
    let BookAnswer::Entered = place.turn(me, BookCall::Enter(0), &mut ())? else {
        return Ok(BookAnswer::Left);
    };
    let leaves = BookCall::Leave {
        account: 0,
        sent,
        overrun: 1,
    };
    place.turn(me, leaves, &mut ())
}

// As many sessions of account 0, one after another.
fn visit_often<R: Wait + Sync>(
    turn: &Turn<Book>,
    rt: &R,
    pass: Pass<Book>,
    me: u32,
    sent: u64,
    sessions: u32,
) -> Pass<Book>
    requires pass { IsPassOf pass turn.now }
    requires me { pass_number pass ≡ me }
    requires account { 0 < length (caps_of (turn_value turn.now)) }
    ensures { IsPassOf result turn.now }
{
    let mut seat = turn.seat(rt, pass);
    for _ in 0..sessions {
        let _left = visit(&mut seat, me, sent);
    }
    seat.leave()
}

// Two threads with one pass each.
fn visit_both<R: Threads + Wait + Sync>(
    turn: &Turn<Book>,
    rt: &R,
    first: Pass<Book>,
    second: Pass<Book>,
) -> (Pass<Book>, Pass<Book>)
    requires first { IsPassOf first turn.now × (pass_number first ≡ 0) }
    requires second { IsPassOf second turn.now × (pass_number second ≡ 1) }
    requires account { 0 < length (caps_of (turn_value turn.now)) }
    ensures first { IsPassOf result.0 turn.now }
    ensures second { IsPassOf result.1 turn.now }
{
    join(
        rt,
        move ||
            requires { IsPassOf first turn.now × (pass_number first ≡ 0)
                × (0 < length (caps_of (turn_value turn.now))) }
            ensures { IsPassOf result turn.entry.now }
        { visit_often(turn, rt, first, 0, 3, 500) },
        move ||
            requires { IsPassOf second turn.now × (pass_number second ≡ 1)
                × (0 < length (caps_of (turn_value turn.now))) }
            ensures { IsPassOf result turn.entry.now }
        { visit_often(turn, rt, second, 1, 5, 500) },
    )
}

// A lock with two passes.
fn open_two<V: Played + Drop>(
    alloc: Global,
    value: V,
) -> Result<(Turn<V>, Pass<V>, Pass<V>), AllocError>
    requires { V.stands value [] }
    ensures first { IfOk result (λ opened.
        IsPassOf opened.1 opened.0 × (pass_number opened.1 ≡ 0)) }
    ensures second { IfOk result (λ opened.
        IsPassOf opened.2 opened.0 × (pass_number opened.2 ≡ 1)) }
    ensures passes { IfOk result (λ opened. turn_passes opened.0 ≡ 2) }
    ensures shape { IfOk result (λ opened. V.shape (turn_value opened.0) ≡ V.shape value) }
{
    let (turn, mut passes) = Turn::open(alloc, value, 2)?;
    let Some(second) = passes.pop() else {
        unreachable!()
    };
    let Some(first) = passes.pop() else {
        unreachable!()
    };
    Ok((turn, first, second))
}

// Closes such a lock.
fn close_two<V: Played + Drop>(
    alloc: Global,
    turn: Turn<V>,
    first: Pass<V>,
    second: Pass<V>,
) -> Result<V, AllocError>
    requires first { IsPassOf first turn }
    requires second { IsPassOf second turn }
    requires passes { turn_passes turn ≡ 2 }
    ensures shape { IfOk result (λ value. V.shape value ≡ V.shape (turn_value turn)) }
{
    let passes = Vec::from_array(alloc, [first, second])?;
    Ok(turn.close(passes))
}

// What 500 sessions of each of two threads add up to.
fn sum_of_both<R: Threads + Wait + Sync>(alloc: Global, rt: &R) -> Result<Sum, Fail> {
    let book = Book::new(alloc, &[2])?;
    let (turn, first, second) = open_two(alloc, book)?;
    let (first, second) = visit_both(&turn, rt, first, second);
    Ok(close_two(alloc, turn, first, second)?.total(0))
}

#[test]
fn two_threads_add_up_a_thousand_turns_each(rt: HostRuntime) -> Result<(), Fail> {
    // 500 sessions of 3 frames and 500 of 5, each with one overrun.
    let sum = Sum {
        sessions: 1000,
        sent: 4000,
        overrun: 1000,
    };
    expect_eq(&rt, sum_of_both(rt.alloc(), &rt)?, sum);
    Ok(())
}
