//! The book at a desk, by its public calls.
ghost use Rattle.std.specs.Prelude.{◌≡◌, ◌≢◌, ℕ, ◌<◌, length, IsTrue, IfOk};
ghost use Rattle.caster_accounts.specs.History.{may_leave};
ghost use Rattle.caster_accounts.specs.declared.call.BookAnswer.TheVariants.{Entered};

use crate::desks::expect_eq;
use caster_accounts::{Book, BookAnswer, BookCall, Sum};
use std::alloc::Global;
use std::test::Fail;
use turn_log::{Desk, Played, TurnFault, Turns};

// What a session is answered.
type Answer = Result<BookAnswer, TurnFault>;

// A session asks to enter. Who may leave still may, and so may one that has entered.
fn enter(desk: &mut Desk<Book>, me: u32, account: u32) -> Answer
    requires { account < length (⟦<Desk<Book> as Turns<Book>>⟧.shape desk.old) }
    ensures shape { ⟦<Desk<Book> as Turns<Book>>⟧.shape desk.new
        ≡ ⟦<Desk<Book> as Turns<Book>>⟧.shape desk.old }
    ensures entered { let book = ⟦<Desk<Book> as Turns<Book>>⟧ in
        IfOk result (λ answer. answer ≡ Entered
        → IsTrue (may_leave (book.shape desk.new) (book.seen desk.new) me account)) }
    ensures stays { let book = ⟦<Desk<Book> as Turns<Book>>⟧ in
        (by place : ℕ) → IsTrue (may_leave (book.shape desk.old) (book.seen desk.old) by place)
        → IsTrue (may_leave (book.shape desk.new) (book.seen desk.new) by place) }
{
    desk.turn(me, BookCall::Enter(account), &mut ())
}

// A session leaves. Every other caller still may.
fn leave(desk: &mut Desk<Book>, me: u32, account: u32, sent: u64, overrun: u64) -> Answer
    requires { let book = ⟦<Desk<Book> as Turns<Book>>⟧ in
        IsTrue (may_leave (book.shape desk.old) (book.seen desk.old) me account) }
    ensures shape { ⟦<Desk<Book> as Turns<Book>>⟧.shape desk.new
        ≡ ⟦<Desk<Book> as Turns<Book>>⟧.shape desk.old }
    ensures stays { let book = ⟦<Desk<Book> as Turns<Book>>⟧ in
        (by place : ℕ) → by ≢ me
        → IsTrue (may_leave (book.shape desk.old) (book.seen desk.old) by place)
        → IsTrue (may_leave (book.shape desk.new) (book.seen desk.new) by place) }
{
    let call = BookCall::Leave {
        account,
        sent,
        overrun,
    };
    desk.turn(me, call, &mut ())
}

// An account of so many sessions is full: so many of them are open.
fn full(busy: u32) -> Answer {
    Ok(BookAnswer::Full { busy, cap: busy })
}

fn sum(sessions: u64, sent: u128, overrun: u128) -> Sum {
    Sum {
        sessions,
        sent,
        overrun,
    }
}

// A book of these caps, whose account of this number caller 1 entered.
fn entered_desk(alloc: Global, caps: &[u32], account: u32) -> Result<Desk<Book>, Fail>
    requires { account < length caps.now }
    ensures shape { IfOk result (λ desk.
        ⟦<Desk<Book> as Turns<Book>>⟧.shape desk ≡ caps.now) }
    ensures entered { let book = ⟦<Desk<Book> as Turns<Book>>⟧ in IfOk result (λ desk.
        IsTrue (may_leave (book.shape desk) (book.seen desk) 1 account)) }
{
    let mut desk = Desk::new(Book::new(alloc, caps)?);
    let Ok(BookAnswer::Entered) = enter(&mut desk, 1, account) else {
        return Err(Fail::from("the account is full"));
    };
    Ok(desk)
}

// What two sessions of an account of cap 0 are answered, and its sum.
fn answers_of_cap_0(alloc: Global) -> Result<([Answer; 2], Sum), Fail> {
    let mut desk = Desk::new(Book::new(alloc, &[0])?);
    let first = enter(&mut desk, 1, 0);
    let second = enter(&mut desk, 1, 0);
    Ok(([first, second], desk.value().total(0)))
}

#[test]
fn an_account_of_cap_0_is_always_full(rt: HostRuntime) -> Result<(), Fail> {
    let told = ([full(0), full(0)], sum(0, 0, 0));
    expect_eq(&rt, answers_of_cap_0(rt.alloc())?, told);
    Ok(())
}

// Caller 1 has the only session of the account. What caller 2 is answered then; caller 1, who
// leaves; caller 2 again; caller 1, who comes back; and the sum.
fn answers_of_cap_1(alloc: Global) -> Result<([Answer; 4], Sum), Fail> {
    let mut desk = entered_desk(alloc, &[1], 0)?;
    let second = enter(&mut desk, 2, 0);
    let leaves = leave(&mut desk, 1, 0, 10, 2);
    let again = enter(&mut desk, 2, 0);
    let back = enter(&mut desk, 1, 0);
    Ok(([second, leaves, again, back], desk.value().total(0)))
}

#[test]
fn who_leaves_makes_room(rt: HostRuntime) -> Result<(), Fail> {
    let answers = [
        full(1),
        Ok(BookAnswer::Left),
        Ok(BookAnswer::Entered),
        full(1),
    ];
    let told = (answers, sum(1, 10, 2));
    expect_eq(&rt, answers_of_cap_1(rt.alloc())?, told);
    Ok(())
}

// Caller 1 has a session of the second account. What it is answered when it asks twice for one of
// the first, and twice for one more of the second.
fn ask_for_both(desk: &mut Desk<Book>) -> [Answer; 4]
    requires { length (⟦<Desk<Book> as Turns<Book>>⟧.shape desk.old) ≡ 2 }
    ensures shape { ⟦<Desk<Book> as Turns<Book>>⟧.shape desk.new
        ≡ ⟦<Desk<Book> as Turns<Book>>⟧.shape desk.old }
    ensures stays { let book = ⟦<Desk<Book> as Turns<Book>>⟧ in
        (by place : ℕ) → IsTrue (may_leave (book.shape desk.old) (book.seen desk.old) by place)
        → IsTrue (may_leave (book.shape desk.new) (book.seen desk.new) by place) }
{
    let first = enter(desk, 1, 0);
    let more = enter(desk, 1, 0);
    let second = enter(desk, 1, 1);
    let most = enter(desk, 1, 1);
    [first, more, second, most]
}

// What these are answered; caller 1, who leaves the second account; caller 2, who asks for the
// first; and the sums of both accounts and of all.
fn answers_of_two(alloc: Global) -> Result<([Answer; 4], [Answer; 2], [Sum; 3]), Fail> {
    let mut desk = entered_desk(alloc, &[1, 2], 1)?;
    let asked = ask_for_both(&mut desk);
    let leaves = leave(&mut desk, 1, 1, 5, 0);
    let second = enter(&mut desk, 2, 0);
    let book = desk.value();
    let sums = [book.total(0), book.total(1), book.total_of_all()];
    Ok((asked, [leaves, second], sums))
}

#[test]
fn accounts_do_not_touch_each_other(rt: HostRuntime) -> Result<(), Fail> {
    let (asked, then, sums) = answers_of_two(rt.alloc())?;
    let entered = Ok(BookAnswer::Entered);
    expect_eq(&rt, asked, [entered, full(1), entered, full(2)]);
    expect_eq(&rt, then, [Ok(BookAnswer::Left), full(1)]);
    expect_eq(&rt, sums, [sum(0, 0, 0), sum(1, 5, 0), sum(1, 5, 0)]);
    Ok(())
}

// What callers 1 and 2 are answered, who leave an account with the most frames, and its sum.
fn answers_of_cap_2(alloc: Global) -> Result<([Answer; 2], Sum), Fail> {
    let mut desk = entered_desk(alloc, &[2], 0)?;
    let Ok(BookAnswer::Entered) = enter(&mut desk, 2, 0) else {
        return Err(Fail::from("the account is full"));
    };
    let first = leave(&mut desk, 1, 0, u64::MAX, 3);
    let second = leave(&mut desk, 2, 0, u64::MAX, 4);
    Ok(([first, second], desk.value().total(0)))
}

#[test]
fn sums_are_of_all_callers(rt: HostRuntime) -> Result<(), Fail> {
    let left = [Ok(BookAnswer::Left), Ok(BookAnswer::Left)];
    let told = (left, sum(2, 2 * u128::from(u64::MAX), 7));
    expect_eq(&rt, answers_of_cap_2(rt.alloc())?, told);
    Ok(())
}

// A session enters each of 1024 accounts of cap 1. What another is answered then that asks for the
// last and the first of them.
fn answers_of_many(alloc: Global) -> Result<[Answer; 2], Fail> {
    let caps = [1; 1024];
    let mut desk = Desk::new(Book::new(alloc, &caps)?);
    for account in 0..1024 {
        let Ok(BookAnswer::Entered) = enter(&mut desk, 7, account) else {
            return Err(Fail::from("an account is full"));
        };
    }
    let last = enter(&mut desk, 8, 1023);
    let first = enter(&mut desk, 8, 0);
    Ok([last, first])
}

#[test]
fn many_accounts_are_kept(rt: HostRuntime) -> Result<(), Fail> {
    expect_eq(&rt, answers_of_many(rt.alloc())?, [full(1), full(1)]);
    Ok(())
}
