//! Runs of doors and streets in memory: what they give, what came back, and calls that fail.
ghost use Rattle.std.specs.Prelude.{◌≡◌};

use crate::expecting::expect_eq;
use crate::street_runs::{door_of, run_door, run_street, street_of};
use cast_io::{Arrived, Asked, ByteString, Door, MemDoor, MemStreet};
use std::alloc::Global;
use std::test::Fail;

// The same value, which may go to another thread.
pub(crate) fn send_value<T: Send>(value: T) -> T
    ensures { result ≡ value }
{
    value
}

// Whether a door that was sent to another thread gives a link there, which is sent on.
fn gives_there(door: MemDoor) -> bool {
    let mut door = send_value(door);
    match door.accept() {
        Arrived::Link(link) => {
            let _there = send_value(link);
            true
        }
        Arrived::Idle | Arrived::Failed => false,
    }
}

// The second accept fails, and takes nothing.
#[test]
fn a_door_gives_what_arrives(rt: HostRuntime) -> Result<(), Fail> {
    let door = door_of(rt.alloc(), &[2])?;
    let told = run_door(
        rt.alloc(),
        door,
        "accept accept accept accept accept faults",
    )?;
    expect_eq(
        &rt,
        told.as_slice(),
        b"ok failed idle ok idle 1 ".as_slice(),
    );
    assert!(rt; gives_there(door_of(rt.alloc(), &[2])?));
    Ok(())
}

// It tells them until one more came back than it gave.
#[test]
fn a_door_tells_what_came_back(rt: HostRuntime) -> Result<(), Fail> {
    let door = door_of(rt.alloc(), &[])?;
    let told = run_door(rt.alloc(), door, "accept back marks stray marks")?;
    expect_eq(&rt, told.as_slice(), b"ok 1 none ".as_slice());
    Ok(())
}

// What these calls answer of a street of two doors and two links, of which those of these numbers
// fail.
fn answers(alloc: Global, fails: &[u64], calls: &str) -> Result<Vec<u8>, Fail> {
    let mut street = street_of(alloc, fails)?;
    run_street(alloc, &mut street, calls)
}

// The calls and the answers of streets of two doors and two links. The first door fails at its
// first accept, and the second call of the second link fails.
#[test]
fn streets_answer_so(rt: HostRuntime) -> Result<(), Fail> {
    for (calls, told) in [
        // a street gives no more doors than it has: it has two, and a refused call takes none
        ("3 2 1 faults", b"failed 2 failed 2 0 ".as_slice()),
        // a street gives no more links than it has
        ("dial dial dial faults", b"ok ok failed 1 0 "),
        // links come back in another order, and are told until one more came back than it gave
        ("dial dial back back marks stray marks", b"ok ok 2 1 none "),
        // a fault of a link is none of the street: one link comes back with a fault
        ("dial dial read back back faults", b"ok ok failed 0 1 "),
        // a door that failed is a fault of the street, once it came back
        ("2 shut faults fail shut faults", b"2 0 0 failed 1 0 "),
        // doors come back as they are then, and are told until one more came back than it gave
        ("1 fail shut doors stray-door doors", b"1 failed 1 none "),
    ] {
        let answers = answers(rt.alloc(), &[], calls)?;
        expect_eq(&rt, (calls, answers.as_slice()), (calls, told));
    }
    Ok(())
}

#[test]
fn calls_of_a_street_fail_by_their_number(rt: HostRuntime) -> Result<(), Fail> {
    let answers = answers(rt.alloc(), &[2, 3], "1 dial 1 1 faults")?;
    expect_eq(
        &rt,
        answers.as_slice(),
        b"1 failed failed 1 2 0 ".as_slice(),
    );
    Ok(())
}

// An open of three doors and a dial, as a street was asked for them.
fn two_calls(alloc: Global) -> Result<Vec<Asked>, Fail> {
    let mut calls = Vec::new(alloc);
    let addr = ByteString::copy_of(alloc, b"here")?;
    calls.push(Asked::Open { addr, doors: 3 })?;
    let addr = ByteString::copy_of(alloc, b"a")?;
    calls.push(Asked::Dial { addr })?;
    Ok(calls)
}

// Whether a street tells just these two calls.
fn tells_both(alloc: Global, street: &MemStreet) -> Result<bool, Fail> {
    let wanted = two_calls(alloc)?;
    Ok(street.asked() == Some(wanted.as_slice()))
}

// A run of a street of two doors whose second call fails: its answers, and whether it tells just
// what it was asked for.
fn refused_run(alloc: Global) -> Result<(Vec<u8>, bool), Fail> {
    let mut street = street_of(alloc, &[2])?;
    let answers = run_street(alloc, &mut street, "3 dial")?;
    let told = tells_both(alloc, &street)?;
    Ok((answers, told))
}

#[test]
fn what_was_asked_is_told_where_it_was_refused_too(rt: HostRuntime) -> Result<(), Fail> {
    let (answers, told) = refused_run(rt.alloc())?;
    expect_eq(&rt, answers.as_slice(), b"failed failed ".as_slice());
    assert!(rt; told);
    Ok(())
}
