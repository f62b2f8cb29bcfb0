//! Runs of gates and yards in memory: when a gate is over, what came back, and calls that fail.

use crate::expecting::expect_eq;
use crate::reaching::reach_once;
use crate::street_tests::send_value;
use crate::yard_runs::{gate_of, run_gate, run_yard, yard_of};
use cast_io::{
    ByteString, Gate, GateEnd, MemGate, MemSink, MemStreet, PeerAddr, Sink, StreetFault, YardAsked,
};
use std::alloc::Global;
use std::test::Fail;

// At the gate one link arrives, then nothing, then another one, and then nothing more.
#[test]
fn gates_are_over_so(rt: HostRuntime) -> Result<(), Fail> {
    for (end, calls, told) in [
        // from the first
        (GateEnd::Asked(0), "over over", b"over over ".as_slice()),
        // with the third time that it is asked
        (
            GateEnd::Asked(3),
            "over over over over",
            b"open open over over ",
        ),
        // once its links came
        (
            GateEnd::UsedUp,
            "over accept over accept over accept over",
            b"open link open idle open link over ",
        ),
    ] {
        let answers = run_gate(rt.alloc(), gate_of(rt.alloc(), end, &[])?, calls)?;
        expect_eq(&rt, (calls, answers.as_slice()), (calls, told));
    }
    Ok(())
}

// The peer is that of the last link, until the next one comes.
#[test]
fn a_gate_tells_the_peer_of_its_last_link(rt: HostRuntime) -> Result<(), Fail> {
    let gate = gate_of(rt.alloc(), GateEnd::UsedUp, &[2])?;
    let calls = "peer accept peer accept peer accept peer accept peer";
    let answers = run_gate(rt.alloc(), gate, calls)?;
    expect_eq(
        &rt,
        answers.as_slice(),
        b"- link 192.0.2.7:51234 failed 192.0.2.7:51234 idle 192.0.2.7:51234 link - ".as_slice(),
    );
    Ok(())
}

// Whether a gate that was sent to another thread is over there.
fn is_over_there(gate: MemGate) -> bool {
    let mut gate = send_value(gate);
    gate.is_over()
}

// Whether notes that were sent to another thread take a piece there.
fn takes_there(notes: MemSink) -> bool {
    let mut notes = send_value(notes);
    notes.write(b"a").is_ok()
}

#[test]
fn gates_and_notes_go_to_other_threads(rt: HostRuntime) -> Result<(), Fail> {
    let gate = gate_of(rt.alloc(), GateEnd::Asked(1), &[])?;
    assert!(rt; is_over_there(gate));
    assert!(rt; takes_there(MemSink::new(rt.alloc(), Vec::new(rt.alloc()))));
    Ok(())
}

#[test]
fn a_gate_that_was_reached_is_given_back(rt: HostRuntime) -> Result<(), Fail> {
    let mut street = yard_of(rt.alloc(), &[2])?;
    assert!(rt; reach_once(&mut street, "a", 7) == Ok(true));
    assert!(rt; reach_once(&mut street, "a", 7) == Err(StreetFault::Failed));
    assert!(rt; reach_once(&mut street, "a", 7) == Ok(false));
    Ok(())
}

#[test]
fn a_peer_is_one_word(rt: HostRuntime) -> Result<(), Fail> {
    let longest = b"1234567812345678123456781234567812345678123456781234567812345678";
    let long = b"12345678123456781234567812345678123456781234567812345678123456789";
    for (bytes, word) in [
        (
            b"[2001:db8::7]:80".as_slice(),
            b"[2001:db8::7]:80".as_slice(),
        ),
        (b"", b"-"),
        (b"two words", b"-"),
        (b"line\n", b"-"),
        (b"\x7f", b"-"),
        (longest.as_slice(), longest.as_slice()),
        (long.as_slice(), b"-"),
    ] {
        expect_eq(&rt, PeerAddr::new(bytes).as_slice(), word);
    }
    Ok(())
}

// What these calls answer of a street of three gates and two notes, of which those of these numbers
// fail.
fn answers(alloc: Global, fails: &[u64], calls: &str) -> Result<Vec<u8>, Fail> {
    let mut street = yard_of(alloc, fails)?;
    run_yard(alloc, &mut street, calls)
}

// The first gate is over when it is asked, the second one is not, and the first accept of the third
// one fails. The second write of the first notes is torn after two bytes.
#[test]
fn yards_answer_so(rt: HostRuntime) -> Result<(), Fail> {
    for (calls, told) in [
        // a yard gives no more gates than it has: it has three, and a refused call takes none
        ("4 3 over faults", b"failed 3 failed 2 0 ".as_slice()),
        // gates come back as they are then, and are told until one more came back than it gave
        ("over over gates stray gates", b"over open over open none "),
        // a gate that failed is a fault of the yard, once it came back
        ("2 accept faults", b"2 failed 1 0 "),
        // a yard gives no more notes than it has, and notes are told as they came back
        (
            "notes notes notes marks faults",
            b"ok failed ok ok failed onetw onetwo 1 1 ",
        ),
    ] {
        let answers = answers(rt.alloc(), &[], calls)?;
        expect_eq(&rt, (calls, answers.as_slice()), (calls, told));
    }
    Ok(())
}

#[test]
fn calls_of_a_yard_fail_by_their_number(rt: HostRuntime) -> Result<(), Fail> {
    let answers = answers(rt.alloc(), &[1, 3, 4], "1 over over notes over faults")?;
    expect_eq(
        &rt,
        answers.as_slice(),
        b"failed over failed failed open 3 0 ".as_slice(),
    );
    Ok(())
}

// An open of four gates that cut after 300 seconds, the making of one that dials and cuts after 7,
// and a call for notes.
fn three_calls(alloc: Global) -> Result<Vec<YardAsked>, Fail> {
    let mut calls = Vec::new(alloc);
    calls.push(YardAsked::OpenGates {
        addr: ByteString::copy_of(alloc, b"here")?,
        gates: 4,
        quiet: 300,
    })?;
    calls.push(YardAsked::Reach {
        addr: ByteString::copy_of(alloc, b"a")?,
        quiet: 7,
    })?;
    calls.push(YardAsked::Notes)?;
    Ok(calls)
}

// Whether a yard tells just these three calls.
fn tells_all(alloc: Global, street: &MemStreet) -> Result<bool, Fail> {
    let wanted = three_calls(alloc)?;
    Ok(street.yard().asked() == Some(wanted.as_slice()))
}

// The first of the calls is refused.
#[test]
fn a_yard_tells_what_it_was_asked_with_quiet(rt: HostRuntime) -> Result<(), Fail> {
    let mut street = yard_of(rt.alloc(), &[])?;
    let answers = run_yard(rt.alloc(), &mut street, "4 over notes")?;
    expect_eq(
        &rt,
        answers.as_slice(),
        b"failed over ok failed ".as_slice(),
    );
    assert!(rt; tells_all(rt.alloc(), &street)?);
    Ok(())
}
