//! Clients whose link fails once, at each call in turn, or that end in the midst of what they send:
//! how they end, what they were sent, and that the next one of their kind is let in.

use crate::casting::{Answer, carry_out, is_closed, links_at, mount, sum};
use crate::fakes::{Failing, door_of, failing_link, street_at};
use crate::one_caller::{LinkOutcome, told_of};
use crate::setting::{ROVER_ALPHA, SOURCE_ALPHA};
use crate::telling::{Back, Ended};
use caster_serve::Role;
use session_core::Ending;
use std::alloc::Global;
use std::sync::Wait;
use std::test::Fail;
use std::thread::Threads;
use test_support::{FRAME_A, FRAME_B, ICY, link_of};

/// What came of a client whose link fails, and of a caster at which the next one sends the same.
#[derive(Drop)]
struct Came {
    told: LinkOutcome,
    answer: Answer,
    back: Back,
}

/// What a caster came to at which a client sends these pieces and ends, whose link fails so, and
/// another one follows, which sends the same and ends.
fn serve_behind_failure<R: Threads + Wait + Sync>(
    rt: &R,
    alloc: Global,
    pieces: &[&[u8]],
    failing: Failing,
) -> Result<(Answer, Back), Fail> {
    let first = failing_link(alloc, pieces, failing)?;
    let next = link_of(alloc, pieces, &[])?;
    let street = street_at(alloc, door_of(alloc, first, next, &[])?)?;
    carry_out(rt, alloc, b"", 2, street)
}

/// A client sends these pieces and ends, and its link fails so. At the caster another one follows,
/// which sends the same and ends.
fn failing_client<R: Threads + Wait + Sync>(
    rt: &R,
    alloc: Global,
    pieces: &[&[u8]],
    failing: Failing,
) -> Result<Came, Fail> {
    let link = failing_link(alloc, pieces, failing)?;
    let told = told_of(rt, alloc, b"", Role::Caller, link)?;
    let (answer, back) = serve_behind_failure(rt, alloc, pieces, failing)?;
    Ok(Came { told, answer, back })
}

/// These two links were sent this.
fn are_sent(links: &[Ended], first: &[u8], second: &[u8]) -> bool {
    match links {
        [one, other] => one.bytes.as_slice() == first && other.bytes.as_slice() == second,
        _ => false,
    }
}

impl Came {
    /// It ended so, and was sent this in so many steps, of which so many failed. The next one was
    /// sent this.
    fn is(&self, ending: Ending, bytes: &[u8], steps: usize, faults: u64, next: &[u8]) -> bool {
        self.told.is(ending, bytes, steps)
            && self.told.link.faults == faults
            && are_sent(links_at(&self.back, 0), bytes, next)
    }

    /// ALPHA came to so many frames under so many claims, and nothing else was served.
    fn has_published(&self, published: u64, claims: u64) -> bool {
        let none = sum(0, 0, 0);
        let mounts = [mount(published, claims), mount(0, 0)];
        is_closed(self.answer, mounts, [none, none], none)
    }

    /// Of the account that takes one rover at a time so many came in, one after the other.
    fn has_entered(&self, sessions: u64) -> bool {
        let (none, all) = (sum(0, 0, 0), sum(sessions, 0, 0));
        is_closed(self.answer, [mount(0, 0), mount(0, 0)], [all, none], all)
    }
}

// The calls of the rover are a read, a write of the reply, and reads.
#[test]
fn each_call_of_a_rover_fails_once(rt: HostRuntime) -> Result<(), Fail> {
    for (call, ending, bytes, steps, sessions) in [
        (1, Ending::ReadFault, b"".as_slice(), 1, 1),
        (2, Ending::WriteFault, b"".as_slice(), 2, 2),
        (3, Ending::ReadFault, ICY, 2, 2),
        (4, Ending::ReadFault, ICY, 3, 2),
        (5, Ending::ReadFault, ICY, 4, 2),
        (6, Ending::RoverEnd, ICY, 4, 2),
    ] {
        let pieces = [ROVER_ALPHA, b"", b""];
        let came = failing_client(&rt, rt.alloc(), &pieces, Failing::Call(call))?;
        assert!(rt; came.is(ending, bytes, steps, u64::from(call < 6), ICY));
        assert!(rt; came.has_entered(sessions));
    }
    Ok(())
}

// It has one write, of fourteen bytes.
#[test]
fn the_reply_to_a_rover_is_torn(rt: HostRuntime) -> Result<(), Fail> {
    for (write, most, ending, bytes, faults) in [
        (1, 0, Ending::WriteFault, b"".as_slice(), 1),
        (1, 1, Ending::WriteFault, b"I".as_slice(), 1),
        (1, 14, Ending::WriteFault, ICY, 1),
        (2, 0, Ending::RoverEnd, ICY, 0),
    ] {
        let failing = Failing::Write(write, most);
        let came = failing_client(&rt, rt.alloc(), &[ROVER_ALPHA], failing)?;
        assert!(rt; came.is(ending, bytes, 2, faults, ICY));
        assert!(rt; came.has_entered(2));
    }
    Ok(())
}

// The calls of the source are a read, a write of the reply, and reads, of which two give a frame.
// The next one publishes two.
#[test]
fn each_call_of_a_source_fails_once(rt: HostRuntime) -> Result<(), Fail> {
    for (call, ending, bytes, steps, published, claims) in [
        (1, Ending::ReadFault, b"".as_slice(), 1, 2, 1),
        (2, Ending::WriteFault, b"".as_slice(), 2, 2, 2),
        (3, Ending::ReadFault, ICY, 2, 2, 2),
        (4, Ending::ReadFault, ICY, 3, 3, 2),
        (5, Ending::ReadFault, ICY, 4, 4, 2),
        (6, Ending::SourceEnd { claim: 1 }, ICY, 4, 4, 2),
    ] {
        let pieces = [SOURCE_ALPHA, FRAME_A, FRAME_B];
        let came = failing_client(&rt, rt.alloc(), &pieces, Failing::Call(call))?;
        assert!(rt; came.is(ending, bytes, steps, u64::from(call < 6), ICY));
        assert!(rt; came.has_published(published, claims));
    }
    Ok(())
}

/// No call.
const NEVER: Failing = Failing::Call(0);

#[test]
fn a_rover_whose_head_is_not_whole_enters_no_account(rt: HostRuntime) -> Result<(), Fail> {
    for size in 0..ROVER_ALPHA.len() {
        let (front, _) = ROVER_ALPHA.split_at(size);
        let came = failing_client(&rt, rt.alloc(), &[front], NEVER)?;
        assert!(rt; came.is(Ending::NoHead, b"", 2, 0, b""));
        assert!(rt; came.has_entered(0));
    }
    Ok(())
}

/// The head of a source of ALPHA whose body comes in chunks, what it is told, and a chunk of a
/// frame.
const CHUNKED: &[u8] = b"POST /ALPHA HTTP/1.1\r\nHost: caster\r\nNtrip-Version: Ntrip/2.0\r\n\
Authorization: Basic c3JjOnNlc2FtZQ==\r\nTransfer-Encoding: chunked\r\n\r\n";

const HTTP: &[u8] = b"HTTP/1.1 200 OK\r\nNtrip-Version: Ntrip/2.0\r\n\
Server: NTRIP lapcast/1.0\r\nConnection: close\r\n\r\n";

const CHUNK: &[u8] = b"8\r\n\xd3\x00\x02\x3e\xd0\xa4\xe0\x00\r\n";

// The last byte of the frame is the eleventh one. The next one publishes as many.
#[test]
fn a_frame_is_published_once_its_part_of_a_chunk_has_come(rt: HostRuntime) -> Result<(), Fail> {
    for size in 0..=CHUNK.len() {
        let (front, _) = CHUNK.split_at(size);
        let came = failing_client(&rt, rt.alloc(), &[CHUNKED, front], NEVER)?;
        assert!(rt; came.is(Ending::SourceEnd { claim: 1 }, HTTP, 3, 0, HTTP));
        assert!(rt; came.has_published(if size < 11 { 0 } else { 2 }, 2));
    }
    Ok(())
}
