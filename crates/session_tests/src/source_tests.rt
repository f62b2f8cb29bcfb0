//! A source at a desk, by the public calls.
ghost use Rattle.std.specs.Prelude.{◌^◌, ◌<◌, ◌≤◌, length};
ghost use Rattle.turn_log.specs.Desks.{desk_shape};

use crate::desks::{expect_eq, frames_at, frames_of, ring_desk};
use mount_ring::Ring;
use rtcm_frame::{Cutter, Frame};
use source_session::{ClaimFault, SourceHalt, SourceSession};
use std::alloc::Global;
use std::process::Abort;
use std::test::Fail;
use turn_log::{Desk, TurnFault};

// The frame of the number 1005, a byte of no frame, the frame of the number 1077, and the beginning
// of a frame.
const PLAIN: &[u8] = b"\xd3\x00\x02\x3e\xd0\xa4\xe0\x00U\xd3\x00\x02\x43\x50\x06\xa2\x7e\xd3\x00";

// The frame of the number 1005 in a chunk of 8 bytes and that of 1077 in two of 4, and the end of
// the body.
const CHUNKED: &[u8] = b"8\r\n\xd3\x00\x02\x3e\xd0\xa4\xe0\x00\r\n\
4\r\n\xd3\x00\x02\x43\r\n4\r\n\x50\x06\xa2\x7e\r\n0\r\n\r\nmore";

// The frame of the number 1005 in a chunk, and a size of seven digits.
const MALFORMED: &[u8] = b"8\r\n\xd3\x00\x02\x3e\xd0\xa4\xe0\x00\r\n0000008";

// The frame of the number 1005 with a last byte that is not its checksum's, and that of 1077.
const DAMAGED: &[u8] = b"\xd3\x00\x02\x3e\xd0\xa4\xe0\x01\xd3\x00\x02\x43\x50\x06\xa2\x7e";

// What became of a source: how its last bytes were taken, and its junk.
type Came = (Result<(), SourceHalt>, u64);

// What became of a source, and the frames that its mountpoint has then.
#[derive(Drop)]
struct SourceOutcome {
    came: Came,
    frames: Vec<Frame>,
}

// What became of a source whose last bytes were taken so, at this desk.
fn source_told(
    alloc: Global,
    session: SourceSession,
    desk: Desk<Ring>,
    ended: Result<(), SourceHalt>,
) -> Result<SourceOutcome, Fail>
    requires { 0 < length (desk_shape desk).filters }
{
    let came = (ended, session.junk());
    let mut desk = desk;
    let frames = frames_at(alloc, &mut desk)?;
    Ok(SourceOutcome { came, frames })
}

// Caller 1 sends a body in two pieces, cut at this place.
fn sent_in_two(alloc: Global, chunked: bool, body: &[u8], at: usize) -> Result<SourceOutcome, Fail>
    requires few { length body.now < 2 ^ 62 }
    requires within { at ≤ length body.now }
{
    let mut desk = ring_desk(alloc)?;
    let cutter = Box::new(alloc, Cutter::new())?;
    let mut session = SourceSession::claim(1, chunked, cutter, &mut desk)?;
    let _first = session.feed(&body[..at], &mut desk);
    let ended = session.feed(&body[at..], &mut desk);
    source_told(alloc, session, desk, ended)
}

// Caller 1 sends a body in pieces of one byte.
fn sent_by_bytes(alloc: Global, chunked: bool, body: &[u8]) -> Result<SourceOutcome, Fail>
    requires { length body.now < 2 ^ 62 }
{
    let mut desk = ring_desk(alloc)?;
    let cutter = Box::new(alloc, Cutter::new())?;
    let mut session = SourceSession::claim(1, chunked, cutter, &mut desk)?;
    let mut ended = Ok(());
    for byte in body {
        ended = session.feed(&[*byte], &mut desk);
    }
    source_told(alloc, session, desk, ended)
}

// A source came to this, and its mountpoint has the frames of these names.
fn expect_told(
    rt: &impl Abort,
    alloc: Global,
    told: &SourceOutcome,
    came: Came,
    names: &str,
) -> Result<(), Fail> {
    let frames = frames_of(alloc, names)?;
    expect_eq(rt, told.came, came);
    expect_eq(rt, told.frames.as_slice(), frames.as_slice());
    Ok(())
}

#[test]
fn a_body_in_two_pieces_publishes_the_same_frames(rt: HostRuntime) -> Result<(), Fail> {
    for at in 0..PLAIN.len() + 1 {
        let told = sent_in_two(rt.alloc(), false, PLAIN, at)?;
        expect_told(&rt, rt.alloc(), &told, (Ok(()), 1), "ab")?;
    }
    Ok(())
}

// Caller 1 sent this body byte by byte, and came to this.
fn expect_sent(
    rt: &impl Abort,
    alloc: Global,
    chunked: bool,
    body: &[u8],
    came: Came,
    names: &str,
) -> Result<(), Fail>
    requires { length body.now < 2 ^ 62 }
{
    let told = sent_by_bytes(alloc, chunked, body)?;
    expect_told(rt, alloc, &told, came, names)
}

#[test]
fn a_chunked_body_comes_byte_by_byte(rt: HostRuntime) -> Result<(), Fail> {
    let came = (Err(SourceHalt::Done), 0);
    expect_sent(&rt, rt.alloc(), true, CHUNKED, came, "ab")
}

#[test]
fn a_malformed_chunk_ends_the_body(rt: HostRuntime) -> Result<(), Fail> {
    let came = (Err(SourceHalt::BadChunk { at: 19 }), 0);
    expect_sent(&rt, rt.alloc(), true, MALFORMED, came, "a")
}

#[test]
fn a_damaged_frame_is_junk(rt: HostRuntime) -> Result<(), Fail> {
    expect_sent(&rt, rt.alloc(), false, DAMAGED, (Ok(()), 8), "b")
}

// The claim of caller 1, what caller 2 is answered while it stands, how it was given back, and what
// caller 2 is answered then.
type Claims = (
    u64,
    Option<ClaimFault>,
    Result<(), TurnFault>,
    Result<u64, ClaimFault>,
);

// The claims of two callers, one after the other.
fn claims(alloc: Global) -> Result<Claims, Fail> {
    let mut desk = ring_desk(alloc)?;
    let cutter = Box::new(alloc, Cutter::new())?;
    let mut first = SourceSession::claim(1, false, cutter, &mut desk)?;
    let cutter = Box::new(alloc, Cutter::new())?;
    let taken = SourceSession::claim(2, false, cutter, &mut desk).err();
    let released = first.release(&mut desk);
    let cutter = Box::new(alloc, Cutter::new())?;
    let second = match SourceSession::claim(2, false, cutter, &mut desk) {
        Ok(session) => Ok(session.claim_number()),
        Err(fault) => Err(fault),
    };
    Ok((first.claim_number(), taken, released, second))
}

#[test]
fn a_release_lets_the_next_claim_be_given(rt: HostRuntime) -> Result<(), Fail> {
    let taken = ClaimFault::Taken {
        caller: 1,
        claim: 1,
    };
    let told = (1, Some(taken), Ok(()), Ok(2));
    expect_eq(&rt, claims(rt.alloc())?, told);
    Ok(())
}
