//! Fetches from one caster after the other.

use crate::fakes::{CHUNKED, join_pieces, street_of, try_of};
use crate::runs::tried_two;
use cast_io::MemStreet;
use ntrip_fetch::{Left, Try};
use std::alloc::Global;
use std::sync::Wait;
use std::test::Fail;
use test_support::{FRAME_A, FRAME_B, ICY};

/// The frames of both casters.
const THREE: &[u8] = b"\xD3\x00\x02\x3E\xD0\xA4\xE0\x00\xD3\x00\x02\x43\x50\x06\xA2\x7E\
\xD3\x00\x02\x43\x50\x06\xA2\x7E";

/// A caster that sends two frames and one that sends a frame in a chunk.
fn two_casters(alloc: Global) -> Result<MemStreet, Fail> {
    let both = join_pieces(alloc, &[ICY, FRAME_A, FRAME_B])?;
    let chunk = join_pieces(alloc, &[CHUNKED, b"8\r\n", FRAME_B, b"\r\n"])?;
    Ok(street_of(alloc, &[&[&both], &[&chunk]])?)
}

/// So many frames are fetched from these two. Their tries are these, the last link is left after so
/// many steps, and both links come back.
fn is_second<R: Wait>(
    rt: &R,
    alloc: Global,
    frames: u64,
    tries: [Try; 2],
    steps: usize,
) -> Result<bool, Fail> {
    let run = tried_two(rt, alloc, frames, two_casters(alloc)?)?;
    let came_back = run.links == 2 && run.steps == Some(steps);
    Ok(came_back && run.tried_so(&tries) && run.wrote(THREE, b"a:1 b:2 "))
}

// The first caster gives two frames, and the second one. Its link is left for this after so many
// steps.
#[test]
fn a_second_caster_gives_the_frames_that_are_left(rt: HostRuntime) -> Result<(), Fail> {
    for (frames, left, steps) in [(3, Left::Enough, 1), (4, Left::End, 2)] {
        let tries = [try_of(2, Left::End), try_of(1, left)];
        assert!(rt;
            is_second(&rt, rt.alloc(), frames, tries, steps)?,
            "{frames} frames"
        );
    }
    Ok(())
}

#[test]
fn a_refusal_and_a_failed_dial_write_nothing(rt: HostRuntime) -> Result<(), Fail> {
    let street = street_of(rt.alloc(), &[&[b"HTTP/1.1 401 Unauthorized\r\n\r\n"]])?;
    let run = tried_two(&rt, rt.alloc(), 1, street)?;
    let wanted = [try_of(0, Left::Status(401)), try_of(0, Left::Dial)];
    assert!(rt; run.tried_so(&wanted));
    assert!(rt; run.wrote(b"", b"a:1 b:2 "));
    Ok(())
}

/// Two casters that send a frame each.
fn two_of_one(alloc: Global) -> Result<MemStreet, Fail> {
    let one = join_pieces(alloc, &[ICY, FRAME_A])?;
    Ok(street_of(alloc, &[&[&one], &[&one]])?)
}

#[test]
fn no_caster_is_dialled_once_enough_frames_came(rt: HostRuntime) -> Result<(), Fail> {
    let street = two_of_one(rt.alloc())?;
    let run = tried_two(&rt, rt.alloc(), 1, street)?;
    assert!(rt; run.tried_so(&[try_of(1, Left::Enough)]));
    assert!(rt; run.wrote(FRAME_A, b"a:1 "));
    Ok(())
}
