//! Sinks that fail.

use crate::fakes::{CHUNKED, join_pieces, street_of};
use crate::runs::{LinkRun, StreetRun, fetch_over, tried_three};
use cast_io::{MemSink, MemStreet};
use ntrip_fetch::FetchFault;
use std::alloc::Global;
use std::sync::Wait;
use std::test::Fail;
use test_support::{FRAME_A, FRAME_B, ICY, link_of};

/// The head of an answer of NTRIP 1.0, and a frame.
const PLAIN: &[u8] = b"ICY 200 OK\r\n\r\n\xD3\x00\x02\x3E\xD0\xA4\xE0\x00";

/// The head of an answer of NTRIP 2.0, a frame in a chunk, and the front of another chunk.
const CHUNKS: &[u8] = b"HTTP/1.1 200 OK\r\nTransfer-Encoding: chunked\r\n\r\n\
8\r\n\xD3\x00\x02\x3E\xD0\xA4\xE0\x00\r\n8\r\n";

/// A fetch of four frames over a link whose body of these pieces has three, into a sink whose write
/// of this number takes three bytes and fails.
fn torn<R: Wait>(rt: &R, alloc: Global, pieces: &[&[u8]], write: u64) -> Result<LinkRun, Fail> {
    let out = MemSink::torn(alloc, [(write, 3)].to_vec(alloc)?);
    fetch_over(rt, alloc, 4, link_of(alloc, pieces, &[])?, out)
}

/// The fault of that write comes after so many steps of the link, and this was written.
fn is_torn<R: Wait>(
    rt: &R,
    alloc: Global,
    pieces: &[&[u8]],
    write: u64,
    steps: usize,
    written: &[u8],
) -> Result<bool, Fail> {
    let run = torn(rt, alloc, pieces, write)?;
    Ok(run.left_so(Err(FetchFault::Sink), steps) && run.written.as_slice() == written)
}

// The fault comes at once, with so many steps of the link taken, and the frames before it are
// whole.
#[test]
fn a_sink_fails_at_each_of_its_writes(rt: HostRuntime) -> Result<(), Fail> {
    let plain: &[&[u8]] = &[PLAIN, FRAME_B, FRAME_A];
    let chunked: &[&[u8]] = &[CHUNKS, FRAME_B, b"\r\n8\r\n", FRAME_A];
    for (pieces, write, steps, written) in [
        (plain, 1, 1, b"\xD3\x00\x02".as_slice()),
        (plain, 2, 2, b"\xD3\x00\x02\x3E\xD0\xA4\xE0\x00\xD3\x00\x02"),
        (
            plain,
            3,
            3,
            b"\xD3\x00\x02\x3E\xD0\xA4\xE0\x00\xD3\x00\x02\x43\x50\x06\xA2\x7E\xD3\x00\x02",
        ),
        (chunked, 1, 1, b"\xD3\x00\x02"),
        (
            chunked,
            2,
            2,
            b"\xD3\x00\x02\x3E\xD0\xA4\xE0\x00\xD3\x00\x02",
        ),
        (
            chunked,
            3,
            4,
            b"\xD3\x00\x02\x3E\xD0\xA4\xE0\x00\xD3\x00\x02\x43\x50\x06\xA2\x7E\xD3\x00\x02",
        ),
    ] {
        let is_so = is_torn(&rt, rt.alloc(), pieces, write, steps, written)?;
        assert!(rt; is_so, "write {write}");
    }
    Ok(())
}

/// Three casters that send a frame each, the second one in a chunk.
fn three_casters(alloc: Global) -> Result<MemStreet, Fail> {
    let one = join_pieces(alloc, &[ICY, FRAME_A])?;
    let chunk = join_pieces(alloc, &[CHUNKED, b"8\r\n", FRAME_A])?;
    Ok(street_of(alloc, &[&[&one], &[&chunk], &[&one]])?)
}

/// A fetch from these into a sink whose second write fails.
fn hung_up<R: Wait>(rt: &R, alloc: Global) -> Result<StreetRun, Fail> {
    let street = three_casters(alloc)?;
    let out = MemSink::new(alloc, [2].to_vec(alloc)?);
    tried_three(rt, alloc, street, out)
}

#[test]
fn a_link_is_hung_up_before_a_fault_is_answered(rt: HostRuntime) -> Result<(), Fail> {
    let run = hung_up(&rt, rt.alloc())?;
    assert!(rt; run.failed_by(FetchFault::Sink, 2));
    assert!(rt; run.wrote(FRAME_A, b"a:1 b:2 "));
    Ok(())
}
