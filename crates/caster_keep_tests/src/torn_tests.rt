//! Casters that keep serving whose output fails at one of its writes.

use crate::fakes::{ROVER, Ran, run, used_up};
use cast_io::MemSink;
use caster_keep::Stop;
use std::alloc::Global;
use std::sync::Wait;
use std::test::Fail;
use std::thread::Threads;

/// What is written of a caster that serves one rover: a line at a time, and at last the totals.
const PIECES: [&[u8]; 6] = [
    b"0.1 from 192.0.2.7:51234\n",
    b"0.1 asks 1 rover ALPHA rover1\n",
    b"0.1 rover rover1\n",
    b"0.1 segment ALPHA 0 0 0 0\n",
    b"0.1 end rover:rover1 0 0 0 rover-end\n",
    b"mount ALPHA 0 0\naccount rover1 1 0 0\ntotal 1 0 0\n",
];

/// So many of the pieces, and the first bytes of the next one, at most so many.
fn first_part(alloc: Global, pieces: usize, most: usize) -> Result<Vec<u8>, Fail> {
    let mut text = Vec::new(alloc);
    for piece in PIECES.iter().take(pieces) {
        text.extend_from_slice(piece)?;
    }
    if let Some(piece) = PIECES.get(pieces) {
        text.extend_from_slice(&piece[..most.min(piece.len())])?;
    }
    Ok(text)
}

/// What comes of a caster that serves one rover, where the write behind so many pieces takes so
/// many bytes, at most all, and fails.
fn torn_behind<R: Threads + Wait + Sync>(
    rt: &R,
    alloc: Global,
    pieces: usize,
    most: usize,
) -> Result<Ran, Fail> {
    let write = (pieces as u64).saturating_add(1);
    let fails = vec![in alloc; (write, most as u64)]?;
    let gates = used_up(alloc, &[&[ROVER]], &[])?;
    run(rt, alloc, gates, MemSink::torn(alloc, fails), &[])
}

/// Whether it was so: nothing is written behind what the failed write took, and that is told; where
/// no write failed, that is not told.
fn is_first_part<R: Threads + Wait + Sync>(
    rt: &R,
    alloc: Global,
    pieces: usize,
    most: usize,
) -> Result<bool, Fail> {
    let ran = torn_behind(rt, alloc, pieces, most)?;
    let text = first_part(alloc, pieces, most)?;
    Ok(ran.is(Stop::Over, pieces < PIECES.len(), &text))
}

#[test]
fn what_was_written_is_a_first_part(rt: HostRuntime) -> Result<(), Fail> {
    for pieces in 0..7 {
        for most in [0, 1, 7, 100] {
            assert!(rt; is_first_part(&rt, rt.alloc(), pieces, most)?);
        }
    }
    Ok(())
}
