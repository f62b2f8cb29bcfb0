//! Runs with a read or a write that fails, and the limit of `read_all`.
use crate::expecting::expect_eq;
use crate::runs::{run_sink, run_source};
use cast_io::{MemSink, MemSource, ReadAllFault, read_all};
use std::alloc::Global;
use std::test::Fail;

// A source of these bytes whose read of this number fails.
fn source_of(alloc: Global, bytes: &[u8], failing: u64) -> Result<MemSource, Fail> {
    Ok(MemSource::new(bytes.to_vec(alloc)?, [failing].to_vec(alloc)?))
}

// What five reads of three bytes answer, of which the one of this number fails.
fn reads(alloc: Global, failing: u64) -> Result<Vec<u8>, Fail> {
    let mut source = source_of(alloc, b"abcdefgh", failing)?;
    Ok(run_source(alloc, &mut source, &[3; 5])?)
}

// After a read that failed the next one goes on where the last one ended.
#[test]
fn a_read_fails_where_it_is_told_and_loses_nothing(rt: HostRuntime) -> Result<(), Fail> {
    for (failing, told) in [
        (1, b"failed abc def gh  ".as_slice()),
        (2, b"abc failed def gh  "),
        (3, b"abc def failed gh  "),
    ] {
        expect_eq(&rt, reads(rt.alloc(), failing)?.as_slice(), told);
    }
    Ok(())
}

// Three writes, of which the one of this number fails: their answers, and what the sink took behind
// them.
fn writes(alloc: Global, failing: u64) -> Result<Vec<u8>, Fail> {
    let mut sink = MemSink::new(alloc, [failing].to_vec(alloc)?);
    let mut told = run_sink(alloc, &mut sink, "ab cd ef")?;
    told.extend_from_slice(sink.bytes())?;
    Ok(told)
}

#[test]
fn a_write_fails_where_it_is_told_and_takes_nothing(rt: HostRuntime) -> Result<(), Fail> {
    for (failing, told) in [
        (1, b"failed ok ok cdef".as_slice()),
        (2, b"ok failed ok abef"),
        (3, b"ok ok failed abcd"),
        (4, b"ok ok ok abcdef"),
    ] {
        expect_eq(&rt, writes(rt.alloc(), failing)?.as_slice(), told);
    }
    Ok(())
}

// Whether all that is read of these bytes is these bytes, where the read of this number fails.
fn all_is_read(
    alloc: Global,
    bytes: &[u8],
    failing: u64,
    limit: usize,
) -> Result<Result<bool, ReadAllFault>, Fail> {
    let mut source = source_of(alloc, bytes, failing)?;
    match read_all(alloc, &mut source, limit) {
        Ok(all) => Ok(Ok(all.as_slice() == bytes)),
        Err(fault) => Ok(Err(fault)),
    }
}

// No read has the number 0.
#[test]
fn all_is_read_up_to_the_limit(rt: HostRuntime) -> Result<(), Fail> {
    for (bytes, limit, wanted) in [
        (b"four".as_slice(), 4, Ok(true)),
        (b"fives", 4, Err(ReadAllFault::Long)),
        (b"", 0, Ok(true)),
    ] {
        expect_eq(&rt, all_is_read(rt.alloc(), bytes, 0, limit)?, wanted);
    }
    Ok(())
}

// The pieces are of 4,096, 4,096 and 1,808 bytes, and the end follows.
#[test]
fn a_failing_read_ends_the_reading(rt: HostRuntime) -> Result<(), Fail> {
    let bytes = [7u8; 10_000];
    for failing in 1..=4u64 {
        let answer = all_is_read(rt.alloc(), &bytes, failing, 10_000)?;
        expect_eq(&rt, answer, Err(ReadAllFault::Failed));
    }
    expect_eq(&rt, all_is_read(rt.alloc(), &bytes, 5, 10_000)?, Ok(true));
    Ok(())
}
