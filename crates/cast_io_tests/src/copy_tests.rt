//! Runs of a caller that sends back what it reads.
use crate::expecting::expect_eq;
use crate::link_tests::steps;
use crate::sending::send_back;
use cast_io::{Failed, MemLink};
use std::alloc::Global;
use std::test::Fail;

// What is sent back with at most so many reads, and the bytes that the link took. The link's write
// of the first number takes so many bytes and fails, and its call of the last number fails.
fn sent_back(
    alloc: Global,
    reads: u32,
    torn: Option<(u64, u64)>,
    fails: Option<u64>,
) -> Result<(Result<(), Failed>, Vec<u8>), Fail> {
    let steps = steps(alloc)?;
    let mut link = match (torn, fails) {
        (Some(torn), _) => MemLink::torn(alloc, steps, [torn].to_vec(alloc)?),
        (None, Some(number)) => MemLink::new(alloc, steps, [number].to_vec(alloc)?),
        (None, None) => MemLink::new(alloc, steps, Vec::new(alloc)),
    };
    let answer = send_back(&mut link, reads);
    Ok((answer, link.bytes().to_vec(alloc)?))
}

// Two reads give the first four bytes alone.
#[test]
fn all_that_is_read_is_sent_back(rt: HostRuntime) -> Result<(), Fail> {
    for (reads, bytes) in [(9, b"abcdef".as_slice()), (2, b"abcd")] {
        let (answer, sent) = sent_back(rt.alloc(), reads, None, None)?;
        expect_eq(&rt, (answer, sent.as_slice()), (Ok(()), bytes));
    }
    Ok(())
}

// The second write fails, and then the second read.
#[test]
fn a_fault_ends_the_sending(rt: HostRuntime) -> Result<(), Fail> {
    for (torn, fails, bytes) in [
        (Some((2, 1)), None, b"abcde".as_slice()),
        (None, Some(3), b"abcd"),
    ] {
        let (answer, sent) = sent_back(rt.alloc(), 9, torn, fails)?;
        expect_eq(&rt, (answer, sent.as_slice()), (Err(Failed), bytes));
    }
    Ok(())
}
