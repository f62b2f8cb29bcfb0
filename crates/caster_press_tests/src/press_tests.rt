//! Two callers put lines on one output, each in a thread of its own.
ghost use Rattle.std.specs.Prelude.{◌≡◌, length, IfOk};

use crate::making::{expect_eq, line_of, lines_of};
use crate::script::Script;
use cast_io::MemSink;
use caster_press::write_at_once;
use std::alloc::Global;
use std::sync::Wait;
use std::test::Fail;
use std::thread::Threads;

// How many lines each of two callers puts where they write at once.
const LINES: u64 = 40;

// The works of two callers: so many lines that begin with `left`, and so many with `right`.
fn works_of(alloc: Global, left: u64, right: u64) -> Result<Vec<Script>, Fail>
    ensures count { IfOk result (λ works. length works.items ≡ 2) }
{
    let left = Script::new(lines_of(alloc, b"left", left)?);
    let right = Script::new(lines_of(alloc, b"right", right)?);
    Ok(Vec::from_array(alloc, [left, right])?)
}

// What the output took of these works where the write of this number, from 1, takes so many bytes
// and fails, how often it failed, and whether it is torn.
fn write_works<R: Threads + Wait + Sync>(
    rt: &R,
    alloc: Global,
    fails: (u64, u64),
    left: u64,
    right: u64,
) -> Result<(Vec<u8>, u64, bool), Fail> {
    let mut works = works_of(alloc, left, right)?;
    let sink = MemSink::torn(alloc, [fails].to_vec(alloc)?);
    let closed = write_at_once(rt, alloc, sink, &mut works)?;
    let text = closed.sink.bytes().to_vec(alloc)?;
    Ok((text, closed.sink.faults(), closed.is_torn))
}

// One caller alone puts lines. What comes after the failed write is not written.
#[test]
fn a_failed_write_is_the_last(rt: HostRuntime) -> Result<(), Fail> {
    for (fails, text, faults) in [
        ((1, 0), b"".as_slice(), 1),
        ((1, 6), b"left 0", 1),
        ((2, 3), b"left 0\nlef", 1),
        ((3, 7), b"left 0\nleft 1\nleft 2\n", 1),
        ((4, 1), b"left 0\nleft 1\nleft 2\n", 0),
    ] {
        let (found, count, is_torn) = write_works(&rt, rt.alloc(), fails, 3, 0)?;
        expect_eq(
            &rt,
            (found.as_slice(), count, is_torn),
            (text, faults, faults == 1),
        );
    }
    Ok(())
}

// Whether the text is the lines of both callers, each whole and each caller's in order.
fn is_mixture(text: &[u8]) -> Result<bool, Fail> {
    let mut left = 0u64;
    let mut right = 0u64;
    for line in text.split_inclusive(|byte| *byte == b'\n') {
        if line == line_of(b"left", left)?.bytes() {
            left = left.wrapping_add(1);
        } else if line == line_of(b"right", right)?.bytes() {
            right = right.wrapping_add(1);
        } else {
            return Ok(false);
        }
    }
    Ok(left == LINES && right == LINES)
}

#[test]
fn two_callers_write_whole_lines(rt: HostRuntime) -> Result<(), Fail> {
    let (text, faults, is_torn) = write_works(&rt, rt.alloc(), (0, 0), LINES, LINES)?;
    expect_eq(&rt, (is_mixture(&text)?, faults, is_torn), (true, 0, false));
    Ok(())
}
