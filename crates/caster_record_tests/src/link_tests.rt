//! What is recorded of a source and a rover, and of a rover whose link fails.

use crate::fakes::{ROVER_LINE, door_of, rover_of, torn_rover};
use crate::telling::{RecordOutcome, told_at};
use std::alloc::Global;
use std::sync::Wait;
use std::test::Fail;
use test_support::{ICY, ICY_A};

/// What is told of the source and a rover of whose link these calls fail.
fn with_rover<R: Wait>(rt: &R, alloc: Global, fails: &[u64]) -> Result<RecordOutcome, Fail> {
    let door = door_of(alloc, rover_of(alloc, fails)?, &[])?;
    told_at(rt, alloc, door)
}

/// The source sends the frame.
const SENT: &[u8] = b"in 1 d300023ed0a4e000\n";

#[test]
fn a_source_and_a_rover_are_recorded_until_both_ended(rt: HostRuntime) -> Result<(), Fail> {
    let told = with_rover(&rt, rt.alloc(), &[])?;
    let end = b"turn 2 16\nend 1\nend 2\n";
    assert!(rt; told.has_lines(rt.alloc(), [ROVER_LINE, SENT, end]));
    assert!(rt; told.second.is(ICY_A, 0));
    Ok(())
}

/// What is told of the source and a rover of which the second write takes three bytes and fails.
fn with_torn_rover<R: Wait>(rt: &R, alloc: Global) -> Result<RecordOutcome, Fail> {
    let door = door_of(alloc, torn_rover(alloc, 2, 3)?, &[])?;
    told_at(rt, alloc, door)
}

/// The report where the rover breaks before it ends: the frame was sent to it.
const TORN_REPORT: &[u8] = b"connection 1 source-end 1
junk 0
bytes 49435920323030204f4b0d0a0d0a
connection 2 read-fault
junk 0
segment ALPHA 0 1 1 0
bytes 49435920323030204f4b0d0a0d0ad300023ed0a4e000
mount ALPHA 1 1
mount BRAVO 0 0
account rover1 1 1 0
account rover2 0 0 0
total 1 1 0
";

#[test]
fn a_rover_whose_write_is_torn_breaks(rt: HostRuntime) -> Result<(), Fail> {
    let told = with_torn_rover(&rt, rt.alloc())?;
    let end = b"turn 2 16\nbreak 2\nend 1\n";
    assert!(rt; told.has_lines(rt.alloc(), [ROVER_LINE, SENT, end]));
    assert!(rt; told.second.is(b"ICY 200 OK\r\n\r\n\xD3\x00\x02", 1));
    assert!(rt; told.report.as_slice() == TORN_REPORT);
    Ok(())
}

/// The lines after `open 2` where this call of the rover's link fails, and what it was then given.
fn after_failure(call: u64) -> ([&'static [u8]; 3], &'static [u8]) {
    match call {
        1 => ([b"break 2\n", SENT, b"end 1\n"], b""),
        2 => (
            [ROVER_LINE, b"break 2\n", b"in 1 d300023ed0a4e000\nend 1\n"],
            b"",
        ),
        3 => ([ROVER_LINE, SENT, b"break 2\nend 1\n"], ICY),
        4 => ([ROVER_LINE, SENT, b"turn 2 16\nbreak 2\nend 1\n"], ICY),
        5 => ([ROVER_LINE, SENT, b"turn 2 16\nend 1\nbreak 2\n"], ICY_A),
        _ => ([ROVER_LINE, SENT, b"turn 2 16\nend 1\nbreak 2\n"], ICY_A),
    }
}

#[test]
fn a_rover_breaks_at_whichever_call_its_link_fails(rt: HostRuntime) -> Result<(), Fail> {
    for call in 1..=6 {
        let (lines, given) = after_failure(call);
        let told = with_rover(&rt, rt.alloc(), &[call])?;
        assert!(rt; told.has_lines(rt.alloc(), lines));
        assert!(rt; told.second.is(given, 1));
    }
    Ok(())
}
