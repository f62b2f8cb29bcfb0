//! Runs of a link in memory: each kind of step, calls that fail by number, torn writes.
ghost use Rattle.std.specs.Prelude.{IfOk, IsTrue};
ghost use Rattle.std.specs.List.{list_all};
ghost use Rattle.cast_io.specs.FakeLinks.{has_bytes};

use crate::expecting::expect_eq;
use crate::runs::{run_link, run_sink};
use cast_io::{ByteString, LinkStep, MemLink, MemSink, Step};
use std::alloc::Global;
use std::test::Fail;

// A peer that sends `abcd`, is idle, sends `ef` and ends.
pub(crate) fn steps(alloc: Global) -> Result<Vec<LinkStep>, Fail>
    ensures { IfOk result (λ steps. IsTrue (list_all has_bytes steps.items)) }
{
    let mut steps = Vec::new(alloc);
    steps.push(LinkStep::Bytes(ByteString::copy_of(alloc, b"abcd")?))?;
    steps.push(LinkStep::Idle)?;
    steps.push(LinkStep::Bytes(ByteString::copy_of(alloc, b"ef")?))?;
    steps.push(LinkStep::End)?;
    Ok(steps)
}

#[test]
fn each_kind_of_step_is_read(rt: HostRuntime) -> Result<(), Fail> {
    let mut link = MemLink::new(rt.alloc(), steps(rt.alloc())?, Vec::new(rt.alloc()));
    let answers = run_link(rt.alloc(), &mut link, "3 3 3 3 3 3")?;
    expect_eq(
        &rt,
        answers.as_slice(),
        b"abc d idle ef end end ".as_slice(),
    );
    Ok(())
}

// A failed read, a failed write, and a read that gave what the failed one left.
fn steps_taken(alloc: Global) -> Result<Vec<Step>, Fail> {
    let mut steps = Vec::new(alloc);
    steps.push(Step::ReadFailed)?;
    steps.push(Step::WriteFailed)?;
    steps.push(Step::Bytes(ByteString::copy_of(alloc, b"abcd")?))?;
    Ok(steps)
}

// Whether a link took this, had so many faults, and tells just those steps.
fn has_taken(alloc: Global, link: &MemLink, bytes: &[u8], faults: u64) -> Result<bool, Fail> {
    let wanted = steps_taken(alloc)?;
    let told = link.steps() == Some(wanted.as_slice());
    Ok(told && link.bytes() == bytes && link.faults() == faults)
}

// A run of which the second and the third call fail, a read and a write: its answers, and whether
// the link took the other writes, had two faults and tells just those steps.
fn failing_run(alloc: Global) -> Result<(Vec<u8>, bool), Fail> {
    let mut link = MemLink::new(alloc, steps(alloc)?, [2, 3].to_vec(alloc)?);
    let answers = run_link(alloc, &mut link, "one 8 two 8 three")?;
    let told = has_taken(alloc, &link, b"onethree", 2)?;
    Ok((answers, told))
}

#[test]
fn calls_fail_by_their_number(rt: HostRuntime) -> Result<(), Fail> {
    let (answers, told) = failing_run(rt.alloc())?;
    expect_eq(
        &rt,
        answers.as_slice(),
        b"ok failed failed abcd ok ".as_slice(),
    );
    assert!(rt; told);
    Ok(())
}

// A run of a link whose second write fails after so many bytes: its answers, and what the link took
// behind them. The read between the writes is no write.
fn torn_link(alloc: Global, most: u64) -> Result<Vec<u8>, Fail> {
    let mut link = MemLink::torn(alloc, steps(alloc)?, [(2, most)].to_vec(alloc)?);
    let mut told = run_link(alloc, &mut link, "ab 8 cd ef")?;
    told.extend_from_slice(link.bytes())?;
    Ok(told)
}

// The same of a sink.
fn torn_sink(alloc: Global, most: u64) -> Result<Vec<u8>, Fail> {
    let mut sink = MemSink::torn(alloc, [(2, most)].to_vec(alloc)?);
    let mut told = run_sink(alloc, &mut sink, "ab cd ef")?;
    told.extend_from_slice(sink.bytes())?;
    Ok(told)
}

#[test]
fn writes_of_a_link_are_torn(rt: HostRuntime) -> Result<(), Fail> {
    for (most, told) in [
        (0, b"ok abcd failed ok abef".as_slice()),
        (1, b"ok abcd failed ok abcef"),
        (2, b"ok abcd failed ok abcdef"),
        (9, b"ok abcd failed ok abcdef"),
    ] {
        expect_eq(&rt, torn_link(rt.alloc(), most)?.as_slice(), told);
    }
    Ok(())
}

#[test]
fn writes_of_a_sink_are_torn(rt: HostRuntime) -> Result<(), Fail> {
    for (most, told) in [
        (0, b"ok failed ok abef".as_slice()),
        (1, b"ok failed ok abcef"),
        (2, b"ok failed ok abcdef"),
        (9, b"ok failed ok abcdef"),
    ] {
        expect_eq(&rt, torn_sink(rt.alloc(), most)?.as_slice(), told);
    }
    Ok(())
}
