//! A record that comes to its limit.

ghost use Rattle.std.specs.Prelude.{IfOk, IsTrue};
ghost use Rattle.cast_io.specs.FakeLinks.{is_new_link};

use crate::fakes::SOURCE;
use crate::telling::{recorded_at, script_of};
use cast_io::{MemDoor, MemLink};
use caster_record::Recorded;
use session_core::Ending;
use std::alloc::{AllocError, Global};
use std::sync::Wait;
use std::test::Fail;
use test_support::link_of;

/// As many bytes of junk as one read takes.
const PIECE: &[u8] = &[0; 4096];

/// A source that sends its head and 1,100 pieces of junk.
fn endless_source(alloc: Global) -> Result<MemLink, AllocError>
    ensures { IfOk result (λ link. IsTrue (is_new_link link)) }
{
    let mut pieces = [PIECE; 1101];
    pieces[0] = SOURCE;
    link_of(alloc, &pieces, &[])
}

/// A door at which that source comes alone.
fn endless_door(alloc: Global) -> Result<MemDoor, AllocError> {
    let arrivals = vec![in alloc; Some(endless_source(alloc)?)]?;
    MemDoor::new(alloc, arrivals, Vec::new(alloc))
}

/// How many events and bytes of their script were recorded, how the first connection ended, and how
/// much junk came of it.
type Size = (usize, usize, Ending, u64);

/// The size of this record.
fn size_of(alloc: Global, recorded: &Recorded<MemLink>) -> Result<Size, Fail> {
    let script = script_of(alloc, &recorded.events)?;
    let first = recorded.report.connections.as_slice().first();
    let receipt = &first.ok_or("no connection")?.receipt;
    Ok((
        recorded.events.len(),
        script.len(),
        receipt.ending,
        receipt.junk,
    ))
}

/// The size of the record of that source.
fn endless<R: Wait>(rt: &R, alloc: Global) -> Result<Size, Fail> {
    let recorded = recorded_at(rt, alloc, endless_door(alloc)?, 1)?;
    size_of(alloc, &recorded)
}

// With its LF the line `open 1` has 7 bytes, that of the head 104, and that of each piece 8,198. So
// 1,020 pieces make 8,362,071 bytes, and 1,021 pieces 8,370,269, which is above the limit.
#[test]
fn a_record_ends_at_its_limit(rt: HostRuntime) -> Result<(), Fail> {
    let (events, size, ending, junk) = endless(&rt, rt.alloc())?;
    assert!(rt; events == 2 + 1021 && size == 8_370_269 + 5);
    assert!(rt; ending == Ending::SourceEnd { claim: 1 });
    assert!(rt; junk == 1021 * 4096);
    Ok(())
}
