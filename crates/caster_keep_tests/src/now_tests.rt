//! Casters at whose console it is wanted how things stand.

use crate::fakes::ask;
use cast_console::Wanted;
use cast_io::MemSink;
use caster_keep::Stop;
use std::test::Fail;

/// What is wanted: twice how things stand, with a rest between.
const TWICE: [Wanted; 3] = [
    Wanted::Status { busy: 1 },
    Wanted::Nothing,
    Wanted::Status { busy: 0 },
];

/// What is written of it, and at last the totals.
const SAID: &[u8] = b"now mount ALPHA 0 -
now workers 1 1
now end
now mount ALPHA 0 -
now workers 0 1
now end
mount ALPHA 0 0
account rover1 0 0 0
total 0 0 0
";

// Nobody serves a link, and nothing is published.
#[test]
fn how_things_stand_is_said_when_it_is_wanted(rt: HostRuntime) -> Result<(), Fail> {
    let alloc = rt.alloc();
    let ran = ask(&rt, alloc, &TWICE, MemSink::new(alloc, Vec::new(alloc)))?;
    assert!(rt; ran.is(Stop::Over, false, SAID));
    Ok(())
}
