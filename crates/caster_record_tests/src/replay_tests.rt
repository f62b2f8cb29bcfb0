//! The script of what was recorded is replayed.

use crate::fakes::{FILE, door_of, rover_of};
use crate::telling::{text_of, told_at};
use cast_config::read_config;
use caster_replay::replay;
use session_script::{ScriptKind, parse};
use std::alloc::Global;
use std::sync::Wait;
use std::test::Fail;

/// The report of a source of ALPHA that sends one frame, which a rover of the first account reads.
const REPORT: &[u8] = b"connection 1 source-end 1
junk 0
bytes 49435920323030204f4b0d0a0d0a
connection 2 rover-end
junk 0
segment ALPHA 0 1 1 0
bytes 49435920323030204f4b0d0a0d0ad300023ed0a4e000
mount ALPHA 1 1
mount BRAVO 0 0
account rover1 1 1 0
account rover2 0 0 0
total 1 1 0
";

/// The report of the replay of this script.
fn replay_script(alloc: Global, script: &[u8]) -> Result<Vec<u8>, Fail> {
    let config = read_config(alloc, FILE)?;
    let events = parse(alloc, script, ScriptKind::Replay { relays: 0 })?;
    let report = replay(alloc, &config, &events)?;
    text_of(alloc, &report)
}

/// The reports of a source and a rover that are recorded, and of the replay of their script.
fn reports<R: Wait>(rt: &R, alloc: Global) -> Result<[Vec<u8>; 2], Fail> {
    let door = door_of(alloc, rover_of(alloc, &[])?, &[])?;
    let told = told_at(rt, alloc, door)?;
    let replayed = replay_script(alloc, &told.script)?;
    Ok([replayed, told.report])
}

#[test]
fn the_replay_of_the_script_writes_the_report(rt: HostRuntime) -> Result<(), Fail> {
    let [replayed, recorded] = reports(&rt, rt.alloc())?;
    assert!(rt; replayed.as_slice() == REPORT);
    assert!(rt; recorded.as_slice() == REPORT);
    Ok(())
}
