//! When the door of a recorded session is asked, and when it rests.

use crate::fakes::{FILE, SOURCE, rover_of};
use crate::noted::NotedDoor;
use cast_config::read_config;
use cast_io::MemDoor;
use caster_record::record;
use std::alloc::Global;
use std::sync::Wait;
use std::test::Fail;
use test_support::{FRAME_A, link_of};

/// A door at which a source comes, which sends its head and, after a while, the frame, then nobody
/// twice, and then a rover.
fn noted_door(alloc: Global) -> Result<NotedDoor, Fail> {
    let source = link_of(alloc, &[SOURCE, b"", FRAME_A, b""], &[])?;
    let rover = rover_of(alloc, &[])?;
    let arrivals = vec![in alloc; Some(source), None, None, Some(rover)]?;
    let door = MemDoor::new(alloc, arrivals, Vec::new(alloc))?;
    Ok(NotedDoor::new(alloc, door))
}

/// The caster of the file records two links that come to this door.
fn is_recorded<R: Wait>(rt: &R, alloc: Global, door: &mut NotedDoor) -> Result<bool, Fail> {
    let config = read_config(alloc, FILE)?;
    Ok(record(rt, alloc, &config, 2, door).is_ok())
}

/// The calls of that door while its two links are recorded.
fn calls<R: Wait>(rt: &R, alloc: Global) -> Result<(bool, Vec<u8>), Fail> {
    let mut door = noted_door(alloc)?;
    let recorded = is_recorded(rt, alloc, &mut door)?;
    Ok((recorded, door.calls().to_vec(alloc)?))
}

// Seven rounds. The source comes, and its head is read. Nobody comes, the source sends nothing, and
// the door rests. Nobody comes, and the frame is read. The rover comes, and its head is read. The
// source ends. The rover sends nothing, and the door rests. The rover ends.
#[test]
fn a_door_rests_where_nothing_happened(rt: HostRuntime) -> Result<(), Fail> {
    let (recorded, calls) = calls(&rt, rt.alloc())?;
    assert!(rt; recorded);
    assert!(rt; calls.as_slice() == b"lnrnlr".as_slice());
    Ok(())
}
