//! A door that fails, and one at which a link comes late.

use crate::fakes::{ROVER, ROVER_LINE, SOURCE, door_of, rover_of};
use crate::telling::{Given, SOURCE_LINES, given_of, record_at, recorded_at, script_of};
use cast_io::MemDoor;
use caster_record::RecorderFault;
use std::alloc::{AllocError, Global};
use std::sync::Wait;
use std::test::Fail;
use test_support::{FRAME_A, ICY, link_of};

/// A door whose second accept fails.
fn failing_door(alloc: Global) -> Result<MemDoor, AllocError> {
    let rover = link_of(alloc, &[ROVER], &[])?;
    door_of(alloc, rover, &[2])
}

/// A record at this door meets a fault of the network.
fn meets_fault<R: Wait>(rt: &R, alloc: Global, door: &mut MemDoor) -> Result<bool, Fail> {
    let answer = record_at(rt, alloc, door, 2)?;
    Ok(matches!(answer, Err(RecorderFault::Network)))
}

/// This link alone came back to the door, and was given this. The door failed so often.
fn has_back(door: &MemDoor, bytes: &[u8], faults: u64) -> bool {
    match door.back() {
        Some([link]) => link.bytes() == bytes && door.faults() == faults,
        _ => false,
    }
}

/// Whether a record at that door meets a fault of the network, and whether one link came back,
/// which was let in, from a door that failed once.
fn hung_up<R: Wait>(rt: &R, alloc: Global) -> Result<(bool, bool), Fail> {
    let mut door = failing_door(alloc)?;
    let network = meets_fault(rt, alloc, &mut door)?;
    Ok((network, has_back(&door, ICY, 1)))
}

#[test]
fn links_are_hung_up_where_the_door_fails(rt: HostRuntime) -> Result<(), Fail> {
    let (network, back) = hung_up(&rt, rt.alloc())?;
    assert!(rt; network);
    assert!(rt; back);
    Ok(())
}

/// Junk whose line in a script has more than 1,000 bytes.
const JUNK: &[u8] = &[0; 600];

/// A door at which a source comes, then nothing three times, and then a rover.
fn late_door(alloc: Global) -> Result<MemDoor, AllocError> {
    let source = link_of(alloc, &[SOURCE, JUNK, b"", b"", FRAME_A], &[])?;
    let rover = rover_of(alloc, &[])?;
    let arrivals = vec![in alloc; Some(source), None, None, None, Some(rover)]?;
    MemDoor::new(alloc, arrivals, Vec::new(alloc))
}

/// The lines of that junk, of the opening of the second connection and of the frame, up to the
/// digits of the rover's head.
fn junk_and_frame(alloc: Global) -> Result<Vec<u8>, AllocError> {
    let digits = [b'0'; 1200];
    [
        b"in 1 ",
        digits.as_slice(),
        b"\nopen 2\nin 1 d300023ed0a4e000\n",
    ]
    .concat(alloc)
}

/// The script of what comes to that door. The second connection opens while the source goes on, and
/// the rover joins behind the frame.
fn late_script(alloc: Global) -> Result<Vec<u8>, AllocError> {
    let middle = junk_and_frame(alloc)?;
    let end = b"end 1\nend 2\nstop\n";
    [SOURCE_LINES, middle.as_slice(), ROVER_LINE, end].concat(alloc)
}

/// What is told of the links that come to that door: how many they are, their script, and what the
/// rover was given.
fn late<R: Wait>(rt: &R, alloc: Global) -> Result<(usize, Vec<u8>, Given), Fail> {
    let recorded = recorded_at(rt, alloc, late_door(alloc)?, 2)?;
    let script = script_of(alloc, &recorded.events)?;
    let rover = given_of(alloc, &recorded)?;
    Ok((recorded.links.len(), script, rover))
}

#[test]
fn a_link_that_comes_late_is_served(rt: HostRuntime) -> Result<(), Fail> {
    let (links, script, rover) = late(&rt, rt.alloc())?;
    assert!(rt; links == 2);
    assert!(rt; script.as_slice() == late_script(rt.alloc())?.as_slice());
    assert!(rt; rover.is(ICY, 0));
    Ok(())
}
