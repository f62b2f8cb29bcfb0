//! Where a rover stands, and the laps of its segment. What is expected is counted by hand.

use crate::caster::{FRAME_A, FRAME_B, NONE, ROVER, SOURCE, serve_pair};
use crate::{Act, ConnectionOutcome, SessionStart, Who};
use mount_ring::Lap;
use ntrip_head::Version;
use rover_cursor::Segment;
use session_core::{Ending, Last, RoverState};
use std::alloc::Global;
use std::test::Fail;

/// The head of a rover of BRAVO, in version 2, without credentials.
const ROVER_TWO: &[u8] = b"GET /BRAVO HTTP/1.1\r\nNtrip-Version: Ntrip/2.0\r\n\r\n";

/// A source sends a frame.
const A: (Who, Act) = (Who::Second, Act::In(FRAME_A));

/// A source sends another frame.
const B: (Who, Act) = (Who::Second, Act::In(FRAME_B));

/// A rover reads at most two frames.
const READ_TWO: (Who, Act) = (Who::First, Act::Turn(2));

/// A rover reads at most sixteen frames.
const READ: (Who, Act) = (Who::First, Act::Turn(16));

/// What became of a rover, where a source comes second.
fn rover_told(alloc: Global, script: &[(Who, Act)]) -> Result<ConnectionOutcome, Fail> {
    let told = serve_pair(alloc, SessionStart::Head, NONE, script, Last::End)?;
    Ok(told.0)
}

/// Where a rover stands after these steps.
fn rover_at(alloc: Global, script: &[(Who, Act)]) -> Result<Option<RoverState>, Fail> {
    Ok(rover_told(alloc, script)?.rover)
}

/// Whether a rover stands so after these steps.
fn stands_at(
    alloc: Global,
    script: &[(Who, Act)],
    wanted: Option<RoverState>,
) -> Result<bool, Fail> {
    Ok(rover_at(alloc, script)? == wanted)
}

/// A rover at a mountpoint, whose one segment goes on at this place.
fn at(version: Version, mount: u32, next: u64) -> Option<RoverState> {
    Some(RoverState {
        version,
        mount,
        next,
        segments: 1,
    })
}

const READS: [(Who, Act); 7] = [
    (Who::Second, Act::In(SOURCE)),
    A,
    (Who::First, Act::In(ROVER)),
    B,
    A,
    (Who::First, Act::Turn(1)),
    READ,
];

// It stands nowhere before its head is whole, and then where the next frame will be.
#[test]
fn a_rover_stands_behind_what_it_read(rt: HostRuntime) -> Result<(), Fail> {
    let one = Version::One;
    for (script, wanted) in [
        (&READS[..2], None),
        (&READS[..3], at(one, 0, 1)),
        (&READS[..5], at(one, 0, 1)),
        (&READS[..6], at(one, 0, 2)),
        (&READS[..7], at(one, 0, 3)),
    ] {
        assert!(rt; stands_at(rt.alloc(), script, wanted)?);
    }
    Ok(())
}

const ONLY_SOURCE: [(Who, Act); 2] = [
    (Who::First, Act::In(SOURCE)),
    (Who::First, Act::In(FRAME_A)),
];

const REFUSED: [(Who, Act); 2] = [(Who::Second, Act::In(ROVER)), (Who::First, Act::In(ROVER))];

const JOINS_IN_TWO: [(Who, Act); 1] = [(Who::First, Act::In(ROVER_TWO))];

// A source and a rover that was refused. One of version 2 that goes on stands at its mountpoint.
#[test]
fn who_is_no_rover_that_goes_on_stands_nowhere(rt: HostRuntime) -> Result<(), Fail> {
    for (script, wanted) in [
        (ONLY_SOURCE.as_slice(), None),
        (REFUSED.as_slice(), None),
        (JOINS_IN_TWO.as_slice(), at(Version::Two, 1, 0)),
    ] {
        assert!(rt; stands_at(rt.alloc(), script, wanted)?);
    }
    Ok(())
}

/// What a receipt says of a rover: how it ended, how many frames it was sent and how many were
/// overrun.
type Sums = (Ending, u64, u64);

/// A segment: mountpoint, from, to, how many frames were sent and how many were overrun.
type Row = (u32, u64, u64, u64, u64);

/// What became of a rover of one segment.
#[derive(Drop)]
struct Lapped {
    sums: Sums,
    segment: Row,
    laps: Vec<Lap>,
}

impl Lapped {
    /// These are its sums, its segment and the laps of that.
    fn is(&self, sums: Sums, segment: Row, laps: &[Lap]) -> bool {
        self.sums == sums && self.segment == segment && self.laps.as_slice() == laps
    }
}

/// A segment in numbers.
fn row(segment: &Segment) -> Row {
    (
        segment.mount,
        segment.from,
        segment.to,
        segment.sent,
        segment.overrun,
    )
}

/// What became of a rover of one segment after these steps.
fn rover_lapped(alloc: Global, script: &[(Who, Act)]) -> Result<Lapped, Fail> {
    let receipt = rover_told(alloc, script)?.receipt;
    let segments = receipt.segments.as_slice();
    if segments.len() != 1 {
        return Err(Fail::from("not one segment"));
    }
    Ok(Lapped {
        sums: (receipt.ending, receipt.sent, receipt.overrun),
        segment: row(&segments[0]),
        laps: Vec::from_slice(alloc, segments[0].laps.as_slice())?,
    })
}

fn lap(from: u64, to: u64, published: u64, overrun: u64) -> Lap {
    Lap {
        from,
        to,
        published,
        overrun,
    }
}

const LAPPED_THREE_TIMES: [(Who, Act); 20] = [
    (Who::First, Act::In(ROVER)),
    (Who::Second, Act::In(SOURCE)),
    A,
    B,
    A,
    B,
    A,
    B,
    READ,
    A,
    B,
    A,
    B,
    A,
    READ_TWO,
    A,
    B,
    A,
    B,
    READ,
];

// The ring keeps four frames. Of six the first two are gone; of eleven the one at place 6 is, and
// the rover reads two; of fifteen those at 9 and 10 are. The sums of the receipt are those of its
// one segment.
#[test]
fn a_segment_has_each_lap_of_its_rover(rt: HostRuntime) -> Result<(), Fail> {
    let told = rover_lapped(rt.alloc(), &LAPPED_THREE_TIMES)?;
    let laps = [lap(0, 2, 6, 2), lap(6, 7, 11, 1), lap(9, 11, 15, 2)];
    assert!(rt; told.is((Ending::RoverEnd, 10, 5), (0, 0, 15, 10, 5), &laps));
    Ok(())
}
