//! Rovers at desks, by the public calls. The mountpoint 0 stands at 48.1173 degrees north, the
//! mountpoint 1 at 48.2, both at 11.5166666 east.
ghost use Rattle.std.specs.Prelude.{◌≡◌, ◌≤◌, false, IsTrue, length, map, All, IfOk, OnOk};
ghost use Rattle.turn_log.specs.History.{GoesOn};
ghost use Rattle.base_select.specs.Measure.{IsOnEarth};
ghost use Rattle.mount_ring.specs.History.{is_holder, state_of};
ghost use Rattle.rover_session.specs.Standing.{KnowsFilter, AreWithin, IsServed};

use crate::desks::{FRAME_A, FRAME_B, FRAME_Z, expect_eq, ring_desk};
use base_select::Base;
use gga_read::Position;
use mount_ring::{Outbox, Ring, RingAnswer, RingCall};
use ntrip_head::Version;
use rover_session::RoverSession;
use rtcm_frame::Frame;
use std::alloc::Global;
use std::process::Abort;
use std::test::Fail;
use turn_log::{Desk, Played, Turns};

// The caller number of the rover.
const ROVER: u32 = 3;

/// A frame by its message number, or the shortest one, which has none.
#[derive(Clone, Copy)]
enum Kind {
    Number1005,
    Number1077,
    Shortest,
}

/// What a source does at its mountpoint.
#[derive(Clone, Copy)]
enum Act {
    /// A caller of this number claims the mountpoint.
    Claims(u32),
    /// Whoever holds it publishes a frame.
    Publishes(Kind),
    /// Whoever holds it gives it back.
    Releases,
}

/// A line that the rover sends.
#[derive(Clone, Copy)]
enum Line {
    /// A report from where the mountpoint 0 stands, with so many zeros in an unread field.
    South(usize),
    /// A report from where the mountpoint 1 stands.
    North,
}

/// What happens at the caster.
#[derive(Clone, Copy)]
enum Happening {
    /// Something at the mountpoint of this number.
    Source(usize, Act),
    /// The rover sends a line.
    Sends(Line),
    /// The rover takes a turn of 16 frames.
    Turns,
}

/// The bytes of a line. A zero more changes the checksum between 47 and 77.
fn line_bytes(alloc: Global, line: Line) -> Result<Vec<u8>, Fail> {
    let mut bytes = Vec::new(alloc);
    match line {
        Line::South(zeros) => {
            let front = b"$GPGGA,123519,4807.038,N,01131.000,E,1,08,0.9,545.4,M,46.9,M,,";
            bytes.extend_from_slice(front)?;
            for _ in 0..zeros {
                bytes.push(b'0')?;
            }
            let behind = if zeros % 2 == 0 {
                b"*47\r\n"
            } else {
                b"*77\r\n"
            };
            bytes.extend_from_slice(behind)?;
        }
        Line::North => {
            let front = b"$GPGGA,123519,4812.000,N,01131.000,E,1,08,0.9,545.4,M,46.9,M,,*48\n";
            bytes.extend_from_slice(front)?;
        }
    }
    Ok(bytes)
}

/// The frame of this kind.
fn frame_of(kind: Kind) -> Result<Frame, Fail> {
    let frame = match kind {
        Kind::Number1005 => Frame::of(&FRAME_A),
        Kind::Number1077 => Frame::of(&FRAME_B),
        Kind::Shortest => Frame::of(&FRAME_Z),
    };
    Ok(frame.ok_or("no frame")?)
}

/// Who holds the mountpoint, under which claim: a further claim is told.
fn holder(desk: &mut Desk<Ring>) -> Result<(u32, u64), Fail>
    ensures shape { ⟦<Desk<Ring> as Turns<Ring>>⟧.shape desk.new
        ≡ ⟦<Desk<Ring> as Turns<Ring>>⟧.shape desk.old }
    ensures goes { OnOk result (GoesOn ROVER (⟦<Desk<Ring> as Turns<Ring>>⟧.seen desk.old)
        (⟦<Desk<Ring> as Turns<Ring>>⟧.seen desk.new)) }
    ensures holds { IfOk result (λ held. IsTrue (is_holder
        (state_of (⟦<Desk<Ring> as Turns<Ring>>⟧.seen desk.new)).holder held.0 held.1)) }
{
    match desk.turn(9, RingCall::Claim, &mut Outbox::new())? {
        RingAnswer::Taken { caller, claim } => Ok((caller, claim)),
        _ => Err(Fail::from("nobody holds the mountpoint")),
    }
}

/// A call of whoever holds the mountpoint.
fn call_as(desk: &mut Desk<Ring>, caller: u32, call: RingCall) -> Result<(), Fail>
    requires fits { IsTrue (⟦<Ring as Played>⟧.fits (⟦<Desk<Ring> as Turns<Ring>>⟧.shape desk.old)
        (⟦<Desk<Ring> as Turns<Ring>>⟧.seen desk.old) caller call) }
    ensures shape { ⟦<Desk<Ring> as Turns<Ring>>⟧.shape desk.new
        ≡ ⟦<Desk<Ring> as Turns<Ring>>⟧.shape desk.old }
    ensures goes { OnOk result (GoesOn ROVER (⟦<Desk<Ring> as Turns<Ring>>⟧.seen desk.old)
        (⟦<Desk<Ring> as Turns<Ring>>⟧.seen desk.new)) }
{
    if caller == ROVER {
        return Err(Fail::from("a rover is no source"));
    }
    desk.turn(caller, call, &mut Outbox::new())?;
    Ok(())
}

/// What a source does.
fn act_at(desk: &mut Desk<Ring>, act: Act) -> Result<(), Fail>
    ensures shape { ⟦<Desk<Ring> as Turns<Ring>>⟧.shape desk.new
        ≡ ⟦<Desk<Ring> as Turns<Ring>>⟧.shape desk.old }
    ensures goes { OnOk result (GoesOn ROVER (⟦<Desk<Ring> as Turns<Ring>>⟧.seen desk.old)
        (⟦<Desk<Ring> as Turns<Ring>>⟧.seen desk.new)) }
{
    match act {
        Act::Claims(caller) => call_as(desk, caller, RingCall::Claim),
        Act::Publishes(kind) => {
            let frame = frame_of(kind)?;
            let (caller, claim) = holder(desk)?;
            call_as(desk, caller, RingCall::Publish(claim, frame))
        }
        Act::Releases => {
            let (caller, claim) = holder(desk)?;
            call_as(desk, caller, RingCall::Release(claim))
        }
    }
}

/// One thing happens.
fn happen(
    alloc: Global,
    rover: &mut RoverSession,
    desks: &mut [Desk<Ring>],
    what: Happening,
    out: &mut Vec<u8>,
) -> Result<(), Fail>
    requires me { rover.old.me ≡ ROVER }
    requires served { IsServed (map ⟦<Desk<Ring> as Turns<Ring>>⟧.shape desks.old)
        (map ⟦<Desk<Ring> as Turns<Ring>>⟧.seen desks.old) rover.old }
    ensures me { rover.new.me ≡ ROVER }
    ensures served { OnOk result (IsServed (map ⟦<Desk<Ring> as Turns<Ring>>⟧.shape desks.new)
        (map ⟦<Desk<Ring> as Turns<Ring>>⟧.seen desks.new) rover.new) }
{
    match what {
        Happening::Source(mount, act) => {
            if mount >= desks.len() {
                return Err(Fail::from("no such mountpoint"));
            }
            act_at(&mut desks[mount], act)
        }
        Happening::Sends(line) => {
            let bytes = line_bytes(alloc, line)?;
            rover.feed(bytes.as_slice(), desks)?;
            Ok(())
        }
        Happening::Turns => {
            rover.turn(16, desks, out)?;
            Ok(())
        }
    }
}

/// The first base, and for a near rover the second.
fn two_bases(alloc: Global, near: bool) -> Result<Vec<Base>, Fail>
    ensures count { IfOk result (λ bases.
        (1 ≤ length bases.items) × (length bases.items ≤ 2)) }
    ensures one { IfOk result (λ bases. near ≡ false → length bases.items ≡ 1) }
    ensures on_earth { IfOk result (λ bases. All (λ base. IsOnEarth base.at) bases.items) }
    ensures within { IfOk result (λ bases. AreWithin 2 bases.items) }
{
    let south = Base {
        mount: 0,
        at: Position {
            lat: 481173000,
            lon: 115166666,
        },
    };
    let north = Base {
        mount: 1,
        at: Position {
            lat: 482000000,
            lon: 115166666,
        },
    };
    let mut bases = Vec::new(alloc);
    bases.push(south)?;
    if near {
        bases.push(north)?;
    }
    Ok(bases)
}

/// A rover whose head has no report is started at two desks, and then all this happens.
fn play(
    alloc: Global,
    version: Version,
    near: bool,
    desks: &mut [Desk<Ring>],
    script: &[Happening],
    out: &mut Vec<u8>,
) -> Result<RoverSession, Fail>
    requires two { length desks.old ≡ 2 }
    requires filter { KnowsFilter (map ⟦<Desk<Ring> as Turns<Ring>>⟧.shape desks.old) 0 }
{
    let bases = two_bases(alloc, near)?;
    let mut rover = RoverSession::new(alloc, version, ROVER, 0, bases, 10, near)?;
    rover.start(None, desks)?;
    for what in script {
        happen(alloc, &mut rover, desks, *what, out)?;
    }
    Ok(rover)
}

/// A segment as it is printed: mountpoint, from, to, sent and overrun.
type Row = (u32, u64, u64, u64, u64);

/// The segments as they are printed.
fn rows_of(alloc: Global, rover: &RoverSession) -> Result<Vec<Row>, Fail> {
    let mut rows = Vec::new(alloc);
    for s in rover.segments() {
        rows.push((s.mount, s.from, s.to, s.sent, s.overrun))?;
    }
    Ok(rows)
}

/// What became of a rover: its segments, how many frames they were sent and how many were overrun,
/// and what it was sent.
#[derive(Drop)]
struct RoverOutcome {
    segments: Vec<Row>,
    sums: (u64, u64),
    body: Vec<u8>,
}

/// What became of a rover that was sent these bytes.
fn told_of(alloc: Global, rover: RoverSession, body: Vec<u8>) -> Result<RoverOutcome, Fail> {
    let sums = (rover.sent(), rover.overrun());
    let segments = rows_of(alloc, &rover)?;
    Ok(RoverOutcome {
        segments,
        sums,
        body,
    })
}

/// What became of a rover at two new desks, at which all this happens.
fn rover_told(
    alloc: Global,
    version: Version,
    near: bool,
    script: &[Happening],
) -> Result<RoverOutcome, Fail> {
    let mut desks = [ring_desk(alloc)?, ring_desk(alloc)?];
    let mut body = Vec::new(alloc);
    let rover = play(alloc, version, near, &mut desks, script, &mut body)?;
    told_of(alloc, rover, body)
}

/// These frames, one behind the other.
fn join_frames(alloc: Global, frames: &[&[u8]]) -> Result<Vec<u8>, Fail> {
    let mut body = Vec::new(alloc);
    for frame in frames {
        body.extend_from_slice(*frame)?;
    }
    Ok(body)
}

/// A near rover of version 1 came to these segments and these sums of frames sent and overrun, and
/// was sent these frames.
fn expect_near(
    rt: &impl Abort,
    alloc: Global,
    script: &[Happening],
    segments: &[Row],
    sums: (u64, u64),
    frames: &[&[u8]],
) -> Result<(), Fail> {
    let told = rover_told(alloc, Version::One, true, script)?;
    let body = join_frames(alloc, frames)?;
    expect_eq(rt, told.segments.as_slice(), segments);
    expect_eq(rt, told.sums, sums);
    expect_eq(rt, told.body.as_slice(), body.as_slice());
    Ok(())
}

const THERE_AND_BACK: [Happening; 14] = [
    Happening::Source(0, Act::Claims(1)),
    Happening::Source(1, Act::Claims(2)),
    Happening::Source(0, Act::Publishes(Kind::Number1005)),
    Happening::Sends(Line::South(0)),
    Happening::Source(0, Act::Publishes(Kind::Number1077)),
    Happening::Source(1, Act::Publishes(Kind::Number1005)),
    Happening::Turns,
    Happening::Sends(Line::North),
    Happening::Source(1, Act::Publishes(Kind::Number1077)),
    Happening::Source(0, Act::Publishes(Kind::Number1005)),
    Happening::Turns,
    Happening::Sends(Line::South(0)),
    Happening::Source(0, Act::Publishes(Kind::Shortest)),
    Happening::Turns,
];

#[test]
fn a_near_rover_goes_there_and_back(rt: HostRuntime) -> Result<(), Fail> {
    let rows = [(0, 1, 2, 1, 0), (1, 1, 2, 1, 0), (0, 3, 4, 1, 0)];
    let frames = [FRAME_B.as_slice(), FRAME_B.as_slice(), FRAME_Z.as_slice()];
    expect_near(&rt, rt.alloc(), &THERE_AND_BACK, &rows, (3, 0), &frames)
}

const HELD_OR_NOT: [Happening; 13] = [
    Happening::Source(0, Act::Claims(1)),
    Happening::Sends(Line::North),
    Happening::Source(0, Act::Publishes(Kind::Number1005)),
    Happening::Turns,
    Happening::Source(1, Act::Claims(2)),
    Happening::Source(1, Act::Publishes(Kind::Number1077)),
    Happening::Sends(Line::North),
    Happening::Source(1, Act::Publishes(Kind::Number1005)),
    Happening::Turns,
    Happening::Source(1, Act::Releases),
    Happening::Sends(Line::North),
    Happening::Source(0, Act::Releases),
    Happening::Sends(Line::North),
];

#[test]
fn only_bases_that_are_held_are_chosen(rt: HostRuntime) -> Result<(), Fail> {
    let rows = [(0, 0, 1, 1, 0), (1, 1, 2, 1, 0), (0, 1, 1, 0, 0)];
    let frames = [FRAME_A.as_slice(), FRAME_A.as_slice()];
    expect_near(&rt, rt.alloc(), &HELD_OR_NOT, &rows, (2, 0), &frames)
}

#[test]
fn a_rover_has_no_segment_where_no_base_is_held(rt: HostRuntime) -> Result<(), Fail> {
    let script = [Happening::Sends(Line::North), Happening::Turns];
    expect_near(&rt, rt.alloc(), &script, &[], (0, 0), &[])
}

#[test]
fn a_report_has_at_most_128_bytes(rt: HostRuntime) -> Result<(), Fail> {
    for (zeros, segments) in [(63, 1), (64, 0)] {
        let script = [
            Happening::Source(0, Act::Claims(1)),
            Happening::Sends(Line::South(zeros)),
        ];
        let told = rover_told(rt.alloc(), Version::One, true, &script)?;
        expect_eq(&rt, told.segments.len(), segments);
    }
    Ok(())
}

const TWO_FRAMES: [Happening; 4] = [
    Happening::Source(0, Act::Claims(1)),
    Happening::Source(0, Act::Publishes(Kind::Number1005)),
    Happening::Source(0, Act::Publishes(Kind::Shortest)),
    Happening::Turns,
];

// The frames of the number 1005 and without a number, in a chunk each.
const TWO_CHUNKS: &[u8] =
    b"8\r\n\xd3\x00\x02\x3e\xd0\xa4\xe0\x00\r\n6\r\n\xd3\x00\x00\x47\xea\x4b\r\n";

#[test]
fn version_two_sends_one_chunk_a_frame(rt: HostRuntime) -> Result<(), Fail> {
    let told = rover_told(rt.alloc(), Version::Two, false, &TWO_FRAMES)?;
    expect_eq(&rt, told.body.as_slice(), TWO_CHUNKS);
    expect_eq(&rt, told.segments.as_slice(), [(0, 0, 2, 2, 0)].as_slice());
    Ok(())
}

// The ring keeps four of the six frames.
const LAPPED_ONCE: [Happening; 13] = [
    Happening::Source(0, Act::Claims(1)),
    Happening::Sends(Line::South(0)),
    Happening::Source(0, Act::Publishes(Kind::Number1005)),
    Happening::Source(0, Act::Publishes(Kind::Number1005)),
    Happening::Source(0, Act::Publishes(Kind::Number1005)),
    Happening::Source(0, Act::Publishes(Kind::Number1005)),
    Happening::Source(0, Act::Publishes(Kind::Number1005)),
    Happening::Source(0, Act::Publishes(Kind::Number1005)),
    Happening::Turns,
    Happening::Source(1, Act::Claims(2)),
    Happening::Sends(Line::North),
    Happening::Source(1, Act::Publishes(Kind::Number1005)),
    Happening::Turns,
];

#[test]
fn overrun_is_of_all_segments(rt: HostRuntime) -> Result<(), Fail> {
    let rows = [(0, 0, 6, 4, 2), (1, 0, 1, 1, 0)];
    let frames = [FRAME_A.as_slice(); 5];
    expect_near(&rt, rt.alloc(), &LAPPED_ONCE, &rows, (5, 2), &frames)
}
