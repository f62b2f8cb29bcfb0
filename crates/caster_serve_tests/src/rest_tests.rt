//! When a link and a door rest, and when bytes are written: what a link and a door note of their
//! calls, in the order in which they come.
ghost use Rattle.std.specs.Prelude.{◌≡◌};
ghost use Rattle.cast_io.specs.FakeDoors.{door_told};

use crate::fakes::door_with;
use crate::one_caller::{serve_as, work_at};
use crate::setting::{ADDRESS, ROVER_ALPHA, SOURCE_ALPHA};
use crate::thread_tests::{NONE, timed_door};
use cast_config::read_config;
use cast_io::{Arrived, Door, MemDoor, MemLink};
use caster_serve::{Role, serve};
use std::alloc::Global;
use std::sync::Wait;
use std::sync::atomic::AtomicBool;
use std::test::Fail;
use std::thread::Threads;
use std::time::Clock;
use test_support::{FRAME_A, FRAMES_AB, link_of};
use test_timed_io::{Stop, TimedLink, TimedStreet};

// Two workers, and a ring that holds more frames than a turn takes.
const FILE: &[u8] = b"version = 1
workers = 2
[[mount]]
name = 'ALPHA'
password = 'sesame'
ring = 64
latitude = 481173000
longitude = 115166666
[[group]]
name = 'field'
mounts = ['ALPHA']
types = 'all'
[[account]]
user = 'rover1'
password = 'secret'
group = 'field'
cap = 1
";

/// What the link of a client notes that sends these pieces and is served alone.
fn notes_of<R: Clock + Wait + Sync>(
    rt: &R,
    alloc: Global,
    pieces: &[&[u8]],
) -> Result<Vec<u8>, Fail> {
    let link = link_of(alloc, pieces, &[])?;
    let mut link = TimedLink::new(rt, alloc, &[], Vec::new(alloc), link);
    let _receipt = serve_as(rt, alloc, b"", Role::Caller, &mut link)?;
    Ok(link.notes().to_vec(alloc)?)
}

// A reply is written before the next read. No rest follows a read that gave bytes, nor comes behind
// the end of a session.
#[test]
fn a_link_rests_where_its_peer_says_nothing(rt: HostRuntime) -> Result<(), Fail> {
    let source: [&[u8]; 4] = [b"", SOURCE_ALPHA, FRAMES_AB, b""];
    let rover: [&[u8]; 1] = [ROVER_ALPHA];
    let refused: [&[u8]; 2] = [b"SOURCE wrong ALPHA\r\n\r\n", b""];
    for (pieces, wanted) in [
        (source.as_slice(), b"irbwbire".as_slice()),
        (rover.as_slice(), b"bwe"),
        (refused.as_slice(), b"bw"),
    ] {
        let notes = notes_of(&rt, rt.alloc(), pieces)?;
        assert_eq!(rt; notes.as_slice(), wanted);
    }
    Ok(())
}

/// A source of ALPHA that publishes so many frames.
fn source_of(alloc: Global, count: usize) -> Result<MemLink, Fail> {
    let mut body = Vec::new(alloc);
    for _ in 0..count {
        body.extend_from_slice(FRAME_A)?;
    }
    Ok(link_of(alloc, &[SOURCE_ALPHA, &body], &[])?)
}

/// A street of a rover of ALPHA, and of a source that publishes so many frames within the rover's
/// second read. The calls of the rover up to there are a read, a write and a read; those of the
/// source up to where its frames were published are a read, a write and two reads.
fn street_of<'a, R: Clock>(
    rt: &'a R,
    alloc: Global,
    flags: &'a [AtomicBool],
    count: usize,
) -> Result<TimedStreet<'a, R>, Fail> {
    let waits = Stop {
        call: 3,
        sets: 0,
        awaits: 1,
    };
    let begins = Stop {
        call: 1,
        sets: NONE,
        awaits: 0,
    };
    let done = Stop {
        call: 4,
        sets: 1,
        awaits: NONE,
    };
    let rover = link_of(alloc, &[ROVER_ALPHA, b"", b""], &[])?;
    let mut doors = Vec::new(alloc);
    doors.push(timed_door(rt, alloc, flags, &[waits], rover)?)?;
    let source = source_of(alloc, count)?;
    doors.push(timed_door(rt, alloc, flags, &[begins, done], source)?)?;
    Ok(TimedStreet::new(alloc, doors))
}

/// The caster of the file serves one link at each door of this street.
fn serve_file<R: Clock + Threads + Wait + Sync>(
    rt: &R,
    alloc: Global,
    street: &mut TimedStreet<R>,
) -> Result<(), Fail> {
    let config = read_config(alloc, FILE)?;
    let _closed = serve(rt, alloc, &config, ADDRESS, 1, street);
    Ok(())
}

/// What the link notes that came back to the first door of this street.
fn first_notes<R: Clock>(alloc: Global, street: &TimedStreet<R>) -> Result<Vec<u8>, Fail> {
    let door = street.back().first().ok_or("no door")?;
    let link = door.back().ok_or("no link came back")?;
    Ok(link.notes().to_vec(alloc)?)
}

/// What the rover's link notes over such a street.
fn rover_notes<R: Clock + Threads + Wait + Sync>(
    rt: &R,
    alloc: Global,
    count: usize,
) -> Result<Vec<u8>, Fail> {
    let flags = [AtomicBool::new(false), AtomicBool::new(false)];
    let mut street = street_of(rt, alloc, &flags, count)?;
    serve_file(rt, alloc, &mut street)?;
    first_notes(alloc, &street)
}

// A turn takes 16 frames. Behind one that found fewer the link rests once they are written; behind
// one that found as many another turn looks for more.
#[test]
fn a_link_rests_behind_the_write_of_the_last_frames(rt: HostRuntime) -> Result<(), Fail> {
    for (count, wanted) in [
        (15, b"bwiwrire".as_slice()),
        (16, b"bwiwire"),
        (17, b"bwiwiwre"),
    ] {
        let notes = rover_notes(&rt, rt.alloc(), count)?;
        assert_eq!(rt; notes.as_slice(), wanted);
    }
    Ok(())
}

/// A door as one in memory that notes its calls: `l` where a link came, `i` where nobody did, `f`
/// where an accept failed, `r` for a rest and `h` where a link was hung up.
#[derive(Drop)]
struct NotingDoor {
    door: MemDoor,
    notes: Vec<u8>,
}

impl NotingDoor {
    // Notes a call.
    fn note(&mut self, letter: u8)
        ensures { self.new.door ≡ self.old.door }
    {
        let _ = self.notes.push(letter);
    }
}

impl Door for NotingDoor {
    type Link = MemLink;

    ghost told = { λ door. door_told door.door };

    fn accept(&mut self) -> Arrived<MemLink> {
        let arrived = self.door.accept();
        let letter = match &arrived {
            Arrived::Link(_) => b'l',
            Arrived::Idle => b'i',
            Arrived::Failed => b'f',
        };
        self.note(letter);
        arrived
    }

    fn rest(&mut self) {
        self.note(b'r');
    }

    fn hang_up(&mut self, link: MemLink) {
        self.note(b'h');
        self.door.hang_up(link);
    }
}

/// What a door notes at which a client arrives, then nothing, and then one that ends at once, while
/// a worker serves two links.
fn door_notes<R: Wait + Sync>(rt: &R, alloc: Global) -> Result<Vec<u8>, Fail> {
    let door = NotingDoor {
        door: door_with(alloc, &[], &[])?,
        notes: Vec::new(alloc),
    };
    let (door, _tally) = work_at(rt, alloc, door, 2)?;
    Ok(door.notes)
}

// It rests behind an accept that found nothing, and nowhere else.
#[test]
fn a_door_rests_where_nobody_came(rt: HostRuntime) -> Result<(), Fail> {
    let notes = door_notes(&rt, rt.alloc())?;
    assert_eq!(rt; notes.as_slice(), b"lhirlh".as_slice());
    Ok(())
}
