//! The ring at a lock: one pass reads back what it published, and another is told of it.
ghost use Rattle.std.specs.Prelude.{◌≡◌, ◌<◌, IsTrue, length};
ghost use Rattle.turn_log.specs.Turn.{SamePlace};
ghost use Rattle.turn_log.specs.Lock.{turn_value, pass_number, IsPassOf};
ghost use Rattle.mount_ring.specs.Kept.{ring_shape};

use crate::locks::open_two;
use mount_ring::{Cursor, Outbox, ReadReport, Ring, RingAnswer, RingCall};
use rtcm_frame::Frame;
use std::alloc::Global;
use std::sync::Wait;
use std::test::Fail;
use turn_log::{Pass, Turn, Turns};
use type_filter::{Filter, Filters};

// A frame whose payload is the number 1005 alone.
const FRAME: [u8; 8] = [0xD3, 0x00, 0x02, 0x3E, 0xD0, 0xA4, 0xE0, 0x00];

/// Claims, joins, publishes a frame and reads, at any place.
fn read_own_back<T: Turns<Ring>>(
    place: &mut T,
    me: u32,
    frame: Frame,
    out: &mut Outbox,
) -> Result<ReadReport, Fail>
    requires speaks { IsTrue (T.speaks place.old me) }
    requires filter { 0 < length (T.shape place.old).filters }
    ensures same { SamePlace T.shape T.speaks T.may_lack T.alone T.home place.old place.new }
{
    let RingAnswer::Given(claim) = place.turn(me, RingCall::Claim, out)? else {
        return Err("the mountpoint is held".into());
    };
    let RingAnswer::Joined(cursor) = place.turn(me, RingCall::Join(0), out)? else {
        unreachable!();
    };
    let RingAnswer::At(_) = place.turn(me, RingCall::Publish(claim, frame), out)? else {
        unreachable!();
    };
    let call = RingCall::Read { cursor, budget: 16 };
    match place.turn(me, call, out)? {
        RingAnswer::Read(report) => Ok(report),
        _ => unreachable!(),
    }
}

/// The first pass reads back what it published, and the second joins once it was told.
fn tell<R: Wait + Sync>(
    turn: &Turn<Ring>,
    rt: &R,
    first: Pass<Ring>,
    mut second: Pass<Ring>,
    frame: Frame,
    out: &mut Outbox,
) -> Result<(ReadReport, Cursor), Fail>
    requires first { IsPassOf first turn.now × (pass_number first ≡ 0) }
    requires second { IsPassOf second turn.now × (pass_number second ≡ 1) }
    requires filter { 0 < length (ring_shape (turn_value turn.now)).filters }
{
    let mut seat = turn.seat(rt, first);
    let report = read_own_back(&mut seat, 0, frame, out)?;
    let mut first = seat.leave();
    let note = turn.note(&mut first);
    turn.meet(&mut second, note);
    let mut seat = turn.seat(rt, second);
    match seat.turn(1, RingCall::Join(0), out)? {
        RingAnswer::Joined(cursor) => Ok((report, cursor)),
        _ => unreachable!(),
    }
}

/// A ring that permits every frame, at a lock: what `tell` gives, and the frames that were read.
fn told_at_a_lock<R: Wait + Sync>(
    rt: &R,
    alloc: Global,
    frame: Frame,
    out: &mut Outbox,
) -> Result<(ReadReport, Cursor), Fail> {
    let mut list = Vec::new(alloc);
    list.push(Filter::all())?;
    let ring = Ring::new(alloc, 4, &Filters::new(list))?;
    let (turn, first, second) = open_two(alloc, ring)?;
    tell(&turn, rt, first, second, frame, out)
}

#[test]
fn a_pass_reads_its_own_frame_and_tells_another(rt: HostRuntime) -> Result<(), Fail> {
    let frame = Frame::of(&FRAME).ok_or("no frame")?;
    let mut out = Outbox::new();
    let (report, cursor) = told_at_a_lock(&rt, rt.alloc(), frame, &mut out)?;
    assert_eq!(rt; out.frames(), [frame].as_slice());
    assert!(rt; report.lapped.is_none() && cursor.next >= 1);
    Ok(())
}
