//! Two callers at the seats of a caster: one reads back what it published, and the other joins
//! behind it.

ghost use Rattle.std.specs.Prelude.{◌≡◌, ◌<◌, ◌^◌, ℕ, IsTrue, length};
ghost use mathlib.Core.Option.{some};
ghost use lib.ListN.{get_elem?};
ghost use Rattle.caster_places.specs.Known.{Fit};
ghost use Rattle.caster_seats.specs.Sharing.{AreNewPasses, IsReady};

use crate::one_caller::sit_down;
use crate::setting::config_of;
use caster_accounts::Book;
use caster_places::AllPlaces;
use caster_seats::{Passes, Shared};
use mount_ring::{Cursor, Outbox, ReadReport, Ring, RingAnswer, RingCall};
use rtcm_frame::Frame;
use session_core::Places;
use std::alloc::Global;
use std::sync::Wait;
use std::test::Fail;
use test_support::FRAME_A;
use turn_log::Turns;

/// Claims, joins, publishes a frame and reads.
fn read_own_back<T: Turns<Ring>>(
    place: &mut T,
    me: u32,
    frame: Frame,
    out: &mut Outbox,
) -> Result<ReadReport, Fail>
    requires speaks { IsTrue (T.speaks place.old me) }
    requires filter { 0 < length (T.shape place.old).filters }
{
    let RingAnswer::Given(claim) = place.turn(me, RingCall::Claim, out)? else {
        return Err(Fail::from("the mountpoint is held"));
    };
    let RingAnswer::Joined(cursor) = place.turn(me, RingCall::Join(0), out)? else {
        unreachable!();
    };
    let RingAnswer::At(_) = place.turn(me, RingCall::Publish(claim, frame), out)? else {
        unreachable!();
    };
    let call = RingCall::Read { cursor, budget: 16 };
    match place.turn(me, call, out)? {
        RingAnswer::Read(report) => Ok(report),
        _ => unreachable!(),
    }
}

/// Joins.
fn join<T: Turns<Ring>>(place: &mut T, me: u32, out: &mut Outbox) -> Result<Cursor, Fail>
    requires speaks { IsTrue (T.speaks place.old me) }
    requires filter { 0 < length (T.shape place.old).filters }
{
    match place.turn(me, RingCall::Join(0), out)? {
        RingAnswer::Joined(cursor) => Ok(cursor),
        _ => unreachable!(),
    }
}

/// Claims, joins, publishes a frame and reads at the ring of the last mountpoint.
fn read_at<T: Turns<Ring> + Drop, B: Turns<Book> + Drop>(
    shared: &Shared,
    mut places: Places<T, B>,
    me: u32,
    frame: Frame,
    out: &mut Outbox,
) -> Result<ReadReport, Fail>
    requires ready { IsReady shared.now }
    requires fit { Fit shared.now.config.now me (⟦<Places<T, B> as AllPlaces>⟧.known places) }
{
    let Some(mut place) = places.rings.pop() else {
        return Err(Fail::from("no ring"));
    };
    read_own_back(&mut place, me, frame, out)
}

/// Joins at the ring of the last mountpoint.
fn join_at<T: Turns<Ring> + Drop, B: Turns<Book> + Drop>(
    shared: &Shared,
    mut places: Places<T, B>,
    me: u32,
    out: &mut Outbox,
) -> Result<Cursor, Fail>
    requires ready { IsReady shared.now }
    requires fit { Fit shared.now.config.now me (⟦<Places<T, B> as AllPlaces>⟧.known places) }
{
    let Some(mut place) = places.rings.pop() else {
        return Err(Fail::from("no ring"));
    };
    join(&mut place, me, out)
}

/// The last of these callers reads back the frame that it publishes, and the one before it joins.
fn tell_at<R: Wait + Sync>(
    rt: &R,
    alloc: Global,
    shared: &Shared,
    mut list: Vec<Passes>,
    frame: Frame,
    out: &mut Outbox,
) -> Result<(ReadReport, Cursor), Fail>
    requires ready { IsReady shared.now }
    requires each { (number : ℕ) (passes : _) → get_elem? list.items number ≡ some passes
        → AreNewPasses number passes shared.now }
    requires few { length list.items < 2 ^ 32 }
{
    let (me, places) = sit_down(rt, alloc, shared, &mut list)?;
    let report = read_at(shared, places, me, frame, out)?;
    let (other, places) = sit_down(rt, alloc, shared, &mut list)?;
    Ok((report, join_at(shared, places, other, out)?))
}

/// The same of the two callers of a caster.
fn tell<R: Wait + Sync>(
    rt: &R,
    alloc: Global,
    frame: Frame,
    out: &mut Outbox,
) -> Result<(ReadReport, Cursor), Fail> {
    let config = config_of(alloc, b"")?;
    let (shared, list) = Shared::new(alloc, &config, 2)?;
    tell_at(rt, alloc, &shared, list, frame, out)
}

#[test]
fn a_caller_reads_its_own_frame_back(rt: HostRuntime) -> Result<(), Fail> {
    let frame = Frame::of(FRAME_A).ok_or("no frame")?;
    let mut out = Outbox::new();
    let (report, cursor) = tell(&rt, rt.alloc(), frame, &mut out)?;
    assert!(rt; report.lapped.is_none());
    assert!(rt; out.frames() == [frame].as_slice());
    assert!(rt; cursor.next == 1);
    Ok(())
}
