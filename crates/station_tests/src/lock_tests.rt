//! A station at a lock: two threads take turns on it.
ghost use Rattle.std.specs.Prelude.{◌≡◌, ◌==◌, ◌<◌, true, IfOk, length};
ghost use Rattle.turn_log.specs.Lock.{turn_value, pass_number, IsPassOf};
ghost use Rattle.mount_ring.specs.Kept.{ring_shape};
ghost use Rattle.last_frames.specs.LockTests.{IsHanded};

use crate::frames_tests::{FRAME_1005, join_first, new_station, publish_first};
use last_frames::{Hall, Station, StationPlace};
use mount_ring::RingCall;
use rtcm_frame::Frame;
use std::alloc::Global;
use std::sync::Wait;
use std::test::Fail;
use std::thread::{Threads, join};
use turn_log::{Pass, Turn, TurnFault, Turns};
use type_filter::Filter;

/// Publishes a frame with this pass.
fn publish_at<R: Wait + Sync>(
    turn: &Turn<Station>,
    rt: &R,
    pass: Pass<Station>,
    me: u32,
    frame: Frame,
) -> Result<Pass<Station>, Fail>
    requires pass { IsPassOf pass turn.now }
    requires me { (me == pass_number pass) ≡ true }
    ensures { IfOk result (λ pass. IsPassOf pass turn.now) }
{
    let mut place = StationPlace::new(turn.seat(rt, pass));
    publish_first(&mut place, me, frame)?;
    Ok(place.inner().leave())
}

/// Looks with this pass.
fn look_at<R: Wait + Sync>(
    turn: &Turn<Station>,
    rt: &R,
    pass: Pass<Station>,
    me: u32,
) -> Pass<Station>
    requires pass { IsPassOf pass turn.now }
    requires me { (me == pass_number pass) ≡ true }
    ensures { IsHanded result turn.now me }
{
    let mut seat = turn.seat(rt, pass);
    let _looked = seat.turn(me, RingCall::Look, &mut Hall::new());
    seat.leave()
}

/// Joins with this pass, and tells whether the greeting is this frame.
fn is_greeted<R: Wait + Sync>(
    turn: &Turn<Station>,
    rt: &R,
    pass: Pass<Station>,
    me: u32,
    frame: Frame,
) -> Result<bool, TurnFault>
    requires pass { IsPassOf pass turn.now }
    requires me { (me == pass_number pass) ≡ true }
    requires filter { 0 < length (ring_shape (turn_value turn.now).ring).filters }
{
    let mut place = StationPlace::new(turn.seat(rt, pass));
    join_first(&mut place, me)?;
    match place.greeting() {
        Some(frames) => Ok(frames == [frame].as_slice()),
        None => Ok(false),
    }
}

/// One thread publishes a frame with the first pass, while another looks with the second.
fn publish_beside<R: Threads + Wait + Sync>(
    turn: &Turn<Station>,
    rt: &R,
    first: Pass<Station>,
    second: Pass<Station>,
    frame: Frame,
) -> (Result<Pass<Station>, Fail>, Pass<Station>)
    requires first { IsPassOf first turn.now × ((0 == pass_number first) ≡ true) }
    requires second { IsPassOf second turn.now × ((1 == pass_number second) ≡ true) }
    ensures first { IfOk result.0 (λ pass. IsPassOf pass turn.now) }
    ensures second { IsHanded result.1 turn.now 1 }
{
    join(
        rt,
        move ||
            requires { IsPassOf first turn.now × ((0 == pass_number first) ≡ true) }
        { publish_at(turn, rt, first, 0, frame) },
        move ||
            requires { IsPassOf second turn.now × ((1 == pass_number second) ≡ true) }
        { look_at(turn, rt, second, 1) },
    )
}

/// The second pass is told of the frame that the first published, and joins: whether it is greeted
/// by that frame.
fn tell<R: Threads + Wait + Sync>(
    turn: &Turn<Station>,
    rt: &R,
    first: Pass<Station>,
    second: Pass<Station>,
    frame: Frame,
) -> Result<bool, Fail>
    requires first { IsPassOf first turn.now × (pass_number first ≡ 0) }
    requires second { IsPassOf second turn.now × (pass_number second ≡ 1) }
    requires filter { 0 < length (ring_shape (turn_value turn.now).ring).filters }
{
    let (first, mut second) = publish_beside(turn, rt, first, second, frame);
    let mut first = first?;
    let note = turn.note(&mut first);
    turn.meet(&mut second, note);
    Ok(is_greeted(turn, rt, second, 1, frame)?)
}

/// A lock of a station that permits every frame, with two passes.
fn open_two(alloc: Global) -> Result<(Turn<Station>, Pass<Station>, Pass<Station>), Fail>
    ensures first { IfOk result (λ opened.
        IsPassOf opened.1 opened.0 × (pass_number opened.1 ≡ 0)) }
    ensures second { IfOk result (λ opened.
        IsPassOf opened.2 opened.0 × (pass_number opened.2 ≡ 1)) }
    ensures filter { IfOk result (λ opened.
        0 < length (ring_shape (turn_value opened.0).ring).filters) }
{
    let station = new_station(alloc, Filter::all())?;
    let (turn, mut passes) = Turn::open(alloc, station, 2)?;
    let Some(second) = passes.pop() else {
        unreachable!()
    };
    let Some(first) = passes.pop() else {
        unreachable!()
    };
    Ok((turn, first, second))
}

/// Whether the second pass, which met the note that the first wrote once it had published a frame,
/// is greeted by that frame.
fn is_told<R: Threads + Wait + Sync>(alloc: Global, rt: &R, frame: Frame) -> Result<bool, Fail> {
    let (turn, first, second) = open_two(alloc)?;
    tell(&turn, rt, first, second, frame)
}

#[test]
fn who_met_a_note_is_greeted_by_what_its_writer_published(rt: HostRuntime) -> Result<(), Fail> {
    let frame = Frame::of(&FRAME_1005).ok_or("no frame")?;
    assert!(rt; is_told(rt.alloc(), &rt, frame)?);
    Ok(())
}
