//! A rover at a desk, by the public calls.
ghost use Rattle.std.specs.Prelude.{◌≡◌, ◌≤◌, IsTrue, [], ◌∷◌, OnOk, IfOk};
ghost use Rattle.turn_log.specs.History.{GoesOn};
ghost use Rattle.mount_ring.specs.History as history;

use crate::desks::{expect_eq, frames_of};
use mount_ring::{Cursor, Lap, Outbox, Ring, RingAnswer, RingCall};
use rover_cursor::{Laps, Segment};
use rtcm_frame::Frame;
use std::alloc::Global;
use std::process::Abort;
use std::test::Fail;
use turn_log::{Desk, TurnFault, Turns};
use type_filter::{Filter, Filters};

/// A desk of a new ring with one filter.
fn desk_of(alloc: Global, capacity: u32, filter: Filter) -> Result<Desk<Ring>, Fail>
    requires { (1 ≤ capacity) × (capacity ≤ 4096) }
    ensures empty { IfOk result (λ desk. ⟦<Desk<Ring> as Turns<Ring>>⟧.seen desk ≡ []) }
    ensures filters { IfOk result (λ desk.
        (⟦<Desk<Ring> as Turns<Ring>>⟧.shape desk).filters ≡ filter ∷ []) }
{
    let mut list = Vec::new(alloc);
    list.push(filter)?;
    let filters = Filters::new(list);
    Ok(Desk::new(Ring::new(alloc, capacity, &filters)?))
}

/// Caller 1 publishes these frames under claim 1.
fn publish_all(desk: &mut Desk<Ring>, frames: &[Frame], out: &mut Outbox) -> Result<(), TurnFault>
    requires held { IsTrue (history.is_holder
        (history.state_of (⟦<Desk<Ring> as Turns<Ring>>⟧.seen desk.old)).holder 1 1) }
    ensures shape { ⟦<Desk<Ring> as Turns<Ring>>⟧.shape desk.new
        ≡ ⟦<Desk<Ring> as Turns<Ring>>⟧.shape desk.old }
    ensures goes { OnOk result (GoesOn 2 (⟦<Desk<Ring> as Turns<Ring>>⟧.seen desk.old)
        (⟦<Desk<Ring> as Turns<Ring>>⟧.seen desk.new)) }
    ensures held { OnOk result (IsTrue (history.is_holder
        (history.state_of (⟦<Desk<Ring> as Turns<Ring>>⟧.seen desk.new)).holder 1 1)) }
{
    for frame in frames {
        desk.turn(1, RingCall::Publish(1, *frame), out)?;
    }
    Ok(())
}

/// Caller 2 joins a ring of this capacity; in each round caller 1 publishes the frames of these
/// names, and caller 2 reads. What caller 2 then has of the mountpoint, which it numbers 7, and the
/// frames that it took last.
fn read_rounds(
    alloc: Global,
    capacity: u32,
    filter: Filter,
    rounds: &[&str],
) -> Result<(Segment, Outbox), Fail>
    requires { (1 ≤ capacity) × (capacity ≤ 4096) }
{
    let mut desk = desk_of(alloc, capacity, filter)?;
    let mut out = Outbox::new();
    let RingAnswer::Given(_) = desk.turn(1, RingCall::Claim, &mut out)? else {
        unreachable!();
    };
    let mut segment = Segment::join(alloc, &mut desk, 2, 7, 0)?;
    for names in rounds {
        publish_all(&mut desk, &frames_of(alloc, *names)?, &mut out)?;
        segment.read(&mut desk, 2, 16, &mut out)?;
    }
    Ok((segment, out))
}

/// What a rover has of a mountpoint, in numbers: the mountpoint, from and to, how many frames were
/// sent and how many overrun, and where its cursor stands (next, passed and filter).
type Row = (u32, u64, u64, u64, u64, (u64, u64, u32));

/// What a rover has of a mountpoint, its laps, and the frames that it took last.
#[derive(Drop)]
struct SegmentOutcome {
    row: Row,
    laps: Vec<Lap>,
    frames: Vec<Frame>,
}

/// The filter that permits the frames of this number, or all frames.
fn filter_of(alloc: Global, number: Option<u16>) -> Result<Filter, Fail> {
    match number {
        Some(number) => Ok(Filter::list(alloc, &[number])?),
        None => Ok(Filter::all()),
    }
}

/// The same in numbers, of a ring that permits the frames of one number or all.
fn read_told(
    alloc: Global,
    capacity: u32,
    number: Option<u16>,
    rounds: &[&str],
) -> Result<SegmentOutcome, Fail>
    requires { (1 ≤ capacity) × (capacity ≤ 4096) }
{
    let filter = filter_of(alloc, number)?;
    let (segment, out) = read_rounds(alloc, capacity, filter, rounds)?;
    let Segment {
        mount,
        from,
        to,
        sent,
        overrun,
        laps,
        cursor,
    } = segment;
    let Cursor {
        next,
        passed,
        filter,
    } = cursor;
    Ok(SegmentOutcome {
        row: (mount, from, to, sent, overrun, (next, passed, filter)),
        laps: laps.into_vec(),
        frames: Vec::from_slice(alloc, out.frames())?,
    })
}

/// How many frames a ring keeps, the number of the frames that it permits, if it does not permit
/// all, and the frames that are published in each round.
type Rounds<'a> = (u32, Option<u16>, &'a [&'a str]);

/// A rover of the mountpoint 7 from place 0 on, by filter 0, came to this place, with so many
/// frames sent and so many overrun, with these laps, and took the frames of these names last.
fn expect_read(
    rt: &impl Abort,
    alloc: Global,
    rounds: Rounds,
    counts: (u64, u64, u64),
    laps: &[Lap],
    names: &str,
) -> Result<(), Fail>
    requires { (1 ≤ rounds.0) × (rounds.0 ≤ 4096) }
{
    let told = read_told(alloc, rounds.0, rounds.1, rounds.2)?;
    let frames = frames_of(alloc, names)?;
    let (to, sent, overrun) = counts;
    let passed = sent.saturating_add(overrun);
    expect_eq(rt, told.row, (7, 0, to, sent, overrun, (to, passed, 0)));
    expect_eq(rt, told.laps.as_slice(), laps);
    expect_eq(rt, told.frames.as_slice(), frames.as_slice());
    Ok(())
}

/// A lap: from, to, how many frames were published by then and how many were overrun.
fn lap_of(from: u64, to: u64, published: u64, overrun: u64) -> Lap {
    Lap {
        from,
        to,
        published,
        overrun,
    }
}

#[test]
fn a_lapped_rover_counts_its_overrun(rt: HostRuntime) -> Result<(), Fail> {
    let rounds = (2, None, ["a", "babz"].as_slice());
    let laps = [lap_of(1, 3, 5, 2)];
    expect_read(&rt, rt.alloc(), rounds, (5, 3, 2), &laps, "bz")
}

#[test]
fn the_overrun_counts_permitted_frames_alone(rt: HostRuntime) -> Result<(), Fail> {
    let rounds = (2, Some(1005), ["abbb"].as_slice());
    let laps = [lap_of(0, 2, 4, 1)];
    expect_read(&rt, rt.alloc(), rounds, (4, 0, 1), &laps, "")
}

#[test]
fn a_lap_may_lose_nothing(rt: HostRuntime) -> Result<(), Fail> {
    let rounds = (2, Some(1005), ["bbbb"].as_slice());
    let laps = [lap_of(0, 2, 4, 0)];
    expect_read(&rt, rt.alloc(), rounds, (4, 0, 0), &laps, "")
}

#[test]
fn a_rover_that_keeps_up_has_no_lap(rt: HostRuntime) -> Result<(), Fail> {
    let rounds = (1, None, ["a", "b"].as_slice());
    expect_read(&rt, rt.alloc(), rounds, (2, 2, 0), &[], "b")
}

/// How many laps a rover has, and the rest in numbers, after so many rounds of the frames of the
/// numbers 1005 and 1077 at a ring of one frame.
fn lapped_each_round(alloc: Global, rounds: usize) -> Result<(usize, Row), Fail> {
    let mut names = Vec::new(alloc);
    for _ in 0..rounds {
        names.push("ab")?;
    }
    let told = read_told(alloc, 1, None, names.as_slice())?;
    Ok((told.laps.len(), told.row))
}

#[test]
fn a_rover_may_be_lapped_many_times(rt: HostRuntime) -> Result<(), Fail> {
    let row = (7, 0, 2002, 1001, 1001, (2002, 2002, 0));
    expect_eq(&rt, lapped_each_round(rt.alloc(), 1001)?, (1001, row));
    Ok(())
}

/// How many laps a list of this lap has, whether it is empty, and what it gives back.
fn list_lap(alloc: Global, lap: Lap) -> Result<(usize, bool, Vec<Lap>), Fail> {
    let mut list = Vec::new(alloc);
    list.push(lap)?;
    let laps = Laps::new(list);
    Ok((laps.len(), laps.is_empty(), laps.into_vec()))
}

#[test]
fn laps_give_their_list_back(rt: HostRuntime) -> Result<(), Fail> {
    let lap = lap_of(0, 2, 4, 1);
    let (count, is_empty, list) = list_lap(rt.alloc(), lap)?;
    expect_eq(&rt, (count, is_empty), (1, false));
    expect_eq(&rt, list.as_slice(), [lap].as_slice());
    Ok(())
}
