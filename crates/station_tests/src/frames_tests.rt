//! Stations at desks, by their public calls.
ghost use Rattle.std.specs.Prelude.{◌≡◌, ◌<◌, [], length, IsTrue, IfOk, OnOk};
ghost use Rattle.mount_ring.specs.History.{state_of, is_holder};
ghost use Rattle.turn_log.specs.Turn.{SamePlace};

use last_frames::{Hall, Station, StationPlace};
use mount_ring::{Outbox, Ring, RingAnswer, RingCall};
use rtcm_frame::Frame;
use std::alloc::Global;
use std::test::Fail;
use turn_log::{Desk, Played, TurnFault, Turns};
use type_filter::{Filter, Filters};

// Frames whose payload is a message number and four bits: two of 1005, and one of each other.
pub(crate) const FRAME_1005: [u8; 8] = [0xD3, 0x00, 0x02, 0x3E, 0xD0, 0xA4, 0xE0, 0x00];

const LATER_1005: [u8; 8] = [0xD3, 0x00, 0x02, 0x3E, 0xD1, 0x22, 0xAC, 0xFB];

const FRAME_1006: [u8; 8] = [0xD3, 0x00, 0x02, 0x3E, 0xE0, 0x6D, 0x7F, 0x60];

const FRAME_1007: [u8; 8] = [0xD3, 0x00, 0x02, 0x3E, 0xF0, 0xA8, 0x31, 0xE9];

const FRAME_1008: [u8; 8] = [0xD3, 0x00, 0x02, 0x3F, 0x00, 0x2D, 0xC5, 0xB7];

const FRAME_1033: [u8; 8] = [0xD3, 0x00, 0x02, 0x40, 0x90, 0x87, 0xD7, 0xD0];

const FRAME_1077: [u8; 8] = [0xD3, 0x00, 0x02, 0x43, 0x50, 0x06, 0xA2, 0x7E];

const FRAME_1230: [u8; 8] = [0xD3, 0x00, 0x02, 0x4C, 0xE0, 0x73, 0x79, 0x0F];

/// Claims the mountpoint for a caller.
fn claim<T: Turns<Ring>>(place: &mut T, me: u32, out: &mut Outbox) -> Result<u64, Fail>
    requires speaks { IsTrue (T.speaks place.old me) }
    ensures same { SamePlace T.shape T.speaks T.may_lack T.alone T.home place.old place.new }
    ensures held { IfOk result (λ claim.
        IsTrue (is_holder (state_of (T.seen place.new)).holder me claim)) }
{
    match place.turn(me, RingCall::Claim, out)? {
        RingAnswer::Given(claim) => Ok(claim),
        _ => Err("the mountpoint is held".into()),
    }
}

/// The holder publishes a frame.
fn publish<T: Turns<Ring>>(
    place: &mut T,
    me: u32,
    claim: u64,
    frame: Frame,
    out: &mut Outbox,
) -> Result<(), TurnFault>
    requires speaks { IsTrue (T.speaks place.old me) }
    requires held { IsTrue (is_holder (state_of (T.seen place.old)).holder me claim) }
    ensures same { SamePlace T.shape T.speaks T.may_lack T.alone T.home place.old place.new }
    ensures held { OnOk result (IsTrue (is_holder (state_of (T.seen place.new)).holder me claim)) }
{
    place.turn(me, RingCall::Publish(claim, frame), out)?;
    Ok(())
}

/// Claims the mountpoint for a caller, and publishes a frame.
pub(crate) fn publish_first<T: Turns<Ring>>(
    place: &mut T,
    me: u32,
    frame: Frame,
) -> Result<(), Fail>
    requires speaks { IsTrue (T.speaks place.old me) }
    ensures same { SamePlace T.shape T.speaks T.may_lack T.alone T.home place.old place.new }
{
    let mut out = Outbox::new();
    let number = claim(place, me, &mut out)?;
    publish(place, me, number, frame, &mut out)?;
    Ok(())
}

/// Claims the mountpoint for a caller, and publishes these frames.
fn publish_all<T: Turns<Ring>>(place: &mut T, me: u32, frames: &[[u8; 8]]) -> Result<(), Fail>
    requires speaks { IsTrue (T.speaks place.old me) }
    ensures same { SamePlace T.shape T.speaks T.may_lack T.alone T.home place.old place.new }
{
    let mut out = Outbox::new();
    let number = claim(place, me, &mut out)?;
    for bytes in frames {
        let frame = Frame::of(bytes).ok_or("no frame")?;
        publish(place, me, number, frame, &mut out)?;
    }
    Ok(())
}

/// A caller joins by the first filter.
pub(crate) fn join_first<T: Turns<Ring>>(place: &mut T, me: u32) -> Result<RingAnswer, TurnFault>
    requires speaks { IsTrue (T.speaks place.old me) }
    requires filter { 0 < length (T.shape place.old).filters }
    ensures same { SamePlace T.shape T.speaks T.may_lack T.alone T.home place.old place.new }
{
    place.turn(me, RingCall::Join(0), &mut Outbox::new())
}

/// A new station whose ring keeps two frames and offers this filter.
pub(crate) fn new_station(alloc: Global, filter: Filter) -> Result<Station, Fail>
    ensures filter { IfOk result (λ station.
        0 < length (⟦<Station as Played>⟧.shape station).filters) }
    ensures stands { IfOk result (λ station. ⟦<Station as Played>⟧.stands station []) }
{
    let mut list = Vec::new(alloc);
    list.push(filter)?;
    Ok(Station::new(alloc, 2, &Filters::new(list))?)
}

/// These frames are published at a new place, and one joins.
fn publish_and_join(place: &mut StationPlace<Desk<Station>>, frames: &[[u8; 8]]) -> Result<(), Fail>
    requires filter { 0 < length (⟦<StationPlace<Desk<Station>> as Turns<Ring>>⟧.shape
        place.old).filters }
    ensures filter { 0 < length (⟦<StationPlace<Desk<Station>> as Turns<Ring>>⟧.shape
        place.new).filters }
{
    publish_all(place, 1, frames)?;
    if place.greeting().is_some() {
        return Err("a greeting before a Join".into());
    }
    join_first(place, 2)?;
    Ok(())
}

/// A place at such a station, at which these frames were published and one joined.
fn joined_place(
    alloc: Global,
    filter: Filter,
    frames: &[[u8; 8]],
) -> Result<StationPlace<Desk<Station>>, Fail>
    ensures filter { IfOk result (λ place.
        0 < length (⟦<StationPlace<Desk<Station>> as Turns<Ring>>⟧.shape place).filters) }
{
    let station = new_station(alloc, filter)?;
    let mut place = StationPlace::new(Desk::new(station));
    publish_and_join(&mut place, frames)?;
    Ok(place)
}

// The frames of all numbers, of which the ring keeps the last two alone.
const ALL: [[u8; 8]; 10] = [
    FRAME_1230, FRAME_1033, FRAME_1005, FRAME_1077, LATER_1005, FRAME_1008, FRAME_1007, FRAME_1006,
    FRAME_1077, FRAME_1077,
];

/// The greeting at a place has these frames. Where nobody joined there is none.
fn greets(place: &StationPlace<Desk<Station>>, frames: &[Frame]) -> bool {
    match place.greeting() {
        Some(greeting) => greeting == frames,
        None => false,
    }
}

/// These frames.
fn frames_of(alloc: Global, list: &[[u8; 8]]) -> Result<Vec<Frame>, Fail> {
    let mut frames = Vec::new(alloc);
    for bytes in list {
        frames.push(Frame::of(bytes).ok_or("no frame")?)?;
    }
    Ok(frames)
}

/// One who joins such a station once these frames were published is greeted by these ones.
fn is_greeted(
    alloc: Global,
    filter: Filter,
    published: &[[u8; 8]],
    greeting: &[[u8; 8]],
) -> Result<bool, Fail> {
    let wanted = frames_of(alloc, greeting)?;
    Ok(greets(&joined_place(alloc, filter, published)?, &wanted))
}

// The last frame of each number that stations are known by.
const LAST: [[u8; 8]; 6] = [
    LATER_1005, FRAME_1006, FRAME_1007, FRAME_1008, FRAME_1033, FRAME_1230,
];

#[test]
fn one_who_joins_is_greeted_by_the_last_frame_of_each_number(rt: HostRuntime) -> Result<(), Fail> {
    assert!(rt; is_greeted(rt.alloc(), Filter::all(), &ALL, &LAST)?);
    Ok(())
}

#[test]
fn the_filter_permits_some_of_the_greeting(rt: HostRuntime) -> Result<(), Fail> {
    let filter = Filter::list(rt.alloc(), &[1077, 1230, 1005])?;
    assert!(rt; is_greeted(rt.alloc(), filter, &ALL, &[LATER_1005, FRAME_1230])?);
    Ok(())
}

/// Whether the greeting at a place is this frame behind the look of another caller, whether there
/// is one once it was cleared, and whether it is this frame again behind one more join.
fn greetings(place: &mut StationPlace<Desk<Station>>, frame: Frame) -> Result<[bool; 3], TurnFault>
    requires filter { 0 < length (⟦<StationPlace<Desk<Station>> as Turns<Ring>>⟧.shape
        place.old).filters }
{
    place.turn(3, RingCall::Look, &mut Outbox::new())?;
    let before = greets(place, &[frame]);
    place.clear();
    let is_greeted = place.greeting().is_some();
    join_first(place, 2)?;
    Ok([before, is_greeted, greets(place, &[frame])])
}

/// The same of a new place at which this frame was published last, and one joined.
fn new_greetings(alloc: Global, frame: Frame) -> Result<[bool; 3], Fail> {
    let mut place = joined_place(alloc, Filter::all(), &[FRAME_1077, FRAME_1005])?;
    Ok(greetings(&mut place, frame)?)
}

#[test]
fn a_greeting_stands_until_it_is_cleared(rt: HostRuntime) -> Result<(), Fail> {
    let frame = Frame::of(&FRAME_1005).ok_or("no frame")?;
    assert!(rt; new_greetings(rt.alloc(), frame)? == [true, false, true]);
    Ok(())
}

/// How many frames were published at the station that a place gives back.
fn count_published(alloc: Global) -> Result<u64, Fail> {
    let place = joined_place(alloc, Filter::all(), &ALL)?;
    let desk = place.inner();
    Ok(desk.value().ring().published())
}

#[test]
fn a_place_gives_its_station_back(rt: HostRuntime) -> Result<(), Fail> {
    assert_eq!(rt; count_published(rt.alloc())?, 10);
    Ok(())
}

/// At a new station itself caller 2 joins, caller 1 publishes a frame, and caller 2 reads it.
fn read_new(desk: &mut Desk<Station>, hall: &mut Hall, frame: Frame) -> Result<(), Fail>
    requires new { ⟦<Desk<Station> as Turns<Station>>⟧.seen desk.old ≡ [] }
    requires filter { 0 < length (⟦<Desk<Station> as Turns<Station>>⟧.shape desk.old).filters }
    ensures shape { ⟦<Desk<Station> as Turns<Station>>⟧.shape desk.new
        ≡ ⟦<Desk<Station> as Turns<Station>>⟧.shape desk.old }
{
    let RingAnswer::Joined(cursor) = desk.turn(2, RingCall::Join(0), hall)? else {
        unreachable!();
    };
    let RingAnswer::Given(claim) = desk.turn(1, RingCall::Claim, hall)? else {
        unreachable!();
    };
    desk.turn(1, RingCall::Publish(claim, frame), hall)?;
    desk.turn(2, RingCall::Read { cursor, budget: 16 }, hall)?;
    Ok(())
}

/// The frames of a hall that were read are these, and so are those of its greeting.
fn has(hall: &Hall, read: &[Frame], greeting: &[Frame]) -> bool {
    hall.outbox().frames() == read && hall.greeting() == greeting
}

/// Whether the hall has what was read and no more before caller 2 joins again, and behind that the
/// same and the greeting.
fn hall_has(alloc: Global, frame: Frame) -> Result<[bool; 2], Fail> {
    let mut desk = Desk::new(new_station(alloc, Filter::all())?);
    let mut hall = Hall::new();
    read_new(&mut desk, &mut hall, frame)?;
    let before = has(&hall, &[frame], &[]);
    desk.turn(2, RingCall::Join(0), &mut hall)?;
    Ok([before, has(&hall, &[frame], &[frame])])
}

#[test]
fn a_hall_has_what_was_read_and_the_greeting(rt: HostRuntime) -> Result<(), Fail> {
    let frame = Frame::of(&FRAME_1005).ok_or("no frame")?;
    assert!(rt; hall_has(rt.alloc(), frame)? == [true, true]);
    Ok(())
}

// Beside its ring a station is two lists, of six frames and of filters; a hall is an outbox and six
// frames with their number; a place is the place within, such six frames and a mark. No list of all
// frames is kept anywhere.
#[test]
fn a_station_is_its_ring_and_two_lists(rt: HostRuntime) -> Result<(), Fail> {
    let list = size_of::<Vec<Frame>>();
    let station = size_of::<Ring>() + 2 * list;
    let greeting = size_of::<([Frame; 6], usize)>();
    let hall = size_of::<Outbox>() + greeting;
    let place = size_of::<Desk<Station>>() + size_of::<Option<([Frame; 6], usize)>>();
    let sizes = [
        size_of::<Station>(),
        size_of::<Hall>(),
        size_of::<StationPlace<Desk<Station>>>(),
    ];
    assert_eq!(rt; sizes, [station, hall, place]);
    Ok(())
}
