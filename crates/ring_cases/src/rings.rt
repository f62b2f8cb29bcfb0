//! The ring of a mountpoint at a desk, with a caller that publishes and one that reads.
ghost use Rattle.std.specs.Prelude.{◌≤◌, IsTrue};
ghost use Rattle.mount_ring.specs.History as history;
ghost use Rattle.mount_ring.specs.Shapes.{shape_of};

use crate::printing::{put, say, say_frames};
use mount_ring::{Cursor, Outbox, ReadReport, Ring, RingAnswer, RingCall};
use rtcm_frame::Frame;
use std::alloc::{AllocError, Global};
use turn_log::{Desk, TurnFault, Turns};
use type_filter::{Filter, Filters};

/// The frame of this name: the shortest one, which has no number, and those whose payload is the
/// number 1005 or 1077 alone.
pub fn frame_of(name: &str) -> Option<Frame> {
    match name {
        "z" => Frame::of(b"\xD3\x00\x00\x47\xEA\x4B"),
        "a" => Frame::of(b"\xD3\x00\x02\x3E\xD0\xA4\xE0\x00"),
        "b" => Frame::of(b"\xD3\x00\x02\x43\x50\x06\xA2\x7E"),
        _ => None,
    }
}

/// A desk of a ring that caller 1 holds under claim 1, with caller 2, who joined by filter 0.
#[derive(Drop)]
pub struct Round {
    desk: Desk<Ring>,
    out: Outbox,
    cursor: Cursor,
    ghost held: { IsTrue (history.is_holder
        (history.state_of (⟦<Desk<Ring> as Turns<Ring>>⟧.seen desk)).holder 1 1) },
    ghost joined: { IsTrue (history.is_readable
        (shape_of (⟦<Desk<Ring> as Turns<Ring>>⟧.shape desk))
        (history.state_of (⟦<Desk<Ring> as Turns<Ring>>⟧.seen desk)) cursor) },
}

impl Round {
    /// Caller 1 claims the new ring, and caller 2 joins.
    pub fn new(alloc: Global, capacity: u32, filter: Filter) -> Option<Round>
        requires capacity { (1 ≤ capacity) × (capacity ≤ 4096) }
    {
        let filters = Filters::new(Vec::from_array(alloc, [filter]).ok()?);
        let mut desk = Desk::new(Ring::new(alloc, capacity, &filters).ok()?);
        let mut out = Outbox::new();
        let RingAnswer::Given(_) = desk.turn(1, RingCall::Claim, &mut out).ok()? else {
            unreachable!();
        };
        let RingAnswer::Joined(cursor) = desk.turn(2, RingCall::Join(0), &mut out).ok()? else {
            unreachable!();
        };
        Some(Round { desk, out, cursor })
    }

    /// Caller 1 publishes a frame.
    fn publish(&mut self, frame: Frame) -> Result<RingAnswer, TurnFault> {
        self.desk
            .turn(1, RingCall::Publish(1, frame), &mut self.out)
    }

    /// Caller 2 reads on, into the outbox.
    fn read(&mut self, budget: u32) -> Result<ReadReport, TurnFault> {
        let cursor = self.cursor;
        let call = RingCall::Read { cursor, budget };
        match self.desk.turn(2, call, &mut self.out)? {
            RingAnswer::Read(report) => {
                self.cursor = report.cursor;
                Ok(report)
            }
            _ => unreachable!(),
        }
    }

    /// Caller 1 gives its claim back.
    pub fn release(self) -> Option<Desk<Ring>> {
        let Round {
            mut desk,
            mut out,
            ..
        } = self;
        let RingAnswer::Released = desk.turn(1, RingCall::Release(1), &mut out).ok()? else {
            unreachable!();
        };
        Some(desk)
    }
}

/// The filter that permits the frames of this number, or all frames where it is 0.
fn filter_of(alloc: Global, number: u16) -> Option<Filter> {
    match number {
        0 => Some(Filter::all()),
        number => Filter::list(alloc, &[number]).ok(),
    }
}

/// Publishes the frame of this name, and appends where.
fn publish(round: &mut Round, name: &str, out: &mut Vec<u8>) -> Result<(), AllocError> {
    match frame_of(name) {
        Some(frame) => say(out, &round.publish(frame)),
        None => put(out, "no frame "),
    }
}

/// Reads with this budget, and appends the report and the frames.
fn read(round: &mut Round, budget: u32, out: &mut Vec<u8>) -> Result<(), AllocError> {
    say(out, &round.read(budget))?;
    say_frames(out, round.out.frames())
}

/// Appends what each of these words comes to: a number is a read with this budget, and a name
/// publishes its frame.
fn play(round: &mut Round, words: &str, out: &mut Vec<u8>) -> Result<(), AllocError> {
    for word in words.split(' ') {
        match word.parse::<u32>() {
            Ok(budget) => read(round, budget, out)?,
            Err(_) => publish(round, word, out)?,
        }
    }
    Ok(())
}

/// What comes of a new ring: its capacity, the number that its filter permits, or 0 for all, and
/// what is published and read there. Behind it stands how many frames were published.
pub fn ring(rest: &str, out: &mut Vec<u8>) -> Result<(), AllocError> {
    let (capacity, rest) = rest.split_once(' ').unwrap_or((rest, ""));
    let (number, words) = rest.split_once(' ').unwrap_or((rest, ""));
    let capacity = capacity.parse::<u32>().unwrap_or(1).max(1).min(4096);
    let filter = filter_of(*out.allocator(), number.parse::<u16>().unwrap_or(0));
    match filter.and_then(|filter| Round::new(*out.allocator(), capacity, filter)) {
        Some(mut round) => {
            play(&mut round, words, out)?;
            say(out, &round.desk.value().published())
        }
        None => put(out, "no ring"),
    }
}
