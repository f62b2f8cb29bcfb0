//! A mountpoint with one source and one rover.
ghost use Rattle.std.specs.Prelude.{IsTrue};
ghost use Rattle.mount_ring.specs.History as history;
ghost use Rattle.mount_ring.specs.Shapes.{shape_of};

use crate::taking::Taker;
use mount_ring::{Cursor, MAX_BUDGET, Outbox, ReadReport, Ring, RingAnswer, RingCall};
use rtcm_frame::Frame;
use std::alloc::Global;
use std::io::{self, Error};
use turn_log::{Desk, TurnFault, Turns};
use type_filter::{Filter, Filters};

// The source's number, and the rover's.
const SOURCE: u32 = 1;

const ROVER: u32 = 2;

// How many frames the ring keeps.
const KEPT: u32 = 256;

/// A ring that the source holds under claim 1, and the rover that joined it.
#[derive(Drop)]
pub struct Mountpoint {
    desk: Desk<Ring>,
    out: Outbox,
    cursor: Cursor,
    unread: u32,
    read: u64,
    ghost held: { IsTrue (history.is_holder
        (history.state_of (⟦<Desk<Ring> as Turns<Ring>>⟧.seen desk)).holder 1 1) },
    ghost joined: { IsTrue (history.is_readable
        (shape_of (⟦<Desk<Ring> as Turns<Ring>>⟧.shape desk))
        (history.state_of (⟦<Desk<Ring> as Turns<Ring>>⟧.seen desk)) cursor) },
}

impl Mountpoint {
    /// A mountpoint with its source and its rover.
    pub(crate) fn new(alloc: Global) -> io::Result<Mountpoint> {
        let mut list = Vec::new(alloc);
        list.push(Filter::all())?;
        let mut desk = Desk::new(Ring::new(alloc, KEPT, &Filters::new(list))?);
        let mut out = Outbox::new();
        let Ok(RingAnswer::Given(_)) = desk.turn(SOURCE, RingCall::Claim, &mut out) else {
            return Err(Error::other("the claim was refused"));
        };
        let Ok(RingAnswer::Joined(cursor)) = desk.turn(ROVER, RingCall::Join(0), &mut out) else {
            return Err(Error::other("the join was refused"));
        };
        Ok(Mountpoint {
            desk,
            out,
            cursor,
            unread: 0,
            read: 0,
        })
    }

    /// Has the rover read what is left, and answers how many frames it read in all.
    pub(crate) fn finish(mut self) -> u64 {
        self.catch_up();
        self.read
    }

    // The source publishes a frame.
    fn publish(&mut self, frame: Frame) -> Result<RingAnswer, TurnFault> {
        self.desk
            .turn(SOURCE, RingCall::Publish(1, frame), &mut self.out)
    }

    // The rover reads on, into the outbox.
    fn read_on(&mut self) -> Result<ReadReport, TurnFault> {
        let call = RingCall::Read {
            cursor: self.cursor,
            budget: MAX_BUDGET,
        };
        match self.desk.turn(ROVER, call, &mut self.out)? {
            RingAnswer::Read(report) => {
                self.cursor = report.cursor;
                Ok(report)
            }
            _ => unreachable!(),
        }
    }

    // The rover reads what was published since it last read.
    fn catch_up(&mut self) {
        self.unread = 0;
        if let Ok(report) = self.read_on() {
            self.read = self.read.saturating_add(u64::from(report.taken));
        }
    }
}

impl Taker for Mountpoint {
    fn take(&mut self, frame: &Frame) {
        if self.publish(*frame).is_ok() {
            self.unread = self.unread.saturating_add(1);
        }
        if self.unread >= MAX_BUDGET {
            self.catch_up();
        }
    }
}
