ghost use Rattle.std.specs.Prelude.{◌≡◌, ◌+◌, ◌<◌, ◌≤◌, true, IsTrue, [], ◌∷◌, ◌++◌, length, OnErr, IfOk, IfErr, option_to_list, vec_len, vec_capacity};
ghost use Rattle.rover_cursor.specs.Segments.{lap_overrun};

use crate::fault::SegFault;
use crate::laps::Laps;
use mount_ring::{Cursor, Lap, Outbox, ReadReport, Ring, RingAnswer, RingCall};
use std::alloc::Global;
use turn_log::{Played, Turns};

/// What a rover read of one mountpoint from its joining on.
///
/// `mount` is the mountpoint's number. The segment covers the published frames at the places from
/// `from` up to, not including, `to`: `sent` of them were sent, `overrun` counts the permitted ones
/// that the ring had overwritten, and each of those lies in one of `laps`. `cursor` is where the
/// next read begins.
#[derive(Debug, Drop, PartialEq, Eq)]
pub struct Segment {
    pub mount: u32,
    pub from: u64,
    pub to: u64,
    pub sent: u64,
    pub overrun: u64,
    pub laps: Laps,
    pub cursor: Cursor,
}

impl Segment {
    ghost use Rattle.turn_log.specs.History.{History};
    ghost use Rattle.turn_log.specs.Turn.{SamePlace};
    ghost use Rattle.turn_log.specs.Heard.{Heard};
    ghost use Rattle.mount_ring.specs.Shapes.{shape_of};
    ghost use Rattle.mount_ring.specs.History.{state_of, joined};
    ghost use Rattle.rover_cursor.specs.Segments.{begun};
    ghost use Rattle.rover_cursor.specs.Told.{IsSegment, Resumes, HasRead};
    ghost use Rattle.rover_cursor.specs.Refusals.{IsRefusal};

    /// Joins a mountpoint, by the filter of this number: one turn of the caller `me`, which calls
    /// Join. `mount` is the number that the segment gives to the mountpoint.
    pub fn join<T: Turns<Ring>>(
        alloc: Global,
        place: &mut T,
        me: u32,
        mount: u32,
        filter: u32,
    ) -> Result<Segment, SegFault>
        requires speaks { IsTrue (T.speaks place.old me) }
        requires filter { filter < length (T.shape place.old).filters }
        ensures same { SamePlace T.shape T.speaks T.may_lack T.alone T.home place.old place.new }
        ensures worn { T.worn place.old ≤ T.worn place.new }
        ensures heard { IfOk result (λ segment.
            Heard (T.alone place.old) (⟦<Ring as Played>⟧.answer (T.shape place.old))
            (T.seen place.old) (T.seen place.new) me
            ((RingCall.Join filter, RingAnswer.Joined segment.cursor) ∷ [])) }

        // It begins behind all frames that were published by then.
        ensures begun { IfOk result (λ segment. segment ≡ begun mount
            (joined (shape_of (T.shape place.old)) (state_of (T.seen place.new)) filter)) }
        ensures segment { IfOk result (λ segment.
            IsSegment (shape_of (T.shape place.old)) me (T.seen place.new) segment) }
        ensures err { OnErr result (T.seen place.new ≡ T.seen place.old) }
        ensures fault { IfErr result (IsRefusal (T.may_lack place.old) (T.worn place.new)) }
    {
        let mut outbox = Outbox::new();
        match place.turn(me, RingCall::Join(filter), &mut outbox)? {
            RingAnswer::Joined(cursor) => Ok(Segment::begin(alloc, mount, cursor)),
            _ => unreachable!(),
        }
    }

    /// Reads on from where the segment stands, into the outbox: one turn of the caller `me`, which
    /// calls Read with this budget, of which at most 16 counts. Gives the number of frames taken.
    ///
    /// The caller neither joined nor read at this place since the segment's last call. Room for a
    /// lap is taken first; after a refusal segment and outbox are as before.
    pub fn read<T: Turns<Ring>>(
        &mut self,
        place: &mut T,
        me: u32,
        budget: u32,
        out: &mut Outbox,
    ) -> Result<u32, SegFault>
        requires speaks { IsTrue (T.speaks place.old me) }
        requires resumes { (h : History RingCall)
            × IsSegment (shape_of (T.shape place.old)) me h self.old
            × Resumes me h (T.seen place.old) }
        ensures same { SamePlace T.shape T.speaks T.may_lack T.alone T.home place.old place.new }
        ensures worn { T.worn place.old ≤ T.worn place.new }
        ensures read { IfOk result (HasRead (shape_of (T.shape place.old)) (T.alone place.old)
            (T.seen place.old) (T.seen place.new) me budget self.old self.new out.new) }
        ensures err { OnErr result ((T.seen place.new ≡ T.seen place.old)
            × (self.new ≡ self.old) × (out.new ≡ out.old)) }
        ensures fault { IfErr result (IsRefusal true (T.worn place.new)) }
    {
        let laps = &mut self.laps.items;
        if laps.reserve(1).is_err() {
            return Err(SegFault::Memory);
        }
        let call = RingCall::Read {
            cursor: self.cursor,
            budget,
        };
        let report = match place.turn(me, call, out)? {
            RingAnswer::Read(report) => report,
            _ => unreachable!(),
        };
        note_lap(laps, report.lapped);
        self.move_on(report);
        Ok(report.taken)
    }

    /// Counts what a read answered, and stands where the read ended.
    fn move_on(&mut self, report: ReadReport)
        requires { (self.old.sent + report.taken) + (self.old.overrun + lap_overrun report.lapped)
            ≤ report.cursor.next }
        ensures { self.new ≡ record self.old {
          to = report.cursor.next;
          sent = self.old.sent + report.taken;
          overrun = self.old.overrun + lap_overrun report.lapped;
          cursor = report.cursor;
        } }
    {
        if let Some(lap) = report.lapped {
            self.overrun += lap.overrun;
        }
        self.sent += u64::from(report.taken);
        self.to = report.cursor.next;
        self.cursor = report.cursor;
    }

    /// A segment of this mountpoint that begins at the cursor of a reader that joined.
    fn begin(alloc: Global, mount: u32, cursor: Cursor) -> Segment
        ensures { result ≡ begun mount cursor }
    {
        Segment {
            mount,
            from: cursor.next,
            to: cursor.next,
            sent: 0,
            overrun: 0,
            laps: Laps::new(Vec::new(alloc)),
            cursor,
        }
    }
}

/// Adds the lap that a read named, if any. There is room for it.
fn note_lap(laps: &mut Vec<Lap>, lapped: Option<Lap>)
    requires { vec_len laps.old < vec_capacity laps.old }
    ensures { laps.new.items ≡ laps.old.items ++ option_to_list lapped }
{
    if let Some(lap) = lapped {
        laps.push_reserved(lap);
    }
}
