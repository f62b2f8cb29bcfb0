//! Laws of segments, each the contract of a function that does nothing: what a rover may count on
//! from its joining on, for any filter, any capacity and any frames that are published.
ghost use Rattle.std.specs.Prelude.{◌≡◌, ℕ, ◌+◌, ◌<◌, ◌≤◌, Bool, List, [], ◌++◌, length, IsTrue};
ghost use Rattle.std.specs.List.{filter, count_by, All, AllPairs};
ghost use Rattle.mount_ring.specs.Reads.{read_report, read_frames};
ghost use Rattle.turn_log.specs.History.{History, GoesOn};
ghost use Rattle.mount_ring.specs.History.{Shape, State, permits_at, joined, is_readable, fits, state_of};
ghost use Rattle.rover_cursor.specs.Segments.{begun, read_on};
ghost use Rattle.rover_cursor.specs.Sound.{between, kept, IsSound};
ghost use Rattle.rover_cursor.specs.Course.{Round, course_of};
ghost use Rattle.rover_cursor.specs.Told.{IsSegment, Resumes};

use crate::segment::Segment;
use mount_ring::{Cursor, Lap, RingCall};

/// A segment is sound when it begins where a rover joined, and stays so over each read from its own
/// cursor and while more is published; and its cursor may always be read.
pub fn segment_stays_sound()
    ensures begun { (shape : Shape) (state : State) (mount number : ℕ)
        → IsSound (permits_at shape number) shape.capacity state.published
        (begun mount (joined shape state number)) }
    ensures read { (permits : List ℕ → Bool) (capacity : ℕ) (published : List (List ℕ))
        (segment : Segment) (budget : ℕ) → IsSound permits capacity published segment
        → IsSound permits capacity published
        (read_on (read_report permits capacity published segment.cursor budget) segment) }
    ensures later { (permits : List ℕ → Bool) (capacity : ℕ) (published more : List (List ℕ))
        (segment : Segment) → IsSound permits capacity published segment
        → IsSound permits capacity (published ++ more) segment }
    ensures readable { (shape : Shape) (state : State) (segment : Segment)
        → segment.cursor.filter < length shape.filters
        → IsSound (permits_at shape segment.cursor.filter) shape.capacity state.published segment
        → IsTrue (is_readable shape state segment.cursor) }
{}

/// A sound segment loses none in silence: frames sent and frames counted as overrun are together
/// the permitted ones from where it began to where its last read ended.
pub fn segment_loses_none()
    ensures counted { (permits : List ℕ → Bool) (capacity : ℕ) (published : List (List ℕ))
        (segment : Segment) → IsSound permits capacity published segment
        → segment.sent + segment.overrun
        ≡ count_by permits (between segment.from segment.to published) }
    ensures ordered { (permits : List ℕ → Bool) (capacity : ℕ) (published : List (List ℕ))
        (segment : Segment) → IsSound permits capacity published segment
        → (segment.from ≤ segment.to) × (segment.to ≤ length published) }
{}

/// What a segment was sent: nothing when it begins; each read adds the frames that it takes behind
/// those before, and no later frame changes them. `sent` is their number.
pub fn segment_is_sent_in_order()
    ensures begun { (permits : List ℕ → Bool) (published : List (List ℕ)) (mount : ℕ)
        (cursor : Cursor) → kept permits published (begun mount cursor) ≡ [] }
    ensures read { (permits : List ℕ → Bool) (capacity : ℕ) (published : List (List ℕ))
        (segment : Segment) (budget : ℕ) → IsSound permits capacity published segment
        → kept permits published
        (read_on (read_report permits capacity published segment.cursor budget) segment)
        ≡ kept permits published segment
        ++ read_frames permits capacity published segment.cursor budget }
    ensures later { (permits : List ℕ → Bool) (capacity : ℕ) (published more : List (List ℕ))
        (segment : Segment) → IsSound permits capacity published segment
        → kept permits (published ++ more) segment ≡ kept permits published segment }
    ensures sent { (permits : List ℕ → Bool) (capacity : ℕ) (published : List (List ℕ))
        (segment : Segment) → IsSound permits capacity published segment
        → segment.sent ≡ length (kept permits published segment) }
{}

/// The laps of a sound segment: none is empty, they lie within it in order, none over another, and
/// each names only frames that the ring had overwritten, with the count of the permitted ones.
pub fn laps_are_overwritten()
    ensures within { (permits : List ℕ → Bool) (capacity : ℕ) (published : List (List ℕ))
        (segment : Segment) → IsSound permits capacity published segment
        → All (λ (lap : Lap). (segment.from ≤ lap.from) × (lap.to ≤ segment.to)) segment.laps }
    ensures not_empty { (permits : List ℕ → Bool) (capacity : ℕ) (published : List (List ℕ))
        (segment : Segment) → IsSound permits capacity published segment
        → All (λ (lap : Lap). lap.from < lap.to) segment.laps }
    ensures in_order { (permits : List ℕ → Bool) (capacity : ℕ) (published : List (List ℕ))
        (segment : Segment) → IsSound permits capacity published segment
        → AllPairs (λ (earlier later : Lap). earlier.to ≤ later.from) segment.laps }
    ensures overwritten { (permits : List ℕ → Bool) (capacity : ℕ) (published : List (List ℕ))
        (segment : Segment) → IsSound permits capacity published segment
        → All (λ (lap : Lap). (lap.to + capacity ≡ lap.published)
        × (lap.published ≤ length published)) segment.laps }
    ensures overrun { (permits : List ℕ → Bool) (capacity : ℕ) (published : List (List ℕ))
        (segment : Segment) → IsSound permits capacity published segment
        → All (λ (lap : Lap). lap.overrun ≡ count_by permits (between lap.from lap.to published))
        segment.laps }
{}

/// A rover that joins and then reads again and again, while more is published before each read: its
/// segment covers the frames from its joining on, it was sent the permitted ones that lie in no
/// lap, in order, and with those counted as overrun that is every permitted one up to where it
/// ended.
pub fn rover_is_sent_what_it_is_owed()
    ensures sound { (shape : Shape) (state : State) (mount number : ℕ) (rounds : List Round)
        → IsSound (permits_at shape number) shape.capacity
        (course_of shape state mount number rounds).published
        (course_of shape state mount number rounds).segment }
    ensures from { (shape : Shape) (state : State) (mount number : ℕ) (rounds : List Round)
        → (course_of shape state mount number rounds).segment.from ≡ length state.published }
    ensures taken { (shape : Shape) (state : State) (mount number : ℕ) (rounds : List Round)
        → (course_of shape state mount number rounds).taken
        ≡ kept (permits_at shape number) (course_of shape state mount number rounds).published
        (course_of shape state mount number rounds).segment }
    ensures counted { (shape : Shape) (state : State) (mount number : ℕ) (rounds : List Round)
        → length (course_of shape state mount number rounds).taken
        + (course_of shape state mount number rounds).segment.overrun
        ≡ count_by (permits_at shape number)
        (between (length state.published) (course_of shape state mount number rounds).segment.to
        (course_of shape state mount number rounds).published) }
{}

/// The segment that a history tells of a caller stays the one it tells, and stays sound, whatever
/// others call, and whatever its caller calls but Join and Read. Its next read may be made at any
/// time.
pub fn segment_resumes()
    ensures stays { (shape : Shape) (me : ℕ) (h now : History RingCall) (segment : Segment)
        → IsSegment shape me h segment → Resumes me h now → IsSegment shape me now segment }
    ensures others { (me : ℕ) (h now : History RingCall) → GoesOn me h now → Resumes me h now }
    ensures fits { (shape : Shape) (me : ℕ) (h : History RingCall) (segment : Segment) (budget : ℕ)
        → IsSegment shape me h segment
        → IsTrue (fits shape (state_of h) me (RingCall.Read segment.cursor budget)) }
    ensures one { (shape : Shape) (me : ℕ) (h : History RingCall) (segment other : Segment)
        → IsSegment shape me h segment → IsSegment shape me h other
        → segment.mount ≡ other.mount → segment ≡ other }
{}
