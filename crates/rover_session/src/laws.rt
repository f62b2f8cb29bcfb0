//! Laws of a rover, each a clause of a function that does nothing.

ghost use Rattle.std.specs.Prelude.{◌≡◌, ℕ, ◌≤◌, IsTrue, true, false, List, [], ◌++◌, length, map, All, Option, None};
ghost use Rattle.rtcm_frame.specs.Transport.{is_frame};
ghost use Rattle.rtcm_frame.specs.Cut.{cut};
ghost use Rattle.chunk_body.specs.Text.{IsOpen, IsPlain};
ghost use Rattle.ntrip_head.specs.declared.request.Version.{Version};
ghost use Rattle.gga_read.specs.declared.Position.{Position};
ghost use Rattle.gga_read.specs.Report.{reports};
ghost use Rattle.turn_log.specs.History.{History};
ghost use Rattle.session_calls.specs.Steps.{Step};
ghost use Rattle.session_calls.specs.Plans.{left, IsMade, Begins};
ghost use Rattle.rover_cursor.specs.declared.segment.Segment.{Segment};
ghost use Rattle.rover_session.specs.Owed.{Terms, rover_plan, heeds};
ghost use Rattle.rover_session.specs.Made.{base_after, bases_joined, Changes};
ghost use Rattle.rover_session.specs.Body.{body_of};
ghost use Rattle.rover_session.specs.Standing.{Rover, Stands, IsSoundAt, IsResumable, WasResumable};

use mount_ring::{RingCall, RingShape};

/// What more bytes owe goes on with what was owed: the reports of more bytes are further reports,
/// the calls so far stay a beginning of all, and what is left behind them is what the new reports
/// ask for, from the base that was joined last.
pub fn more_reports_go_on()
    ensures reports { (bytes more : List ℕ) → (new : List Position)
        × (reports (bytes ++ more) ≡ reports bytes ++ new) }
    ensures begins { (terms : Terms) (first : Option Position) (bytes more : List ℕ)
        → Begins (rover_plan terms first bytes) (rover_plan terms first (bytes ++ more)) }
    ensures left { (terms : Terms) (first : Option Position) (bytes more : List ℕ)
        (new : List Position) (steps : List Step)
        → reports (bytes ++ more) ≡ reports bytes ++ new
        → IsMade (rover_plan terms first bytes) steps
        → left (rover_plan terms first (bytes ++ more)) steps
        ≡ heeds terms.near terms (base_after None steps) new }
{}

/// A rover's body reads as exactly the frames that it was sent: under NTRIP 1.0 it is cut into
/// them, with no junk and no rest; under NTRIP 2.0 it is an open chunked text whose data is that
/// body. A further turn's frames stand behind those before.
pub fn body_reads_as_its_frames()
    ensures plain { (frames : List (List ℕ)) → All (λ frame. IsTrue (is_frame frame)) frames
        → cut (body_of Version.One frames) ≡ record { frames = frames; junk = 0; rest = [] } }
    ensures open_text { (frames : List (List ℕ)) → All (λ frame. IsTrue (is_frame frame)) frames
        → IsOpen (body_of Version.Two frames) }
    ensures chunked { (frames : List (List ℕ)) → All (λ frame. IsTrue (is_frame frame)) frames
        → IsPlain (body_of Version.Two frames) (body_of Version.One frames) }
    ensures joined { (version : Version) (first second : List (List ℕ))
        → body_of version (first ++ second) ≡ body_of version first ++ body_of version second }
{}

/// A rover has one segment for each Join that it made. A near one joins only where its base
/// changes, so one whose reports never leave its base has one segment at most; one that is not near
/// joins its base once.
pub fn segments_are_of_bases()
    ensures count { (rover : Rover) (first : Option Position) (bytes : List ℕ) (steps : List Step)
        → Stands rover first bytes steps → length rover.segments ≡ length (bases_joined steps) }
    ensures changes { (rover : Rover) (first : Option Position) (bytes : List ℕ)
        (steps : List Step) → Stands rover first bytes steps → rover.terms.near ≡ true
        → Changes None (bases_joined steps) }
    ensures stays { (rover : Rover) (first : Option Position) (bytes : List ℕ)
        (steps : List Step) (base : ℕ) → Stands rover first bytes steps → rover.terms.near ≡ true
        → All (λ mount. mount ≡ base) (bases_joined steps) → length rover.segments ≤ 1 }
    ensures far { (rover : Rover) (first : Option Position) (bytes : List ℕ) (steps : List Step)
        → Stands rover first bytes steps → rover.halt ≡ None → rover.terms.near ≡ false
        → bases_joined steps ≡ map (λ base. base.mount) rover.terms.bases }
{}

/// Between two calls of a session others may call: its newest segment stays what its mountpoint's
/// history tells, and each segment is sound over the frames that were published there.
pub fn segments_stay_sound()
    ensures resumes { (shapes : List RingShape) (me : ℕ) (now : List (History RingCall))
        (segments : List Segment) → WasResumable shapes me now segments
        → IsResumable shapes me now segments }
    ensures sound { (shapes : List RingShape) (me : ℕ) (histories : List (History RingCall))
        (segments : List Segment) → IsResumable shapes me histories segments
        → All (IsSoundAt shapes histories) segments }
{}
