//! Laws of what a source publishes, each the contract of a function that does nothing.
ghost use Rattle.std.specs.Prelude.{◌≡◌, ℕ, Bool, true, false, IsTrue, List, [], ◌++◌, Some, None};
ghost use Rattle.rtcm_frame.specs.Cut.{cut};
ghost use Rattle.turn_log.specs.History.{History, IsLegal};
ghost use Rattle.chunk_body.specs.Text.{IsOpen, HasEnded, IsBadAt, IsPlain};
ghost use Rattle.source_session.specs.Body.{frames_of, completed};
ghost use Rattle.source_session.specs.Calls.{IsHolding, HeldSince};
ghost use Rattle.source_session.specs.Standing.{StandsFor, is_chunked};

use crate::fault::SourceHalt;
use crate::session::SourceSession;
use mount_ring::{Ring, RingCall, RingShape};
use turn_log::Played;

/// A source publishes the cut of its body: of the body itself, or of the plain data that a chunked
/// body holds.
pub fn body_is_published_as_cut()
    ensures plain { (body : List ℕ) → frames_of false body ≡ (cut body).frames }
    ensures chunked { (body content : List ℕ) → IsPlain body content
        → frames_of true body ≡ (cut content).frames }
    ensures all { (chunked : Bool) (body : List ℕ)
        → completed chunked [] body ≡ frames_of chunked body }
{}

/// A body may come in any pieces: more of it only adds frames behind those before, and what two
/// pieces complete is what both together complete.
pub fn pieces_are_joined()
    ensures grows { (chunked : Bool) (body more : List ℕ)
        → frames_of chunked (body ++ more)
        ≡ frames_of chunked body ++ completed chunked body more }
    ensures both { (chunked : Bool) (body first second : List ℕ)
        → completed chunked body (first ++ second)
        ≡ completed chunked body first ++ completed chunked (body ++ first) second }
{}

/// Behind the end of a chunked body, or behind its fault, no frame is completed.
pub fn nothing_follows_the_end()
    ensures ended { (body more : List ℕ) → HasEnded body → completed true body more ≡ [] }
    ensures bad { (body more : List ℕ) (place : ℕ) → IsBadAt body place
        → completed true body more ≡ [] }
{}

/// A session says truly how its body stands: while it goes on a chunked body is open, Done means
/// that it has ended, and BadChunk tells its fault. Since a text is only one of these, each comes
/// exactly there. What halted it stays.
pub fn halts_tell_of_the_body()
    ensures goes_on { (session : SourceSession) (body : List ℕ) → StandsFor session body
        → session.halt ≡ None → IsTrue (is_chunked session) → IsOpen body }
    ensures done { (session : SourceSession) (body : List ℕ) → StandsFor session body
        → session.halt ≡ Some SourceHalt.Done → HasEnded body }
    ensures bad { (session : SourceSession) (body : List ℕ) (place : ℕ) → StandsFor session body
        → session.halt ≡ Some (SourceHalt.BadChunk place) → IsBadAt body place }
    ensures stays { (session : SourceSession) (body more : List ℕ) (halt : SourceHalt)
        → session.halt ≡ Some halt → StandsFor session body → StandsFor session (body ++ more) }
{}

/// Who held a mountpoint and called nothing since holds it still, whatever others called.
pub fn claim_stays_held()
    ensures { (shape : RingShape) (me claim : ℕ) (now : History RingCall)
        → IsLegal (⟦<Ring as Played>⟧.fits shape) now → HeldSince me claim now
        → IsHolding me claim now }
{}
