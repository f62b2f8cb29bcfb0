//! Laws of relays, each the contract of a function that does nothing.
ghost use Rattle.std.specs.Prelude.{◌≡◌, ◌↔◌, ℕ, Bool, List, drop, Some};
ghost use Rattle.chunk_body.specs.Text.{HasEnded, IsBadAt};
ghost use Rattle.session_calls.specs.Steps.{Step};
ghost use Rattle.ntrip_client.specs.Answer.{IsAnswer};
ghost use Rattle.upstream_relay.specs.Halts.{halt_of_refusal};
ghost use Rattle.upstream_relay.specs.Owed.{owed, first_claim, IsDone};
ghost use Rattle.upstream_relay.specs.Standing.{StandsFor, halt_at, claim_at, is_short_at};

use crate::fault::RelayHalt;
use crate::session::RelaySession;
use ntrip_client::{Answer, Refusal};

/// A relay has called exactly what the bytes so far owe by what they say, and where a turn was
/// refused a beginning of it.
pub fn relays_call_what_is_owed()
    ensures { (mount : ℕ) (session : RelaySession) (bytes : List ℕ) (steps : List Step)
        (answer : Answer) → StandsFor mount session bytes steps → IsAnswer bytes answer
        → IsDone (is_short_at session.stage) (owed mount answer bytes) steps }
{}

/// The number of a relay's claim is the one that its first call was given; it has none exactly
/// where none was given so far.
pub fn claims_are_those_given()
    ensures { (mount : ℕ) (session : RelaySession) (bytes : List ℕ) (steps : List Step)
        → StandsFor mount session bytes steps → claim_at session.stage ≡ first_claim steps }
{}

/// An answer that gives no body halts a relay by its cause, and nothing else does so.
pub fn answers_halt_a_relay()
    ensures { (mount : ℕ) (session : RelaySession) (bytes : List ℕ) (steps : List Step)
        (why : Refusal) → StandsFor mount session bytes steps
        → IsAnswer bytes (Answer.Refused why)
        ↔ (halt_at session.stage ≡ Some (halt_of_refusal why)) }
{}

/// Done means that the chunked body behind the head has ended, and BadChunk tells its fault.
pub fn halts_tell_of_the_body()
    ensures done { (mount : ℕ) (session : RelaySession) (bytes : List ℕ) (steps : List Step)
        (at : ℕ) (chunked : Bool) → StandsFor mount session bytes steps
        → IsAnswer bytes (Answer.Accepted at chunked)
        → halt_at session.stage ≡ Some RelayHalt.Done → HasEnded (drop at bytes) }
    ensures bad { (mount : ℕ) (session : RelaySession) (bytes : List ℕ) (steps : List Step)
        (at : ℕ) (chunked : Bool) (place : ℕ) → StandsFor mount session bytes steps
        → IsAnswer bytes (Answer.Accepted at chunked)
        → halt_at session.stage ≡ Some (RelayHalt.BadChunk place)
        → IsBadAt (drop at bytes) place }
{}
