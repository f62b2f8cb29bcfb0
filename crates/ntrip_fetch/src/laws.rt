//! Laws of fetches, each the contract of a function that does nothing.
ghost use Rattle.std.specs.Prelude.{◌≡◌, ◌<◌, ◌↔◌, ℕ, List};
ghost use Rattle.cast_io.specs.Told.{LinkTold};
ghost use Rattle.ntrip_client.specs.Answer.{IsAnswer};
ghost use Rattle.ntrip_fetch.specs.Answered.{IsDone, IsFaulty};
ghost use Rattle.ntrip_fetch.specs.Stages.{left_of};
ghost use Rattle.cast_io.specs.Links.{bytes_in};
ghost use Rattle.ntrip_fetch.specs.Fetched.{Fetched};

use crate::left::{Left, Try};
use crate::target::Target;
use ntrip_client::{Answer, Refusal};

/// Why a link is left is exact. Enough frames were written; or the head of the answer refuses; or
/// with fewer frames its body has ended, or is bad at some place.
pub fn reasons_are_exact()
    ensures enough { (target : Target) (most : ℕ) (before after : LinkTold)
        (frames : List (List ℕ)) (tried : Try) → 0 < most
        → Fetched target most before after frames tried
        → (tried.left ≡ Left.Enough) ↔ (tried.frames ≡ most) }
    ensures refused { (target : Target) (most : ℕ) (before after : LinkTold)
        (frames : List (List ℕ)) (tried : Try) (why : Refusal) → 0 < most
        → (x : Fetched target most before after frames tried)
        → IsAnswer (bytes_in x.taken) (Answer.Refused why) → tried.left ≡ left_of why }
    ensures done { (target : Target) (most : ℕ) (before after : LinkTold)
        (frames : List (List ℕ)) (tried : Try) → tried.frames < most
        → (x : Fetched target most before after frames tried)
        → IsDone x.answer (bytes_in x.taken) → tried.left ≡ Left.Done }
    ensures bad_chunk { (target : Target) (most : ℕ) (before after : LinkTold)
        (frames : List (List ℕ)) (tried : Try) (place : ℕ) → tried.frames < most
        → (x : Fetched target most before after frames tried)
        → IsFaulty x.answer (bytes_in x.taken) place → tried.left ≡ Left.BadChunk place }
{}
