//! Laws of answers, each the contract of a function that does nothing.

ghost use Rattle.std.specs.Prelude.{◌≡◌, ◌≢◌, ◌≤◌, ℕ, Bool, List, ◌++◌, length};
ghost use Rattle.ntrip_client.specs.Answer.{IsAnswer};

use crate::answer::{Answer, Refusal};

/// Whatever bytes came, they say at most one thing.
pub fn answers_are_one()
    ensures { (bytes : List ℕ) (answer other : Answer)
        → IsAnswer bytes answer → IsAnswer bytes other → answer ≡ other }
{}

/// What was said stays said, whatever comes behind it; so it does not matter in which pieces the
/// bytes came.
pub fn answers_stay()
    ensures { (bytes more : List ℕ) (answer : Answer) → answer ≢ Answer.Open
        → IsAnswer bytes answer → IsAnswer (bytes ++ more) answer }
{}

/// The head of an answer that is accepted has at most 8,192 bytes, which came.
pub fn heads_have_few_bytes()
    ensures within { (bytes : List ℕ) (at : ℕ) (chunked : Bool)
        → IsAnswer bytes (Answer.Accepted at chunked) → at ≤ length bytes }
    ensures few { (bytes : List ℕ) (at : ℕ) (chunked : Bool)
        → IsAnswer bytes (Answer.Accepted at chunked) → at ≤ 8192 }
{}
