//! Reading a chunked body as its bytes come, one at a time.
ghost use Rattle.std.specs.Prelude.{◌≡◌, ℕ, ◌+◌, ◌^◌, ◌<◌, ◌≤◌, ◌↔◌, List, [], ◌∷◌, ◌++◌, IsTrue};

use crate::phase::Phase;
use std::marker::Model;

/// What a byte of a chunked body was.
#[derive(Clone, Copy, Debug, PartialEq, Eq)]
pub enum Step {
    /// A byte of the coding; the body goes on.
    More,
    /// This byte of the data; the body goes on.
    Byte(u8),
    /// The body has ended.
    Done,
    /// The byte at this place in the body, from 0, was the first after which no continuation is a
    /// body.
    Bad { at: u64 },
}

/// Reads a chunked body (RFC 9112, section 7.1) as its bytes come, and gives the data that it
/// holds. It takes no memory.
///
/// A size has 1 to 6 hexadecimal digits, its line at most 256 bytes, and the trailers at most 1,024
/// with the empty line. Contracts see what `read` makes of all bytes pushed so far; what the
/// answers say of those bytes is said by the grammar alone.
#[derive(Debug, Drop)]
pub struct Dechunk {
    phase: Phase,
    taken: u64,
}

impl Model for Dechunk {
    ghost use Rattle.std.specs.Prelude.{IsTrue};
    ghost use Rattle.chunk_body.specs.Machine.{Reading, is_within};

    ghost Value = { Reading };

    ghost view = { λ d. record { phase = d.phase; taken = d.taken } };

    ghost invariant = { λ d. IsTrue (is_within d.phase) };
}

impl Default for Dechunk {
    ghost use Rattle.std.specs.Prelude.{[]};
    ghost use Rattle.chunk_body.specs.Machine.{read};

    ghost is_default = { λ d. d ≡ read [] };

    /// Before the first byte.
    fn default() -> Dechunk {
        Dechunk::new()
    }
}

impl Dechunk {
    ghost use Rattle.chunk_body.specs.Machine.{Reading, read, after};
    ghost use Rattle.chunk_body.specs.Answer.{answer, given_by, goes_on, plain_of};
    ghost use Rattle.chunk_body.specs.Text.{IsOpen, HasEnded, IsBadAt, IsPlain};
    ghost use Rattle.chunk_body.specs.declared.dechunk.Step.TheVariants as steps;

    /// Before the first byte.
    #[tactic(auto, unfolding(crate::specs::Machine::read, crate::specs::Machine::is_within))]
    pub fn new() -> Dechunk
        ensures read { result ≡ read [] }
        ensures taken { result.taken ≡ 0 }
    {
        Dechunk {
            phase: Phase::Digits { count: 0, value: 0 },
            taken: 0,
        }
    }

    /// Takes the next byte, the text's first after those that were read. The condition holds where
    /// fewer than 2^63 bytes were pushed. After `Done` and after `Bad` each further byte gets the
    /// same answer.
    pub fn push(&mut self, byte: u8) -> Step
        requires { self.old.taken < 2 ^ 63 }
        ensures taken { self.new.taken ≤ self.old.taken + 1 }
        ensures read { (text : List ℕ) → self.old ≡ read text
            → self.new ≡ read (text ++ byte ∷ []) }
        ensures goes_on { (text : List ℕ) → self.old ≡ read text
            → IsTrue (goes_on result) ↔ IsOpen (text ++ byte ∷ []) }
        ensures done { (text : List ℕ) → self.old ≡ read text
            → (result ≡ steps.Done) ↔ HasEnded (text ++ byte ∷ []) }
        ensures bad { (text : List ℕ) (place : ℕ) → self.old ≡ read text
            → (result ≡ steps.Bad place) ↔ IsBadAt (text ++ byte ∷ []) place }
        ensures plain { (text content : List ℕ) → self.old ≡ read text → IsPlain text content
            → IsPlain (text ++ byte ∷ []) (content ++ given_by result) }
        ensures gives { (text : List ℕ) → self.old ≡ read text
            → plain_of (text ++ byte ∷ []) ≡ plain_of text ++ given_by result }
    {
        self.take(byte)
    }

    // Takes the next byte.
    #[tactic(auto, unfolding(crate::specs::Machine::after, crate::specs::Answer::answer))]
    fn take(&mut self, byte: u8) -> Step
        requires { self.old.taken < 2 ^ 63 }
        ensures reading { self.new ≡ after self.old byte }
        ensures answer { result ≡ answer self.old byte }
    {
        if self.phase.is_ended() {
            return Step::Done;
        }
        let given = self.phase.is_data();
        self.phase = self.phase.after(byte);
        if self.phase.is_ended() {
            return Step::Done;
        }
        if self.phase.is_broken() {
            return Step::Bad { at: self.taken };
        }
        self.taken += 1;
        if given { Step::Byte(byte) } else { Step::More }
    }
}
