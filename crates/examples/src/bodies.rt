//! Of `chunk_body`: a body in the chunked transfer coding.
ghost use Rattle.std.specs.Prelude.{◌≡◌, ◌+◌, ◌^◌, ◌<◌, ℕ, List, ◌++◌, length, IfOk, OnOk};
ghost use Rattle.chunk_body.specs.Answer.{plain_of};
ghost use Rattle.chunk_body.specs.Machine.{read};
ghost use Rattle.chunk_body.specs.Text.{HasEnded, IsBadAt};

use chunk_body::{Dechunk, Step};
use std::alloc::AllocError;

/// Appends the data of these bytes, and tells what the last of them was.
pub fn decode(reader: &mut Dechunk, bytes: &[u8], out: &mut Vec<u8>) -> Result<Step, AllocError>
    requires { reader.old.taken + length bytes.now < 2 ^ 63 }
    ensures read { OnOk result ((text : List ℕ) → reader.old ≡ read text
        → reader.new ≡ read (text ++ bytes.now)) }
    ensures data { OnOk result ((more : List ℕ) × (out.new.items ≡ out.old.items ++ more)
        × ((text : List ℕ) → reader.old ≡ read text
        → plain_of (text ++ bytes.now) ≡ plain_of text ++ more)) }
    ensures ended { IfOk result (λ last. (text : List ℕ) → reader.old ≡ read text
        → last ≡ Step.Done → HasEnded (text ++ bytes.now)) }
    ensures bad { IfOk result (λ last. (text : List ℕ) (place : ℕ) → reader.old ≡ read text
        → last ≡ Step.Bad place → IsBadAt (text ++ bytes.now) place) }
{
    let mut last = Step::More;
    for byte in bytes {
        last = reader.push(*byte);
        if let Step::Byte(given) = last {
            out.push(given)?;
        }
    }
    Ok(last)
}
