//! Of `ntrip_head`: the head of a request.
ghost use Rattle.std.specs.Prelude.{◌≡◌, ◌⊎◌, ℕ, take, Ok, Err, IfErr, IfNone, IfOk, IfSome};
ghost use Rattle.ntrip_head.specs.Answer.{HeadAnswer};
ghost use Rattle.ntrip_head.specs.Head.{IsHead, IsLong, IsOpen};

use ntrip_head::{HeadBuf, HeadEnd, HeadError, HeadFault, Request};
use std::alloc::Global;

/// The request of the head in front of these bytes, and where the body begins.
pub fn first_request(alloc: Global, bytes: &[u8]) -> Result<Option<(Request, usize)>, HeadError>
    ensures some { IfOk result (λ found. IfSome found (λ r.
        IsHead (take r.1 bytes.now) × HeadAnswer (take r.1 bytes.now) (Ok r.0))) }
    ensures none { IfOk result (λ found.
        IfNone found (IsOpen bytes.now ⊎ IsLong (take 8192 bytes.now))) }
    ensures refused { IfErr result (λ why. (fault : HeadFault) → why ≡ HeadError.Refused fault
        → (end : ℕ) × IsHead (take end bytes.now) × HeadAnswer (take end bytes.now) (Err fault)) }
{
    let mut head = HeadBuf::new(alloc)?;
    match head.read(bytes) {
        (taken, Some(HeadEnd::Whole(answer))) => Ok(Some((answer?, taken))),
        (_, Some(HeadEnd::Long) | None) => Ok(None),
    }
}
