//! What the fakes share: which call is to fail, and what fits into a buffer.
ghost use Rattle.std.specs.Prelude.{◌≡◌, ◌==◌, ◌≤◌, ◌+◌, ◌++◌, ℕ, [], length, take, drop, min, is_some, vec_capacity, IfSome, IsOk, OnOk, OnErr};
ghost use Rattle.std.specs.List.{list_any};
ghost use Rattle.cast_io.specs.Causes.{next_count};
ghost use Rattle.cast_io.specs.Fakes.{torn_at, write_fails, write_takes};

use crate::fault::Failed;

// The call of this number is one that is to fail.
pub(crate) fn is_told(fails: &[u64], call: u64) -> bool
    ensures { result ≡ list_any (λ n. n == call) fails.now }
{
    fails.iter().any(|n| *n == call)
}

// Copies as many bytes as there are and fit to the front of `buf`, and answers their number.
pub(crate) fn copy_front(from: &[u8], buf: &mut [u8]) -> usize
    ensures count { result ≡ min (length from.now) (length buf.old) }
    ensures front { take result buf.new ≡ take result from.now }
{
    let count = from.len().min(buf.len());
    buf[..count].copy_from_slice(&from[..count]);
    count
}

// Copies what there is from this place on, as far as it fits, to the front of `buf`.
pub(crate) fn copy_from(from: &[u8], place: usize, buf: &mut [u8]) -> usize
    requires { place ≤ length from.now }
    ensures count { result ≡ min (length (drop place from.now)) (length buf.new) }
    ensures size { length buf.new ≡ length buf.old }
    ensures front { take result buf.new ≡ take result (drop place from.now) }
{
    copy_front(&from[place..], buf)
}

// Appends these bytes. Where there is no memory for them, that is a fault, and none is appended.
pub(crate) fn take_bytes(bytes: &mut Vec<u8>, faults: &mut u64, piece: &[u8]) -> Result<(), Failed>
    ensures whole { OnOk result ((bytes.new.items ≡ bytes.old.items ++ piece.now)
        × (faults.new ≡ faults.old)) }
    ensures none { OnErr result ((bytes.new.items ≡ bytes.old.items)
        × (faults.new ≡ next_count faults.old)) }
    ensures exact { length bytes.old.items + length piece.now ≤ vec_capacity bytes.old
        → IsOk result }
    ensures later { faults.old ≤ faults.new }
{
    let Ok(()) = bytes.extend_from_slice(piece) else {
        *faults = faults.saturating_add(1);
        return Err(Failed);
    };
    Ok(())
}

// How many bytes the write of this number takes before it fails, where it is to be torn.
fn torn_after(torn: &[(u64, u64)], write: u64) -> Option<u64>
    ensures { result ≡ torn_at write torn.now }
{
    torn.iter().find(|pair| pair.0 == write).map(|pair| pair.1)
}

// The first bytes of the piece, at most so many.
fn front_of(piece: &[u8], most: u64) -> &[u8]
    ensures { result.now ≡ take most piece.now }
{
    if most < piece.len() as u64 {
        &piece[..most as usize]
    } else {
        piece
    }
}

// What a write takes of the piece, where it is to fail after so many calls and writes.
#[tactic(auto, using(crate::proofs::TornLemmas::torn_none))]
pub(crate) fn torn_front<'a>(
    fails: &[u64],
    torn: &[(u64, u64)],
    calls: u64,
    writes: u64,
    piece: &'a [u8],
) -> Option<&'a [u8]>
    ensures fails { is_some result ≡ write_fails calls writes fails.now torn.now }
    ensures front { IfSome result (λ front. (n : ℕ) × (n ≤ length piece.now)
        × (front.now ≡ take n piece.now)) }
    ensures takes { IfSome result (λ front. front.now
        ≡ write_takes calls writes fails.now torn.now piece.now) }
    ensures none { torn.now ≡ [] → IfSome result (λ front. front.now ≡ []) }
{
    if is_told(fails, calls.saturating_add(1)) {
        return Some(&piece[..0]);
    }
    let most = torn_after(torn, writes.saturating_add(1))?;
    Some(front_of(piece, most))
}
