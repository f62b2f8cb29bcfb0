//! The body of an answer, as its bytes come.

ghost use Rattle.std.specs.Prelude.{◌≡◌, ◌<◌, ◌≤◌, ◌+◌, ◌^◌, ℕ, true, List, [], ◌∷◌, ◌++◌, length, Option, Some, None, is_some, OnErr, IfOk};
ghost use Rattle.rtcm_frame.specs.Cut.{IsWaiting};
ghost use Rattle.source_session.specs.Body.{payload};
ghost use Rattle.source_session.specs.Standing.{GoesOnAt};
ghost use Rattle.ntrip_fetch.specs.Sinks.{Counts};
ghost use Rattle.ntrip_fetch.specs.Writing.{IsTorn, wanted};
ghost use Rattle.ntrip_fetch.specs.Stages.{IsAtBody, BodyIs};

use crate::frames::{write_plain, write_ready};
use crate::left::Left;
use cast_io::{Failed, Sink};
use chunk_body::{Dechunk, Step};
use rtcm_frame::Cutter;

/// A body that goes on: as it is, or in the chunked transfer coding (RFC 9112, section 7.1), with
/// what was not cut into frames yet.
#[derive(Drop)]
pub(crate) struct Body {
    pub(crate) chunks: Option<Dechunk>,
    pub(crate) cutter: Cutter,
}

/// A reader of the chunks of a body that comes in chunks.
fn chunk_reader(chunked: bool) -> Option<Dechunk>
    ensures begins { GoesOnAt result [] }
    ensures chunked { is_some result ≡ chunked }
{
    if chunked { Some(Dechunk::new()) } else { None }
}

/// A body of which nothing came.
pub(crate) fn begin(chunked: bool) -> Body
    ensures begins { GoesOnAt result.chunks [] }
    ensures chunked { is_some result.chunks ≡ chunked }
    ensures cutter { result.cutter ≡ record { bytes = []; junk = 0 } }
{
    Body {
        chunks: chunk_reader(chunked),
        cutter: Cutter::new(),
    }
}

/// Enough where so many frames were written.
fn enough_at(count: u64, most: u64) -> Option<Left>
    requires { count ≤ most }
    ensures enough { count ≡ most → result ≡ Some Left.Enough }
    ensures fewer { count < most → result ≡ None }
{
    if count == most {
        Some(Left::Enough)
    } else {
        None
    }
}

/// Takes the next byte of a chunked body, and writes the frames that it completes, until `most`
/// were written in all.
fn take_byte<O: Sink>(
    chunks: &mut Dechunk,
    cutter: &mut Cutter,
    count: &mut u64,
    most: u64,
    byte: u8,
    out: &mut O,
) -> Result<Option<Left>, Failed>
    requires few { cutter.old.junk + length cutter.old.bytes + 1 < 2 ^ 64 }
    requires read { chunks.old.taken < 2 ^ 63 }
    requires fewer { count.old < most }
    requires waits { IsWaiting cutter.old.bytes }
    ensures few { (cutter.new.junk + length cutter.new.bytes
        ≤ cutter.old.junk + length cutter.old.bytes + 1)
        × (chunks.new.taken ≤ chunks.old.taken + 1) }
    ensures within { count.new ≤ most }
    ensures took { IfOk result (λ left. (start : Option (List ℕ)) (text : List ℕ)
        → IsAtBody start (O.taken out.old) most (Some chunks.old) cutter.old text count.old
        → BodyIs start (O.taken out.new) most (Some chunks.new) cutter.new (text ++ byte ∷ [])
        count.new left) }
    ensures goes_on { IfOk result (λ left. left ≡ None
        → (count.new < most) × IsWaiting cutter.new.bytes) }
    ensures torn { OnErr result ((start : Option (List ℕ)) (text : List ℕ)
        → IsAtBody start (O.taken out.old) most (Some chunks.old) cutter.old text count.old
        → IsTorn start (O.taken out.new) (wanted most (payload true (text ++ byte ∷ [])))) }
    ensures sink { Counts (O.faults out.old) (O.faults out.new) result }
{
    match chunks.push(byte) {
        Step::More => Ok(None),
        Step::Byte(data) => {
            cutter.push(data);
            write_ready(cutter, count, most, out)?;
            Ok(enough_at(*count, most))
        }
        Step::Done => Ok(Some(Left::Done)),
        Step::Bad { at } => Ok(Some(Left::BadChunk { at })),
    }
}

/// Takes more of a chunked body, and writes the frames that it completes, until `most` were written
/// in all, or the body ends or is faulty.
fn take_chunked<O: Sink>(
    chunks: &mut Dechunk,
    cutter: &mut Cutter,
    count: &mut u64,
    most: u64,
    bytes: &[u8],
    out: &mut O,
) -> Result<Option<Left>, Failed>
    requires few { cutter.old.junk + length cutter.old.bytes + length bytes.now < 2 ^ 64 }
    requires read { chunks.old.taken + length bytes.now < 2 ^ 63 }
    requires fewer { count.old < most }
    requires waits { IsWaiting cutter.old.bytes }
    ensures took { IfOk result (λ left. (start : Option (List ℕ)) (text : List ℕ)
        → IsAtBody start (O.taken out.old) most (Some chunks.old) cutter.old text count.old
        → BodyIs start (O.taken out.new) most (Some chunks.new) cutter.new (text ++ bytes.now)
        count.new left) }
    ensures torn { OnErr result ((start : Option (List ℕ)) (text : List ℕ)
        → IsAtBody start (O.taken out.old) most (Some chunks.old) cutter.old text count.old
        → IsTorn start (O.taken out.new) (wanted most (payload true (text ++ bytes.now)))) }
    ensures sink { Counts (O.faults out.old) (O.faults out.new) result }
{
    for byte in bytes {
        let left = take_byte(chunks, cutter, count, most, *byte, out)?;
        if left.is_some() {
            return Ok(left);
        }
    }
    Ok(None)
}

/// Takes more of a body that is not chunked, as `take_chunked` does.
fn take_plain<O: Sink>(
    cutter: &mut Cutter,
    count: &mut u64,
    most: u64,
    bytes: &[u8],
    out: &mut O,
) -> Result<Option<Left>, Failed>
    requires few { cutter.old.junk + length cutter.old.bytes + length bytes.now < 2 ^ 64 }
    requires fewer { count.old < most }
    requires waits { IsWaiting cutter.old.bytes }
    ensures took { IfOk result (λ left. (start : Option (List ℕ)) (text : List ℕ)
        → IsAtBody start (O.taken out.old) most None cutter.old text count.old
        → BodyIs start (O.taken out.new) most None cutter.new (text ++ bytes.now) count.new
        left) }
    ensures torn { OnErr result ((start : Option (List ℕ)) (text : List ℕ)
        → IsAtBody start (O.taken out.old) most None cutter.old text count.old
        → IsTorn start (O.taken out.new) (wanted most (text ++ bytes.now))) }
    ensures sink { Counts (O.faults out.old) (O.faults out.new) result }
{
    write_plain(cutter, count, most, bytes, out)?;
    Ok(enough_at(*count, most))
}

/// Takes more of a body, and writes the frames that it completes, until `most` were written in
/// all, or the body ends or is faulty.
pub(crate) fn take_body<O: Sink>(
    body: &mut Body,
    count: &mut u64,
    most: u64,
    bytes: &[u8],
    out: &mut O,
) -> Result<Option<Left>, Failed>
    requires few { (start : Option (List ℕ)) × (text : List ℕ)
        × IsAtBody start (O.taken out.old) most body.old.chunks body.old.cutter text count.old
        × (length text + length bytes.now < 2 ^ 63) }
    ensures took { IfOk result (λ left. (start : Option (List ℕ)) (text : List ℕ)
        → IsAtBody start (O.taken out.old) most body.old.chunks body.old.cutter text count.old
        → BodyIs start (O.taken out.new) most body.new.chunks body.new.cutter
        (text ++ bytes.now) count.new left) }
    ensures same { is_some body.new.chunks ≡ is_some body.old.chunks }
    ensures torn { OnErr result ((start : Option (List ℕ)) (text : List ℕ)
        → IsAtBody start (O.taken out.old) most body.old.chunks body.old.cutter text count.old
        → IsTorn start (O.taken out.new)
        (wanted most (payload (is_some body.old.chunks) (text ++ bytes.now)))) }
    ensures sink { Counts (O.faults out.old) (O.faults out.new) result }
{
    match &mut body.chunks {
        None => take_plain(&mut body.cutter, count, most, bytes, out),
        Some(chunks) => take_chunked(chunks, &mut body.cutter, count, most, bytes, out),
    }
}
