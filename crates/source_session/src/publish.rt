//! Publishing the frames of a body as its bytes come, at any place.
ghost use Rattle.std.specs.Prelude.{◌≡◌, ℕ, ◌+◌, ◌^◌, ◌<◌, IsTrue, List, [], ◌∷◌, ◌++◌, length, Some, None, OnOk, OnErr, IfErr};
ghost use Rattle.std.specs.Result.{result_err};
ghost use Rattle.rtcm_frame.specs.Cut.{cut};
ghost use Rattle.turn_log.specs.Faults.{IsFault};
ghost use Rattle.source_session.specs.Calls.{IsHolding};
ghost use Rattle.source_session.specs.Places.{Stays, PublishedBy, LeftOutAt};
ghost use Rattle.source_session.specs.Standing.{StandsBy};
ghost use Rattle.source_session.specs.Refusals.{IsHaltOf};
ghost use Rattle.source_session.specs.Taken.{TookMore};

use crate::fault::SourceHalt;
use chunk_body::{Dechunk, Step};
use mount_ring::{Outbox, Ring, RingCall};
use rtcm_frame::Cutter;
use turn_log::{TurnFault, Turns};

/// Publishes each whole frame that the cutter holds, under the caller's claim.
fn publish_ready<T: Turns<Ring>>(
    cutter: &mut Cutter,
    me: u32,
    claim: u64,
    place: &mut T,
    room: &mut Outbox,
) -> Result<(), TurnFault>
    requires speaks { IsTrue (T.speaks place.old me) }
    requires few { cutter.old.junk + length cutter.old.bytes < 2 ^ 64 }
    requires holds { IsHolding me claim (T.seen place.old) }
    ensures stays { Stays T.Turns place.old place.new }
    ensures holds { IsHolding me claim (T.seen place.new) }
    ensures cutter { OnOk result (cutter.new ≡ record {
      bytes = (cut cutter.old.bytes).rest;
      junk = cutter.old.junk + (cut cutter.old.bytes).junk;
    }) }
    ensures heard { OnOk result
        (PublishedBy T.Turns place.old place.new me claim None (cut cutter.old.bytes).frames) }
    ensures junk { OnErr result (cutter.new.junk + (cut cutter.new.bytes).junk
        ≡ cutter.old.junk + (cut cutter.old.bytes).junk) }
    ensures short { OnErr result ((before : List ℕ) (sum : ℕ)
        → sum + cutter.old.junk ≡ length before
        → LeftOutAt T.Turns place.old place.new me claim (cut cutter.old.bytes).frames
        (before ++ cutter.old.bytes) sum cutter.new.junk) }
    ensures fault { IfErr result (IsFault (T.may_lack place.old) (T.worn place.new)) }
{
    while let Some(frame) = cutter.next() {
        place.turn(me, RingCall::Publish(claim, frame), room)?;
    }
    Ok(())
}

/// Publishes the frames that more of a body completes, which is not chunked.
pub fn publish_plain<T: Turns<Ring>>(
    cutter: &mut Cutter,
    me: u32,
    claim: u64,
    bytes: &[u8],
    place: &mut T,
) -> Result<(), SourceHalt>
    requires speaks { IsTrue (T.speaks place.old me) }
    requires holds { IsHolding me claim (T.seen place.old) }
    requires few { (body : List ℕ) × StandsBy None None cutter.old body
        × (length body + length bytes.now < 2 ^ 63) }
    ensures stays { Stays T.Turns place.old place.new }
    ensures holds { IsHolding me claim (T.seen place.new) }
    ensures took { (body : List ℕ) → StandsBy None None cutter.old body
        → TookMore T.Turns place.old place.new me claim (result_err result) None cutter.new body
        bytes.now }
    ensures cause { IfErr result (IsHaltOf (T.may_lack place.old) (T.worn place.new)) }
{
    let mut room = Outbox::new();
    let mut at = 0;
    while at < bytes.len() {
        let count = cutter.feed(&bytes[at..]);
        publish_ready(cutter, me, claim, place, &mut room)?;
        at += count;
    }
    Ok(())
}

/// Takes the next byte of a chunked body, and publishes the frames that it completes.
fn publish_step<T: Turns<Ring>>(
    chunks: &mut Dechunk,
    cutter: &mut Cutter,
    me: u32,
    claim: u64,
    byte: u8,
    place: &mut T,
    room: &mut Outbox,
) -> Result<(), SourceHalt>
    requires speaks { IsTrue (T.speaks place.old me) }
    requires holds { IsHolding me claim (T.seen place.old) }
    requires few { (body : List ℕ) × StandsBy None (Some chunks.old) cutter.old body
        × (length body + 1 < 2 ^ 63) }
    ensures stays { Stays T.Turns place.old place.new }
    ensures holds { IsHolding me claim (T.seen place.new) }
    ensures took { (body : List ℕ) → StandsBy None (Some chunks.old) cutter.old body
        → TookMore T.Turns place.old place.new me claim (result_err result) (Some chunks.new)
        cutter.new body (byte ∷ []) }
    ensures cause { IfErr result (IsHaltOf (T.may_lack place.old) (T.worn place.new)) }
{
    match chunks.push(byte) {
        Step::More => Ok(()),
        Step::Byte(data) => {
            cutter.push(data);
            publish_ready(cutter, me, claim, place, room)?;
            Ok(())
        }
        Step::Done => Err(SourceHalt::Done),
        Step::Bad { at } => Err(SourceHalt::BadChunk { at }),
    }
}

/// Publishes the frames that more of a chunked body completes, up to its end or its fault.
pub fn publish_chunked<T: Turns<Ring>>(
    chunks: &mut Dechunk,
    cutter: &mut Cutter,
    me: u32,
    claim: u64,
    bytes: &[u8],
    place: &mut T,
) -> Result<(), SourceHalt>
    requires speaks { IsTrue (T.speaks place.old me) }
    requires holds { IsHolding me claim (T.seen place.old) }
    requires few { (body : List ℕ) × StandsBy None (Some chunks.old) cutter.old body
        × (length body + length bytes.now < 2 ^ 63) }
    ensures stays { Stays T.Turns place.old place.new }
    ensures holds { IsHolding me claim (T.seen place.new) }
    ensures took { (body : List ℕ) → StandsBy None (Some chunks.old) cutter.old body
        → TookMore T.Turns place.old place.new me claim (result_err result) (Some chunks.new)
        cutter.new body bytes.now }
    ensures cause { IfErr result (IsHaltOf (T.may_lack place.old) (T.worn place.new)) }
{
    let mut room = Outbox::new();
    for byte in bytes {
        publish_step(chunks, cutter, me, claim, *byte, place, &mut room)?;
    }
    Ok(())
}
