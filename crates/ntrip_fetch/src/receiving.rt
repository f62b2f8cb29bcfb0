//! A fetch over one link.

ghost use Rattle.std.specs.Prelude.{◌≡◌, ◌+◌, ◌^◌, ◌<◌, ◌≤◌, ℕ, List, [], length, Option, IfOk, IsErrOf, OnErr};
ghost use Rattle.cast_io.specs.Told.{LinkTold};
ghost use Rattle.ntrip_client.specs.Answer.{IsAnswer};
ghost use Rattle.ntrip_fetch.specs.Sinks.{Counts, CountsFor};
ghost use Rattle.ntrip_fetch.specs.Request.{IsSpoken};
ghost use Rattle.ntrip_fetch.specs.Fetched.{LinkBroken, LinkFetched, HasReceived, HeardIs, Receiving, ReceivingBroken};

use crate::fetch_stage::{FetchStage, take};
use crate::left::{FetchFault, Left, Try};
use crate::target::{Target, request_of};
use cast_io::{Failed, Got, Link, Sink};
use ntrip_client::{Answer, AnswerHead};
use std::alloc::Global;
use std::sync::Wait;

/// How many bytes of one link are taken; then it is left as if it had ended.
const MAX_LINK_BYTES: u64 = 1 << 62;

/// How many bytes one read takes at most.
const MAX_READ_BYTES: usize = 4096;

/// Reads the link once, and writes the frames that the bytes complete which it gave, until `most`
/// were written in all. Answers why the link is to be left, if it is. It rests where it gave
/// nothing.
fn hear<L: Link, O: Sink>(
    stage: &mut FetchStage,
    frames: &mut u64,
    most: u64,
    given: &mut u64,
    piece: &mut [u8],
    link: &mut L,
    out: &mut O,
) -> Result<Option<Left>, Failed>
    requires some { 0 < most }
    requires size { length piece.old ≡ 4096 }
    requires few { given.old < 2 ^ 62 }
    requires received { (before : LinkTold) × (start : Option (List ℕ))
        × Receiving most before (L.told link.old) start (O.taken out.old) stage.old frames.old
        given.old }
    ensures few { given.new < 2 ^ 62 + 4096 }
    ensures heard { IfOk result (λ left. (before : LinkTold) (start : Option (List ℕ))
        → Receiving most before (L.told link.old) start (O.taken out.old) stage.old frames.old
        given.old
        → HeardIs most before (L.told link.new) start (O.taken out.new) stage.new frames.new
        given.new left) }
    ensures broken { OnErr result ((before : LinkTold) (start : Option (List ℕ))
        → Receiving most before (L.told link.old) start (O.taken out.old) stage.old frames.old
        given.old
        → ReceivingBroken most before (L.told link.new) start (O.taken out.new)) }
    ensures sink { Counts (O.faults out.old) (O.faults out.new) result }
{
    match link.read(piece) {
        Got::Bytes(count) => {
            *given += count as u64;
            let left = take(stage, frames, most, &piece[..count], out)?;
            Ok(left)
        }
        Got::Idle => {
            link.rest();
            Ok(None)
        }
        Got::End => Ok(Some(Left::End)),
        Got::Failed => Ok(Some(Left::LinkFault)),
    }
}

/// Reads the link, to which the request was sent, and writes frames until `most` were written or
/// the link is left.
fn receive<L: Link, O: Sink, R: Wait>(
    rt: &R,
    head: AnswerHead,
    most: u64,
    link: &mut L,
    out: &mut O,
) -> Result<Try, FetchFault>
    requires empty { head ≡ [] }
    requires open { IsAnswer head Answer.Open }
    requires some { 0 < most }
    ensures received { IfOk result (HasReceived most (L.told link.old) (L.told link.new)
        (O.taken out.old) (O.taken out.new)) }
    ensures broken { IsErrOf result FetchFault.Sink → ReceivingBroken most (L.told link.old)
        (L.told link.new) (O.taken out.old) (O.taken out.new) }
    ensures only { IsErrOf result FetchFault.Memory → ⊥ }
    ensures sink { CountsFor (O.faults out.old) (O.faults out.new) result }
{
    let mut stage = FetchStage::Head(head);
    let mut frames: u64 = 0;
    let mut given: u64 = 0;
    let mut piece = [0u8; MAX_READ_BYTES];
    for _ in rt.forever() {
        if given >= MAX_LINK_BYTES {
            return Ok(Try {
                frames,
                left: Left::End,
            });
        }
        match hear(
            &mut stage,
            &mut frames,
            most,
            &mut given,
            &mut piece,
            link,
            out,
        ) {
            Ok(None) => {}
            Ok(Some(left)) => return Ok(Try { frames, left }),
            Err(_) => return Err(FetchFault::Sink),
        }
    }
    unreachable!()
}

/// Asks over the link for the target's frames, and writes each frame of the answer's body as soon
/// as it is cut, until `most` were written or the link is left; the answer says why. The link is
/// read 4,096 bytes at a time, and rests after a read that found nothing. Once it has given 2^62
/// bytes it is read no more.
///
/// It may wait, and what is said here holds where it returns.
///
/// # Errors
/// `Sink` only where the sink's count of faults rose: some first bytes of the frames that were
/// wanted were written. `Memory` at any time; then nothing was asked of the link, and nothing
/// written.
pub fn fetch_link<L: Link, O: Sink, R: Wait>(
    rt: &R,
    alloc: Global,
    t: &Target,
    most: u64,
    link: &mut L,
    out: &mut O,
) -> Result<Try, FetchFault>
    requires spoken { IsSpoken t.now }
    requires some { 1 ≤ most }
    requires few { most ≤ 1000000 }
    ensures fetched { IfOk result (LinkFetched t.now most (L.told link.old) (L.told link.new)
        (O.taken out.old) (O.taken out.new)) }
    ensures broken { IsErrOf result FetchFault.Sink → LinkBroken t.now most (L.told link.old)
        (L.told link.new) (O.taken out.old) (O.taken out.new) }
    ensures nothing { IsErrOf result FetchFault.Memory
        → (L.told link.new ≡ L.told link.old) × (O.taken out.new ≡ O.taken out.old) }
    ensures sink { CountsFor (O.faults out.old) (O.faults out.new) result }
{
    let mut request = Vec::new(alloc);
    request_of(t, &mut request)?;
    let head = AnswerHead::new(alloc)?;
    let Ok(()) = link.write(&request) else {
        return Ok(Try {
            frames: 0,
            left: Left::LinkFault,
        });
    };
    receive(rt, head, most, link, out)
}
