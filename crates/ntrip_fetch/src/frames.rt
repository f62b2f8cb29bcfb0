//! Writing the frames of a body as its bytes come.

ghost use Rattle.std.specs.Prelude.{◌<◌, ◌≤◌, ◌+◌, ◌^◌, ℕ, List, ◌++◌, length, Option, OnOk, OnErr};
ghost use Rattle.rtcm_frame.specs.Cut.{IsWaiting};
ghost use Rattle.ntrip_fetch.specs.Sinks.{Counts};
ghost use Rattle.ntrip_fetch.specs.Writing.{IsWriting, HasWritten, IsTorn, wanted};

use cast_io::{Failed, Sink};
use rtcm_frame::Cutter;

/// Writes each whole frame that the cutter holds, one at a time, until `most` were written in all.
/// `count` is how many were.
pub(crate) fn write_ready<O: Sink>(
    cutter: &mut Cutter,
    count: &mut u64,
    most: u64,
    out: &mut O,
) -> Result<(), Failed>
    requires few { cutter.old.junk + length cutter.old.bytes < 2 ^ 64 }
    requires fewer { count.old ≤ most }
    ensures few { cutter.new.junk + length cutter.new.bytes
        ≤ cutter.old.junk + length cutter.old.bytes }
    ensures within { count.new ≤ most }
    ensures waits { OnOk result (count.new < most → IsWaiting cutter.new.bytes) }
    ensures writing { OnOk result ((start : Option (List ℕ)) (bytes : List ℕ)
        → IsWriting start (O.taken out.old) bytes cutter.old count.old
        → IsWriting start (O.taken out.new) bytes cutter.new count.new) }
    ensures torn { OnErr result ((start : Option (List ℕ)) (bytes : List ℕ)
        → IsWriting start (O.taken out.old) bytes cutter.old count.old
        → IsTorn start (O.taken out.new) (wanted most bytes)) }
    ensures sink { Counts (O.faults out.old) (O.faults out.new) result }
{
    while *count < most {
        let Some(frame) = cutter.next() else {
            return Ok(());
        };
        out.write(frame.bytes())?;
        *count += 1;
    }
    Ok(())
}

/// Takes more of a body that is not chunked, and writes the frames that it completes, until `most`
/// were written in all.
pub(crate) fn write_plain<O: Sink>(
    cutter: &mut Cutter,
    count: &mut u64,
    most: u64,
    bytes: &[u8],
    out: &mut O,
) -> Result<(), Failed>
    requires few { cutter.old.junk + length cutter.old.bytes + length bytes.now < 2 ^ 64 }
    requires fewer { count.old < most }
    requires waits { IsWaiting cutter.old.bytes }
    ensures within { count.new ≤ most }
    ensures waits { OnOk result (count.new < most → IsWaiting cutter.new.bytes) }
    ensures goes_on { OnOk result (count.new < most → (start : Option (List ℕ)) (body : List ℕ)
        → IsWriting start (O.taken out.old) body cutter.old count.old
        → IsWriting start (O.taken out.new) (body ++ bytes.now) cutter.new count.new) }
    ensures written { OnOk result ((start : Option (List ℕ)) (body : List ℕ)
        → IsWriting start (O.taken out.old) body cutter.old count.old
        → HasWritten start (O.taken out.new) (wanted most (body ++ bytes.now)) count.new) }
    ensures torn { OnErr result ((start : Option (List ℕ)) (body : List ℕ)
        → IsWriting start (O.taken out.old) body cutter.old count.old
        → IsTorn start (O.taken out.new) (wanted most (body ++ bytes.now))) }
    ensures sink { Counts (O.faults out.old) (O.faults out.new) result }
{
    let mut at = 0;
    while at < bytes.len() && *count < most {
        let fed = cutter.feed(&bytes[at..]);
        write_ready(cutter, count, most, out)?;
        at += fed;
    }
    Ok(())
}
