//! Of `rtcm_frame`: a byte stream that is cut into frames.
ghost use Rattle.std.specs.Prelude.{◌≡◌, IfOk, filter_map};
ghost use Rattle.rtcm_frame.specs.Transport.{number_of};
ghost use Rattle.rtcm_frame.specs.Cut.{cut};

use rtcm_frame::Cutter;
use std::alloc::{AllocError, Global};

/// The message numbers of the frames in these bytes, and the count of junk.
pub fn numbers_in(alloc: Global, bytes: &[u8]) -> Result<(Vec<u16>, u64), AllocError>
    ensures numbers { IfOk result (λ r. r.0.items ≡ filter_map number_of (cut bytes.now).frames) }
    ensures junk { IfOk result (λ r. r.1 ≡ (cut bytes.now).junk) }
{
    let mut cutter = Cutter::new();
    let mut numbers = Vec::new(alloc);
    for byte in bytes {
        cutter.push(*byte);
        while let Some(frame) = cutter.next() {
            if let Some(number) = frame.number() {
                numbers.push(number)?;
            }
        }
    }
    Ok((numbers, cutter.junk()))
}
