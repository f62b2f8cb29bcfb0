//! What stands in front of a byte stream.
ghost use Rattle.std.specs.Prelude.{◌≡◌, ℕ, ◌≤◌, ◌<◌, length, slice_index};
ghost use Rattle.rtcm_frame.specs.Transport.{preamble};

use crate::framing::PREAMBLE;
use memchr::memchr;

// What stands in front of some bytes.
pub(crate) enum Front {
    // a frame of this many bytes
    Whole(usize),
    // nothing, or a frame that has not all come
    Waits,
    // a byte that is in no frame
    Junk,
}

// How many bytes stand in front of the first preamble.
pub(crate) fn bytes_before_preamble(bytes: &[u8]) -> usize
    ensures within { result ≤ length bytes.now }
    ensures others { (k : ℕ) → k < result → slice_index bytes.now k ≡ preamble → ⊥ }
{
    memchr(PREAMBLE, bytes).unwrap_or(bytes.len())
}
