//! Running checksums over a buffer, from which the checksum of any part of it follows in constant
//! time.
ghost use Rattle.std.specs.Prelude.{◌≡◌, ℕ, ◌-◌, ◌^◌, ◌≤◌, ◌<◌, List, length, max, take, drop};
ghost use Rattle.rtcm_frame.specs.Crc.{crc24q_of};
ghost use Rattle.rtcm_frame.specs.Sums.{Chained, AreSums};

use crate::checksum::{moved_by, with_byte};

// Goes on with the sums where they do not reach this far yet, and answers how far they do then.
pub(crate) fn reach(sums: &mut [u32], buffer: &[u8], summed: usize, end: usize) -> usize
    requires within { end ≤ length buffer.now }
    requires reached { summed ≤ length buffer.now }
    requires room { length buffer.now < length sums.old }
    requires fits { AreSums sums.old }
    ensures reached { result ≡ max summed end }
    ensures fits { AreSums sums.new }
    ensures chained { (start : ℕ) → start ≤ summed → Chained buffer.now sums.old start summed
        → Chained buffer.now sums.new start result }
{
    let mut at = summed;
    let mut crc = sums[at];
    while at < end {
        crc = with_byte(crc, buffer[at]);
        at += 1;
        sums[at] = crc;
    }
    at
}

// The checksum of the buffer's bytes from one place to another, where the sums reach over them.
pub(crate) fn part_crc(sums: &[u32], start: usize, end: usize) -> u32
    requires order { start ≤ end }
    requires near { end - start < 1056 }
    requires within { end < length sums.now }
    requires fits { AreSums sums.now }
    ensures { (buffer : List ℕ) (summed : ℕ) → end ≤ length buffer → end ≤ summed
        → Chained buffer sums.now start summed
        → result ≡ crc24q_of (take (end - start) (drop start buffer)) }
{
    sums[end] ^ moved_by(end - start, sums[start])
}
