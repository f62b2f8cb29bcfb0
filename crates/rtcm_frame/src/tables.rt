//! What is read from the tables of CRC-24Q.
ghost use Rattle.std.specs.Prelude.{◌≡◌, ◌*◌, ◌/◌, ◌%◌, ◌^◌, ◌<◌};
ghost use Rattle.rtcm_frame.specs.Bytewise.{moved, row};

mod rows;
mod shifts;

use rows::ROWS;
use shifts::{FAR, NEAR};

// The checksum of one byte with up to 7 bytes of zero behind it.
#[inline]
pub(crate) fn moved_row(zeros: usize, byte: u8) -> u32
    requires { zeros < 8 }
    ensures value { result ≡ moved zeros (row byte) }
    ensures bound { result < 2 ^ 24 }
{
    ROWS[zeros * 256 + byte as usize]
}

// The digit of four bits at a place of a register, moved on by fewer than 32 bytes of zero.
#[inline]
pub(crate) fn near_digit(zeros: usize, place: usize, value: u32) -> u32
    requires zeros { zeros < 32 }
    requires place { place < 6 }
    ensures value { result ≡ moved zeros (value / 2 ^ (4 * place) % 16 * 2 ^ (4 * place)) }
    ensures bound { result < 2 ^ 24 }
{
    let digit = (value >> (4 * place)) as usize % 16;
    NEAR[zeros * 96 + (place * 16 + digit)]
}

// The digit at a place of a register, moved on by so many times 32 bytes of zero, at most 32 times.
#[inline]
pub(crate) fn far_digit(steps: usize, place: usize, value: u32) -> u32
    requires steps { steps < 33 }
    requires place { place < 6 }
    ensures value { result ≡ moved (32 * steps) (value / 2 ^ (4 * place) % 16 * 2 ^ (4 * place)) }
    ensures bound { result < 2 ^ 24 }
{
    let digit = (value >> (4 * place)) as usize % 16;
    FAR[steps * 96 + (place * 16 + digit)]
}
