//! CRC-24Q, the checksum of RTCM 10403.3's transport layer, by tables.
ghost use Rattle.std.specs.Prelude.{◌≡◌, ◌*◌, ◌/◌, ◌^◌, ◌<◌, length};
ghost use Rattle.rtcm_frame.specs.Crc.{crc24q_of};
ghost use Rattle.rtcm_frame.specs.Bytewise.{after_byte, crc_on, moved};

use crate::tables::{far_digit, moved_row, near_digit};

/// The CRC-24Q of a message, a number of 24 bits (RTCM 10403.3, transport layer).
pub fn crc24q(bytes: &[u8]) -> u32
    ensures value { result ≡ crc24q_of bytes.now }
    ensures bound { result < 2 ^ 24 }
{
    let eights = bytes.len() / 8 * 8;
    let front = with_eights(&bytes[..eights]);
    with_bytes(front, &bytes[eights..])
}

// The checksum of bytes in groups of eight; fewer than eight at the end are left out.
fn with_eights(bytes: &[u8]) -> u32
    requires { length bytes.now / 8 * 8 ≡ length bytes.now }
    ensures value { result ≡ crc_on 0 bytes.now }
    ensures bound { result < 2 ^ 24 }
{
    let mut crc = 0;
    let mut at = 0;
    while at < bytes.len() {
        crc = with_eight(crc, &bytes[at..at + 8]);
        at += 8;
    }
    crc
}

// The checksum with these bytes behind what it was of.
fn with_bytes(front: u32, bytes: &[u8]) -> u32
    requires { front < 2 ^ 24 }
    ensures value { result ≡ crc_on front bytes.now }
    ensures bound { result < 2 ^ 24 }
{
    let mut crc = front;
    for byte in bytes {
        crc = with_byte(crc, *byte);
    }
    crc
}

// The checksum with eight bytes more: three rows for what it was, and eight for the bytes.
#[inline]
fn with_eight(crc: u32, bytes: &[u8]) -> u32
    requires fits { crc < 2 ^ 24 }
    requires eight { length bytes.now ≡ 8 }
    ensures value { result ≡ crc_on crc bytes.now }
    ensures bound { result < 2 ^ 24 }
{
    let high = moved_row(7, (crc >> 16) as u8);
    let middle = moved_row(6, (crc / 0x100 % 0x100) as u8);
    let before = high ^ (middle ^ moved_row(5, (crc % 0x100) as u8));
    let last = moved_row(2, bytes[5]) ^ (moved_row(1, bytes[6]) ^ moved_row(0, bytes[7]));
    let later = moved_row(4, bytes[3]) ^ (moved_row(3, bytes[4]) ^ last);
    let first = moved_row(6, bytes[1]) ^ (moved_row(5, bytes[2]) ^ later);
    before ^ (moved_row(7, bytes[0]) ^ first)
}

// The checksum with one byte more.
#[inline]
pub(crate) fn with_byte(crc: u32, byte: u8) -> u32
    requires { crc < 2 ^ 24 }
    ensures value { result ≡ after_byte crc byte }
    ensures bound { result < 2 ^ 24 }
{
    let high = (crc >> 16) as u8;
    ((crc % 0x1_0000) * 0x100) ^ moved_row(0, high ^ byte)
}

// The checksum with fewer than 1,056 bytes of zero behind what it was of.
pub(crate) fn moved_by(zeros: usize, crc: u32) -> u32
    requires zeros { zeros < 1056 }
    requires fits { crc < 2 ^ 24 }
    ensures value { result ≡ moved zeros crc }
    ensures bound { result < 2 ^ 24 }
{
    moved_far(zeros / 32, moved_near(zeros % 32, crc))
}

// The checksum with fewer than 32 bytes of zero behind what it was of.
#[inline]
fn moved_near(zeros: usize, crc: u32) -> u32
    requires zeros { zeros < 32 }
    requires fits { crc < 2 ^ 24 }
    ensures value { result ≡ moved zeros crc }
    ensures bound { result < 2 ^ 24 }
{
    let low = near_digit(zeros, 1, crc) ^ near_digit(zeros, 0, crc);
    let middle = near_digit(zeros, 3, crc) ^ (near_digit(zeros, 2, crc) ^ low);
    near_digit(zeros, 5, crc) ^ (near_digit(zeros, 4, crc) ^ middle)
}

// The checksum with up to 32 times 32 bytes of zero behind what it was of.
#[inline]
fn moved_far(steps: usize, crc: u32) -> u32
    requires steps { steps < 33 }
    requires fits { crc < 2 ^ 24 }
    ensures value { result ≡ moved (32 * steps) crc }
    ensures bound { result < 2 ^ 24 }
{
    let low = far_digit(steps, 1, crc) ^ far_digit(steps, 0, crc);
    let middle = far_digit(steps, 3, crc) ^ (far_digit(steps, 2, crc) ^ low);
    far_digit(steps, 5, crc) ^ (far_digit(steps, 4, crc) ^ middle)
}
