//! A whole frame of RTCM 10403.3's transport layer.
ghost use Rattle.std.specs.Prelude.{◌≡◌, ℕ, ◌+◌, ◌-◌, ◌<◌, ◌≤◌, List, [], ◌∷◌, ◌++◌, ◌*◌, length, take, drop, replicate, if◌then◌else◌, IsTrue, IfSome};
ghost use Rattle.rtcm_frame.specs.Crc.{crc24q_of};
ghost use Rattle.rtcm_frame.specs.Transport.{preamble, longest, frame_length, is_frame, number_of};

use crate::checksum::crc24q;
use std::marker::Model;

/// The first byte of every frame.
pub(crate) const PREAMBLE: u8 = 0xD3;

/// The greatest length of a frame in bytes.
pub(crate) const MAX_FRAME_BYTES: usize = 1029;

/// The bytes of a header and of a checksum, the least length of a frame.
const MIN_FRAME_BYTES: usize = 6;

/// One whole valid frame, 6 to 1,029 bytes (RTCM 10403.3, transport layer). Contracts see its
/// bytes.
#[derive(Clone, Copy, Debug, PartialEq, Eq)]
pub struct Frame {
    bytes: [u8; MAX_FRAME_BYTES],
    len: usize,
}

impl Model for Frame {
    ghost use Rattle.std.specs.Prelude.{List, ℕ, take};

    ghost Value = { List ℕ };

    ghost use Rattle.rtcm_frame.specs.Padded.{IsPadded, padded, padded_gives_back};

    ghost view = { λ f. take f.len f.bytes };

    ghost invariant = { IsPadded };

    ghost inverse = { padded };

    ghost inverse_ok = { padded_gives_back };
}

impl Default for Frame {
    ghost is_default = { λ f. f ≡ preamble ∷ 0 ∷ 0 ∷ 0x47 ∷ 0xEA ∷ 0x4B ∷ [] };

    /// The shortest frame, with an empty payload.
    fn default() -> Frame {
        let mut bytes = [0; MAX_FRAME_BYTES];
        put_front(&mut bytes, &[PREAMBLE, 0x00, 0x00, 0x47, 0xEA, 0x4B]);
        Frame {
            bytes,
            len: MIN_FRAME_BYTES,
        }
    }
}

impl Frame {
    /// The frame of these bytes, where they are exactly one whole valid frame.
    pub fn of(bytes: &[u8]) -> Option<Frame>
        ensures { result ≡ (if is_frame bytes.now then Some bytes.now else None) }
    {
        if is_whole(bytes) {
            Some(Frame::of_valid(bytes))
        } else {
            None
        }
    }

    // The frame of these bytes, which are known to be one.
    pub(crate) fn of_valid(bytes: &[u8]) -> Frame
        requires { IsTrue (is_frame bytes.now) }
        ensures { result ≡ bytes.now }
    {
        let mut held = [0; MAX_FRAME_BYTES];
        put_front(&mut held, bytes);
        Frame {
            bytes: held,
            len: bytes.len(),
        }
    }

    /// Becomes the other frame. No more is written than the bytes of the longer one of the two.
    pub fn copy_from(&mut self, other: &Frame)
        ensures { self.new ≡ other.now }
    {
        let bytes = other.bytes();
        clear(&mut self.bytes, bytes.len().min(self.len), self.len);
        put_front(&mut self.bytes, bytes);
        self.len = bytes.len();
    }

    /// All bytes of the frame, from the preamble to the checksum.
    #[tactic(auto, using(crate::proofs::FrameLemmas::frame_bounds))]
    pub fn bytes(&self) -> &[u8]
        ensures value { result.now ≡ self.now }
        ensures valid { IsTrue (is_frame self.now) }
        ensures least { 6 ≤ length self.now }
        ensures most { length self.now ≤ longest }
    {
        &self.bytes[..self.len]
    }

    /// The message number, the first twelve bits of the payload; none where the payload has fewer
    /// than two bytes.
    pub fn number(&self) -> Option<u16>
        ensures value { result ≡ number_of self.now }
        ensures bound { IfSome result (λ n. n < 4096) }
    {
        number_in(self.bytes())
    }
}

// The message number in the bytes of a frame.
#[tactic(auto, unfolding(crate::specs::Transport::number_of))]
fn number_in(frame: &[u8]) -> Option<u16>
    requires { 6 ≤ length frame.now }
    ensures value { result ≡ number_of frame.now }
    ensures bound { IfSome result (λ n. n < 4096) }
{
    let payload = &frame[3..frame.len() - 3];
    if payload.len() < 2 {
        return None;
    }
    Some(u16::from(payload[0]) * 16 + u16::from(payload[1]) / 16)
}

// The whole length that these bytes claim; a byte of the header that has not come counts as 0.
pub(crate) fn claimed_length(bytes: &[u8]) -> usize
    ensures { result ≡ frame_length bytes.now }
{
    let high = if bytes.len() > 1 {
        usize::from(bytes[1])
    } else {
        0
    };
    let low = if bytes.len() > 2 {
        usize::from(bytes[2])
    } else {
        0
    };
    (high * 256 + low) % 1024 + MIN_FRAME_BYTES
}

// These bytes are one whole valid frame.
#[tactic(auto, using(crate::proofs::FrameLemmas::shorter_is_none))]
pub(crate) fn is_whole(bytes: &[u8]) -> bool
    ensures { result ≡ is_frame bytes.now }
{
    let n = bytes.len();
    if n < MIN_FRAME_BYTES {
        return false;
    }
    is_whole_by(bytes, crc24q(&bytes[..n - 3]))
}

// These bytes are one whole valid frame, by the checksum of all but their last three.
#[tactic(auto, unfolding(crate::specs::Transport::is_frame))]
pub(crate) fn is_whole_by(bytes: &[u8], crc: u32) -> bool
    requires least { 6 ≤ length bytes.now }
    requires crc { crc ≡ crc24q_of (take (length bytes.now - 3) bytes.now) }
    ensures { result ≡ is_frame bytes.now }
{
    let n = bytes.len();
    if bytes[0] != PREAMBLE || n != claimed_length(bytes) {
        return false;
    }
    crc == big_endian(bytes[n - 3], bytes[n - 2], bytes[n - 1])
}

// The number that three bytes hold, most significant first.
fn big_endian(high: u8, middle: u8, low: u8) -> u32
    ensures { result ≡ high * 65536 + middle * 256 + low }
{
    u32::from(high) * 65536 + u32::from(middle) * 256 + u32::from(low)
}

// Writes zeros from a place of a buffer up to another.
fn clear(all: &mut [u8], from: usize, to: usize)
    requires { (from ≤ to) × (to ≤ length all.old) }
    ensures { all.new ≡ take from all.old ++ (replicate (to - from) 0 ++ drop to all.old) }
{
    all[from..to].fill(0);
}

// Writes these bytes over the front of a buffer.
fn put_front(all: &mut [u8], bytes: &[u8])
    requires { length bytes.now ≤ length all.old }
    ensures { all.new ≡ bytes.now ++ drop (length bytes.now) all.old }
{
    all[..bytes.len()].copy_from_slice(bytes);
}
