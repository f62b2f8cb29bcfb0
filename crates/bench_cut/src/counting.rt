//! Counting the frames of a stream that comes in pieces.
ghost use Rattle.std.specs.Prelude.{◌+◌, ◌^◌, ◌<◌, ◌≤◌, ◌++◌, List, [], ◌∷◌, ℕ, length, ◌≡◌, IfOk, IfSome};
ghost use Rattle.rtcm_frame.specs.Cut.{IsWaiting, cut};
ghost use Rattle.bench_cut.specs.Counted.{GaveSoMany, size};

use crate::taking::Taker;
use rtcm_frame::Cutter;
use std::io::{self, Error, Read};

// The greatest length of a stream: its counts fit.
const MAX_STREAM_BYTES: u64 = 1 << 62;

/// How many frames of a stream were given, and how many of its bytes were junk.
#[derive(Drop)]
pub struct Counts {
    pub frames: u64,
    pub junk: u64,
}

/// How a cutter is given its bytes.
#[derive(Clone, Copy, Debug, PartialEq, Eq)]
pub enum Way {
    /// One at a time.
    Push,
    /// In blocks.
    Feed,
}

/// Reads a stream to its end, a piece at a time, hands its frames over, and counts the frames and
/// the junk of its cut. The errors are the reader's, and one where the stream has more than 2^62
/// bytes.
pub fn count_stream<R: Read, T: Taker>(
    input: &mut R,
    piece: &mut [u8],
    way: Way,
    taker: &mut T,
) -> io::Result<Counts>
    requires { 0 < length piece.old }
    ensures { IfOk result (λ counts. IfSome (R.remaining input.old) (λ all.
        (counts.frames ≡ length (cut all).frames) × (counts.junk ≡ (cut all).junk))) }
{
    let mut cutter = Cutter::new();
    let mut frames: u64 = 0;
    let mut length: u64 = 0;
    loop {
        let count = input.read(piece)?;
        if count == 0 {
            return Ok(Counts {
                frames,
                junk: cutter.junk(),
            });
        }
        if count as u64 > MAX_STREAM_BYTES - length {
            return Err(Error::other("the stream is too long"));
        }
        frames = count_piece(&mut cutter, &piece[..count], frames, way, taker);
        length += count as u64;
    }
}

// Gives the cutter a piece of a stream, and answers how many frames were given since the stream's
// begin, where this many were given before.
fn count_piece<T: Taker>(
    cutter: &mut Cutter,
    piece: &[u8],
    before: u64,
    way: Way,
    taker: &mut T,
) -> u64
    requires waits { IsWaiting cutter.old.bytes }
    requires room { size cutter.old before + length piece.now < 2 ^ 63 }
    ensures waits { IsWaiting cutter.new.bytes }
    ensures room { size cutter.new result ≤ size cutter.old before + length piece.now }
    ensures gave { (all : List ℕ) → GaveSoMany all before cutter.old
        → GaveSoMany (all ++ piece.now) result cutter.new }
{
    match way {
        Way::Push => count_pushed(cutter, piece, before, taker),
        Way::Feed => count_fed(cutter, piece, before, taker),
    }
}

// The same in blocks.
fn count_fed<T: Taker>(cutter: &mut Cutter, piece: &[u8], before: u64, taker: &mut T) -> u64
    requires waits { IsWaiting cutter.old.bytes }
    requires room { size cutter.old before + length piece.now < 2 ^ 63 }
    ensures waits { IsWaiting cutter.new.bytes }
    ensures room { size cutter.new result ≤ size cutter.old before + length piece.now }
    ensures gave { (all : List ℕ) → GaveSoMany all before cutter.old
        → GaveSoMany (all ++ piece.now) result cutter.new }
{
    let mut frames = before;
    let mut at = 0;
    while at < piece.len() {
        let count = cutter.feed(&piece[at..]);
        frames = take_ready(cutter, frames, taker);
        at += count;
    }
    frames
}

// The same one byte at a time.
fn count_pushed<T: Taker>(cutter: &mut Cutter, piece: &[u8], before: u64, taker: &mut T) -> u64
    requires waits { IsWaiting cutter.old.bytes }
    requires room { size cutter.old before + length piece.now < 2 ^ 63 }
    ensures waits { IsWaiting cutter.new.bytes }
    ensures room { size cutter.new result ≤ size cutter.old before + length piece.now }
    ensures gave { (all : List ℕ) → GaveSoMany all before cutter.old
        → GaveSoMany (all ++ piece.now) result cutter.new }
{
    let mut frames = before;
    for byte in piece {
        frames = count_byte(cutter, *byte, frames, taker);
    }
    frames
}

// Pushes one byte, and hands over all frames that are there then.
fn count_byte<T: Taker>(cutter: &mut Cutter, byte: u8, before: u64, taker: &mut T) -> u64
    requires waits { IsWaiting cutter.old.bytes }
    requires room { size cutter.old before + 1 < 2 ^ 63 }
    ensures waits { IsWaiting cutter.new.bytes }
    ensures room { size cutter.new result ≤ size cutter.old before + 1 }
    ensures gave { (all : List ℕ) → GaveSoMany all before cutter.old
        → GaveSoMany (all ++ byte ∷ []) result cutter.new }
{
    cutter.push(byte);
    take_ready(cutter, before, taker)
}

// Hands over all frames that the cutter holds, and counts them.
fn take_ready<T: Taker>(cutter: &mut Cutter, before: u64, taker: &mut T) -> u64
    requires { size cutter.old before < 2 ^ 63 }
    ensures waits { IsWaiting cutter.new.bytes }
    ensures room { size cutter.new result ≤ size cutter.old before }
    ensures gave { (all : List ℕ) → GaveSoMany all before cutter.old
        → GaveSoMany all result cutter.new }
{
    let mut frames = before;
    while let Some(frame) = cutter.next() {
        taker.take(&frame);
        frames += 1;
    }
    frames
}
