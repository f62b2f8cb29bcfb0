//! Frames, and streams that are cut into frames.
ghost use Rattle.std.specs.Prelude.{◌<◌, ◌≤◌, length};

use crate::printing::{put, say, say_digits, say_frames};
use rtcm_frame::{Cutter, Frame, crc24q};
use std::alloc::{AllocError, Global};

/// The bytes of these hex digits, or none where they are no hex digits.
fn bytes_of(alloc: Global, digits: &str) -> Vec<u8> {
    match hex::decode(alloc, digits) {
        Ok(bytes) => bytes,
        Err(_) => Vec::new(alloc),
    }
}

/// The checksum of these bytes, in hex digits.
pub fn checksum(digits: &str, out: &mut Vec<u8>) -> Result<(), AllocError> {
    let crc = crc24q(&bytes_of(*out.allocator(), digits));
    say_digits(out, &crc.to_be_bytes())
}

/// The number and the bytes of the frame that these bytes are.
pub fn frame(digits: &str, out: &mut Vec<u8>) -> Result<(), AllocError> {
    match Frame::of(&bytes_of(*out.allocator(), digits)) {
        Some(frame) => {
            say(out, &frame.number())?;
            say_digits(out, frame.bytes())
        }
        None => put(out, "no frame"),
    }
}

/// The frame that there is by default.
pub fn shortest(out: &mut Vec<u8>) -> Result<(), AllocError> {
    say_digits(out, Frame::default().bytes())
}

/// Pushes these bytes one at a time, keeps the frames, and gives the count of junk.
fn cut_by_bytes(alloc: Global, bytes: &[u8]) -> Result<(Vec<Frame>, u64), AllocError> {
    let mut cutter = Cutter::new();
    let mut frames = Vec::new(alloc);
    for byte in bytes {
        cutter.push(*byte);
        while let Some(frame) = cutter.next() {
            frames.push(frame)?;
        }
    }
    Ok((frames, cutter.junk()))
}

/// Feeds these bytes, all at once where there is room, and gives the same.
fn cut_by_blocks(alloc: Global, bytes: &[u8]) -> Result<(Vec<Frame>, u64), AllocError>
    requires { length bytes.now ≤ 1000 }
{
    let mut cutter = Cutter::new();
    let mut frames = Vec::new(alloc);
    let mut at = 0;
    while at < bytes.len() {
        at += cutter.feed(&bytes[at..]);
        while let Some(frame) = cutter.next() {
            frames.push(frame)?;
        }
    }
    Ok((frames, cutter.junk()))
}

/// The frames of a stream that comes byte by byte, and the count of junk.
pub fn bytewise(digits: &str, out: &mut Vec<u8>) -> Result<(), AllocError> {
    let bytes = bytes_of(*out.allocator(), digits);
    let (frames, junk) = cut_by_bytes(*out.allocator(), &bytes)?;
    say_frames(out, &frames)?;
    say(out, &junk)
}

/// The same of a stream of at most 1,000 bytes that comes at once.
pub fn blockwise(digits: &str, out: &mut Vec<u8>) -> Result<(), AllocError> {
    let bytes = bytes_of(*out.allocator(), digits);
    if bytes.len() > 1000 {
        return put(out, "too long");
    }
    let (frames, junk) = cut_by_blocks(*out.allocator(), &bytes)?;
    say_frames(out, &frames)?;
    say(out, &junk)
}

/// What the next call of a cutter gives, and the count of junk behind it.
fn say_next(out: &mut Vec<u8>, frame: Option<Frame>, junk: u64) -> Result<(), AllocError> {
    match frame {
        Some(frame) => say_digits(out, frame.bytes())?,
        None => put(out, "none ")?,
    }
    say(out, &junk)
}

/// How many bytes of a stream of at most 1,000 are taken at once, and what three calls of `next`
/// give.
pub fn stepwise(digits: &str, out: &mut Vec<u8>) -> Result<(), AllocError> {
    let bytes = bytes_of(*out.allocator(), digits);
    if bytes.len() > 1000 {
        return put(out, "too long");
    }
    let mut cutter = Cutter::new();
    say(out, &cutter.feed(&bytes))?;
    let first = cutter.next();
    say_next(out, first, cutter.junk())?;
    let second = cutter.next();
    say_next(out, second, cutter.junk())?;
    let third = cutter.next();
    say_next(out, third, cutter.junk())
}
