//! Bodies in chunks.
ghost use Rattle.std.specs.Prelude.{◌+◌, ◌<◌, ◌≤◌, ◌^◌, length};

use crate::printing::{put, say, show};
use chunk_body::{Dechunk, Step, chunk};
use rtcm_frame::Frame;
use std::alloc::AllocError;

/// Pushes these bytes, keeps the data that they give, and answers what the last of them was.
fn give(reader: &mut Dechunk, bytes: &[u8], data: &mut Vec<u8>) -> Result<Step, AllocError>
    requires { reader.old.taken + length bytes.now < 2 ^ 63 }
    ensures { reader.new.taken ≤ reader.old.taken + length bytes.now }
{
    let mut last = Step::More;
    for byte in bytes {
        last = reader.push(*byte);
        if let Step::Byte(given) = last {
            data.push(given)?;
        }
    }
    Ok(last)
}

/// The answer to the last byte of a text.
pub fn last(text: &[u8], out: &mut Vec<u8>) -> Result<(), AllocError> {
    let mut data = Vec::new(*out.allocator());
    let last = give(&mut Dechunk::new(), text, &mut data)?;
    say(out, &last)
}

/// The data that a text gives, and the answer to its last byte.
pub fn data(text: &[u8], out: &mut Vec<u8>) -> Result<(), AllocError> {
    let mut data = Vec::new(*out.allocator());
    let last = give(&mut Dechunk::new(), text, &mut data)?;
    show(out, &data)?;
    put(out, " ")?;
    say(out, &last)
}

/// Appends the data of a text that is cut at this place.
fn give_in_two(text: &[u8], at: usize, data: &mut Vec<u8>) -> Result<(), AllocError> {
    let (front, behind) = text.split_at(at.min(text.len()));
    let mut reader = Dechunk::new();
    give(&mut reader, front, data)?;
    give(&mut reader, behind, data)?;
    Ok(())
}

/// The data that a text gives that is cut at each place in turn.
pub fn cuts(text: &[u8], out: &mut Vec<u8>) -> Result<(), AllocError> {
    for at in 0..text.len() + 1 {
        let mut data = Vec::new(*out.allocator());
        give_in_two(text, at, &mut data)?;
        show(out, &data)?;
    }
    Ok(())
}

/// The answer to each byte of a text.
pub fn steps(text: &[u8], out: &mut Vec<u8>) -> Result<(), AllocError> {
    let mut reader = Dechunk::new();
    for byte in text {
        say(out, &reader.push(*byte))?;
        put(out, ", ")?;
    }
    put(out, "end")
}

/// This frame as a chunk, behind what stands there.
pub fn frame(text: &[u8], out: &mut Vec<u8>) -> Result<(), AllocError> {
    let mut written = Vec::from_slice(*out.allocator(), b"head")?;
    if let Some(frame) = Frame::of(text) {
        chunk(&frame, &mut written)?;
    }
    show(out, &written)
}
