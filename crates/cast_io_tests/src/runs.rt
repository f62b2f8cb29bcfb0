//! Calls of links, sources and sinks, as words, and what they answer, as words. A number is a read
//! of so many bytes, at most eight; any other word is a write of it.

use cast_io::{Failed, Got, Link, Sink, Source};
use std::alloc::{AllocError, Global};

// Appends a word, with a space behind it.
pub(crate) fn say(out: &mut Vec<u8>, word: &[u8]) -> Result<(), AllocError> {
    out.extend_from_slice(word)?;
    out.push(b' ')?;
    Ok(())
}

// Appends what a read put into the buffer, which was empty before: all of it up to the first zero.
// Where that is not as many bytes as the read said, the word is `wrong`.
fn say_read(out: &mut Vec<u8>, buf: &[u8], count: usize) -> Result<(), AllocError> {
    let put = buf.iter().position(|byte| *byte == 0).unwrap_or(buf.len());
    if put != count {
        return say(out, b"wrong");
    }
    match buf.get(..count) {
        Some(bytes) => say(out, bytes),
        None => say(out, b"wrong"),
    }
}

// Reads so many bytes of a link.
pub(crate) fn read_link<L: Link>(
    link: &mut L,
    size: usize,
    out: &mut Vec<u8>,
) -> Result<(), AllocError> {
    let mut buf = [0u8; 9];
    match link.read(&mut buf[..size.max(1).min(8)]) {
        Got::Bytes(count) => say_read(out, &buf, count),
        Got::Idle => say(out, b"idle"),
        Got::End => say(out, b"end"),
        Got::Failed => say(out, b"failed"),
    }
}

// Reads so many bytes of a source.
pub(crate) fn read_source<S: Source>(
    source: &mut S,
    size: usize,
    out: &mut Vec<u8>,
) -> Result<(), AllocError> {
    let mut buf = [0u8; 9];
    match source.read(&mut buf[..size.max(1).min(8)]) {
        Ok(count) => say_read(out, &buf, count),
        Err(Failed) => say(out, b"failed"),
    }
}

// Whether a write was taken.
pub(crate) fn say_taken(out: &mut Vec<u8>, answer: Result<(), Failed>) -> Result<(), AllocError> {
    match answer {
        Ok(()) => say(out, b"ok"),
        Err(Failed) => say(out, b"failed"),
    }
}

// What these calls of a link answer.
pub(crate) fn run_link<L: Link>(
    alloc: Global,
    link: &mut L,
    calls: &str,
) -> Result<Vec<u8>, AllocError> {
    let mut out = Vec::new(alloc);
    for call in calls.split(' ') {
        match call.parse::<usize>() {
            Ok(size) => read_link(link, size, &mut out)?,
            Err(_) => say_taken(&mut out, link.write(call.as_bytes()))?,
        }
    }
    Ok(out)
}

// What these reads of a source answer.
pub(crate) fn run_source<S: Source>(
    alloc: Global,
    source: &mut S,
    sizes: &[usize],
) -> Result<Vec<u8>, AllocError> {
    let mut out = Vec::new(alloc);
    for size in sizes {
        read_source(source, *size, &mut out)?;
    }
    Ok(out)
}

// What these writes to a sink answer.
pub(crate) fn run_sink<S: Sink>(
    alloc: Global,
    sink: &mut S,
    pieces: &str,
) -> Result<Vec<u8>, AllocError> {
    let mut out = Vec::new(alloc);
    for piece in pieces.split(' ') {
        say_taken(&mut out, sink.write(piece.as_bytes()))?;
    }
    Ok(out)
}
