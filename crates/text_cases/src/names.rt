//! Names, texts and lines.

use crate::printing::{put, say, say_kept, show};
use crate::rows::count_at;
use cast_text::{GroupName, Lines, MountName, Text, UserName, is_name};
use std::alloc::AllocError;

/// A mountpoint's name of this text.
pub fn mountpoint(text: &[u8], out: &mut Vec<u8>) -> Result<(), AllocError> {
    let alloc = *out.allocator();
    match MountName::new(alloc, text) {
        Ok(name) => say_kept(out, text, name.bytes(), name.copy(alloc)?.bytes()),
        Err(fault) => say(out, &fault),
    }
}

/// A user's name of this text.
pub fn user(text: &[u8], out: &mut Vec<u8>) -> Result<(), AllocError> {
    let alloc = *out.allocator();
    match UserName::new(alloc, text) {
        Ok(name) => say_kept(out, text, name.bytes(), name.copy(alloc)?.bytes()),
        Err(fault) => say(out, &fault),
    }
}

/// A group's name of this text.
pub fn group(text: &[u8], out: &mut Vec<u8>) -> Result<(), AllocError> {
    let alloc = *out.allocator();
    match GroupName::new(alloc, text) {
        Ok(name) => say_kept(out, text, name.bytes(), name.copy(alloc)?.bytes()),
        Err(fault) => say(out, &fault),
    }
}

/// Whether the text is a name.
pub fn is_name_of(text: &[u8], out: &mut Vec<u8>) -> Result<(), AllocError> {
    say(out, &is_name(text))
}

/// A text that is made of these bytes.
pub fn text(bytes: &[u8], out: &mut Vec<u8>) -> Result<(), AllocError> {
    let alloc = *out.allocator();
    match Text::new(alloc, bytes) {
        Ok(text) => say_kept(out, bytes, text.bytes(), text.copy(alloc)?.bytes()),
        Err(fault) => say(out, &fault),
    }
}

/// The lines within the limit, of 1 to 8192, each with a comma behind it.
pub fn lines(words: &str, text: &[u8], out: &mut Vec<u8>) -> Result<(), AllocError> {
    let limit = count_at(words, 0).max(1).min(8192) as u32;
    let mut lines = Lines::new(*out.allocator(), limit)?;
    for byte in text {
        if lines.push(*byte) {
            show(out, lines.line())?;
            put(out, ",")?;
        }
    }
    Ok(())
}
