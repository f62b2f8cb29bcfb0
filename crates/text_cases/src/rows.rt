//! How rows and their texts are read.
use cast_text::push_decimal;
use std::alloc::{AllocError, Global};

/// A row: its call, the words behind the colon, and its text.
#[derive(Drop)]
pub struct Row<'a> {
    pub call: &'a str,
    pub words: &'a str,
    pub text: &'a str,
}

/// The parts of a row.
pub fn parts(row: &str) -> Row<'_> {
    let (front, text) = row.split_once(' ').unwrap_or((row, ""));
    let (call, words) = front.split_once(':').unwrap_or((front, ""));
    Row { call, words, text }
}

/// The number at this place among these words, which commas part.
pub fn number_at(words: &str, place: usize) -> Option<i64> {
    words.split(',').nth(place)?.parse::<i64>().ok()
}

/// The number at this place among these words, and 0 where it is below 0 or is none.
pub fn count_at(words: &str, place: usize) -> u64 {
    match number_at(words, place) {
        Some(number) => number.max(0).unsigned_abs(),
        None => 0,
    }
}

/// Appends what a byte of a text stands for, in the copy of this number.
fn push_byte(out: &mut Vec<u8>, byte: u8, copy: Option<u32>) -> Result<(), AllocError> {
    match (byte, copy) {
        (b'|', _) => out.extend_from_slice(b"\r\n"),
        (b'^', _) => out.extend_from_slice(b"\n"),
        (b'@', Some(number)) => push_decimal(out, u128::from(number)),
        (other, _) => out.extend_from_slice(&[other]),
    }
}

/// Appends what a text without braces stands for, as the copy of this number.
fn push_plain(out: &mut Vec<u8>, text: &str, copy: Option<u32>) -> Result<(), AllocError> {
    for byte in text.bytes() {
        push_byte(out, byte, copy)?;
    }
    Ok(())
}

/// Appends the bytes of these hex digits, or none where they are no hex digits.
fn push_digits(out: &mut Vec<u8>, digits: &str) -> Result<(), AllocError> {
    match hex::decode(*out.allocator(), digits) {
        Ok(bytes) => out.extend_from_slice(&bytes),
        Err(_) => Ok(()),
    }
}

/// Appends so many copies of a text.
fn push_copies(out: &mut Vec<u8>, count: u32, text: &str) -> Result<(), AllocError> {
    for number in 0..count {
        push_plain(out, text, Some(number.saturating_add(1)))?;
    }
    Ok(())
}

/// Appends so many copies of a byte.
fn push_many(out: &mut Vec<u8>, count: u32, byte: u8) -> Result<(), AllocError> {
    let copies = vec![in *out.allocator(); byte; count as usize]?;
    out.extend_from_slice(&copies)
}

/// Appends what stands for the text between two braces. Copies of a single byte are made at once.
fn push_group(out: &mut Vec<u8>, group: &str) -> Result<(), AllocError> {
    let (count, text) = group.split_once(' ').unwrap_or(("", ""));
    let count = count.parse::<u32>().unwrap_or(0);
    match text.as_bytes() {
        [] => push_digits(out, group.strip_prefix(':').unwrap_or("")),
        [b'^'] => push_many(out, count, b'\n'),
        [b'|' | b'@'] => push_copies(out, count, text),
        [byte] => push_many(out, count, *byte),
        _ => push_copies(out, count, text),
    }
}

/// Appends a piece of a text that begins with a group, or has none.
fn push_piece(out: &mut Vec<u8>, piece: &str) -> Result<(), AllocError> {
    match piece.split_once('}') {
        Some((group, behind)) => {
            push_group(out, group)?;
            push_plain(out, behind, None)
        }
        None => push_plain(out, piece, None),
    }
}

/// The bytes that a text stands for.
pub fn bytes_of(alloc: Global, text: &str) -> Result<Vec<u8>, AllocError> {
    let mut out = Vec::new(alloc);
    for piece in text.split('{') {
        push_piece(&mut out, piece)?;
    }
    Ok(out)
}
