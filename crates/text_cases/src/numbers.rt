//! Numbers as texts.
use cast_text::{push_decimal, push_hex};
use std::alloc::AllocError;

/// These numbers in decimal digits, one behind another.
pub fn decimal(words: &str, out: &mut Vec<u8>) -> Result<(), AllocError> {
    for word in words.split(',') {
        push_decimal(out, word.parse::<u128>().unwrap_or(0))?;
    }
    Ok(())
}

/// These numbers, which are given in decimal digits, in hex digits, one behind another.
pub fn hex(words: &str, out: &mut Vec<u8>) -> Result<(), AllocError> {
    for word in words.split(',') {
        push_hex(out, word.parse::<u64>().unwrap_or(0))?;
    }
    Ok(())
}
