//! How answers are printed.
use rtcm_frame::Frame;
use std::alloc::AllocError;
use std::fmt::Debug;

/// Appends these words.
pub fn put(out: &mut Vec<u8>, words: &str) -> Result<(), AllocError> {
    out.extend_from_slice(words.as_bytes())
}

/// Appends a value as `{:?}` prints it, and a space.
pub fn say<T: Debug>(out: &mut Vec<u8>, value: &T) -> Result<(), AllocError> {
    let text = format!(in *out.allocator(); "{value:?} ")?;
    put(out, &text)
}

/// Appends these bytes in hex digits, and a space.
pub fn say_digits(out: &mut Vec<u8>, bytes: &[u8]) -> Result<(), AllocError> {
    let digits = hex::encode(*out.allocator(), bytes)?;
    put(out, &digits)?;
    put(out, " ")
}

/// Appends the bytes of each of these frames.
pub fn say_frames(out: &mut Vec<u8>, frames: &[Frame]) -> Result<(), AllocError> {
    for frame in frames {
        say_digits(out, frame.bytes())?;
    }
    Ok(())
}
