//! How answers are printed.
use std::alloc::AllocError;
use std::fmt::Debug;

/// Appends these words.
pub fn put(out: &mut Vec<u8>, words: &str) -> Result<(), AllocError> {
    out.extend_from_slice(words.as_bytes())
}

/// Appends a value as `{:?}` prints it.
pub fn say<T: Debug>(out: &mut Vec<u8>, value: &T) -> Result<(), AllocError> {
    let text = format!(in *out.allocator(); "{value:?}")?;
    out.extend_from_slice(text.as_bytes())
}

/// Whether the byte is one of a text that is printed as it is.
fn is_plain(byte: u8) -> bool {
    matches!(byte, b'\r' | b'\n' | b' '..=b'~')
}

/// Appends a byte of a text behind CR, which was not printed yet, or behind another byte.
fn show_byte(out: &mut Vec<u8>, byte: u8, returned: bool) -> Result<(), AllocError> {
    match (returned, byte) {
        (true, b'\n') => put(out, "|"),
        (false, b'\n') => put(out, "^"),
        (true, b'\r') => put(out, "{:0d}"),
        (false, b'\r') => Ok(()),
        (true, other) => {
            put(out, "{:0d}")?;
            out.extend_from_slice(&[other])
        }
        (false, other) => out.extend_from_slice(&[other]),
    }
}

/// Appends a text of bytes that are printed as they are.
fn show_plain(out: &mut Vec<u8>, bytes: &[u8]) -> Result<(), AllocError> {
    let mut returned = false;
    for byte in bytes {
        show_byte(out, *byte, returned)?;
        returned = *byte == b'\r';
    }
    if returned { put(out, "{:0d}") } else { Ok(()) }
}

/// Appends these bytes in hex digits.
pub fn show_digits(out: &mut Vec<u8>, bytes: &[u8]) -> Result<(), AllocError> {
    let digits = hex::encode(*out.allocator(), bytes)?;
    put(out, &digits)
}

/// Appends these bytes as a text, or in hex digits.
pub fn show(out: &mut Vec<u8>, bytes: &[u8]) -> Result<(), AllocError> {
    if bytes.iter().all(|byte| is_plain(*byte)) {
        return show_plain(out, bytes);
    }
    put(out, "{:")?;
    show_digits(out, bytes)?;
    put(out, "}")
}

/// Appends these bytes in brackets.
pub fn show_in_brackets(out: &mut Vec<u8>, bytes: &[u8]) -> Result<(), AllocError> {
    put(out, "[")?;
    show(out, bytes)?;
    put(out, "]")
}

/// Appends whether a value and its copy have just the bytes that it was made of.
pub fn say_kept(
    out: &mut Vec<u8>,
    given: &[u8],
    own: &[u8],
    copy: &[u8],
) -> Result<(), AllocError> {
    if own == given && copy == given {
        put(out, "kept")
    } else {
        put(out, "changed")
    }
}
