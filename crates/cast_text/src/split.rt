//! A text split at a byte, and a text split off its first line.

ghost use Rattle.std.specs.Prelude.{◌≡◌, ◌==◌, ◌<◌, ◌∷◌, ◌++◌, [], length, position, IfSome, IfNone};
ghost use Rattle.std.specs.Str.Lines.{lines, strip_carriage_return};
ghost use Rattle.cast_text.specs.Split.{HasNone};

/// The first place of this byte.
pub fn place_of(byte: u8, text: &[u8]) -> Option<usize>
    ensures { result ≡ position (λ b. b == byte) text.now }
{
    text.iter().position(|b| *b == byte)
}

/// The text up to the first such byte, and what comes after that byte, if there is one.
pub fn split_first(byte: u8, text: &[u8]) -> Option<(&[u8], &[u8])>
    ensures found { IfSome result (λ found. text.now ≡ found.0.now ++ byte ∷ found.1.now) }
    ensures free { IfSome result (λ found. HasNone (λ b. b == byte) found.0.now) }
    ensures none { IfNone result (HasNone (λ b. b == byte) text.now) }
{
    let place = place_of(byte, text)?;
    Some((&text[..place], &text[place + 1..]))
}

/// The first line and the bytes after it, if there are any bytes. A line ends with LF or with the
/// text, and a CR before the LF is dropped.
pub fn split_line(bytes: &[u8]) -> Option<(&[u8], &[u8])>
    ensures found { IfSome result (λ found. lines bytes.now ≡ found.0.now ∷ lines found.1.now) }
    ensures shorter { IfSome result (λ found. length found.1.now < length bytes.now) }
    ensures none { IfNone result (bytes.now ≡ []) }
{
    if bytes.is_empty() {
        return None;
    }
    match split_first(b'\n', bytes) {
        None => Some((bytes, &bytes[bytes.len()..])),
        Some((line, rest)) => Some((without_carriage_return(line), rest)),
    }
}

/// The line without one CR at its end.
fn without_carriage_return(line: &[u8]) -> &[u8]
    ensures { result.now ≡ strip_carriage_return line.now }
{
    match line {
        [front @ .., b'\r'] => front,
        _ => line,
    }
}
