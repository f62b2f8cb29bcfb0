//! Texts cut in two.

ghost use Rattle.std.specs.Prelude.{◌≡◌, ◌≤◌, length};
ghost use Rattle.ntrip_head.specs.Cut.{cut_by};

use cast_text::place_of;

/// The text before the first of these bytes, and the text after it.
pub fn cut_by(byte: u8, text: &[u8]) -> (&[u8], &[u8])
    ensures before { result.0.now ≡ (cut_by byte text.now).0 }
    ensures after { result.1.now ≡ (cut_by byte text.now).1 }
    ensures within { length result.0.now ≤ length text.now }
{
    match place_of(byte, text) {
        None => (text, &[]),
        Some(place) => (&text[..place], &text[place + 1..]),
    }
}
