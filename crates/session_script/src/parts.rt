//! The parts of a line.

ghost use Rattle.std.specs.Prelude.{◌≡◌, ◌==◌, ◌∷◌};
ghost use Rattle.std.specs.List.{slice_split};
ghost use Rattle.std.specs.Option.{option_map};
ghost use Rattle.session_script.specs.Parts.{parts_after};

use cast_text::split_first;

/// The part before the first space, and what comes after that space, if there is one.
pub fn split_part(text: &[u8]) -> (&[u8], Option<&[u8]>)
    ensures { slice_split (λ b. b == 32) text.now
        ≡ result.0.now ∷ parts_after (option_map (λ rest. rest.now) result.1) }
{
    match split_first(b' ', text) {
        None => (text, None),
        Some((part, rest)) => (part, Some(rest)),
    }
}
