//! The words that ask for a caster that keeps serving.
ghost use Rattle.std.specs.Prelude.{◌≡◌, IfNone, IfSome, option_map};
ghost use Rattle.caster_top.specs.Command.{AreKeep, KeepNothing, keep_form, keep_of, keep_of_four, texts, up_to};

use crate::command::{are_paths, number_within};

// The most seconds of silence, a day.
const MAX_QUIET: u32 = 86_400;

/// A caster that keeps serving, over the configuration in a file.
#[derive(Clone, Copy)]
pub struct Keep<'a> {
    /// The configuration's path.
    pub config: &'a str,
    /// The address that it listens at.
    pub addr: &'a str,
    /// How many seconds a link may be silent, or 0 for any time.
    pub quiet: u32,
}

/// The caster that keeps serving that the words ask for, and None where they ask for none.
pub fn keep_in(words: &[String]) -> Option<Keep<'_>>
    ensures keep { IfSome result (λ keep.
        AreKeep (texts words.now) keep.config.now keep.addr.now keep.quiet) }
    ensures none { IfNone result (KeepNothing (texts words.now)) }
{
    keep_of(words)
}

// Parses the words of a caster that keeps serving.
fn keep_of(words: &[String]) -> Option<Keep<'_>>
    ensures { option_map keep_form result ≡ keep_of (texts words.now) }
{
    match words {
        [name, config, addr, quiet] => keep_named(
            name.as_str(),
            config.as_str(),
            addr.as_str(),
            quiet.as_str(),
        ),
        [] | [_] | [_, _] | [_, _, _] => None,
        [_, _, _, _, _, ..] => None,
    }
}

// The `keep` that these words ask for, where the first is its name and the paths can be paths.
fn keep_named<'a>(name: &str, config: &'a str, addr: &'a str, quiet: &str) -> Option<Keep<'a>>
    ensures { option_map keep_form result ≡ keep_of_four name.now config.now addr.now quiet.now }
{
    if !(name == "keep" && are_paths(config, addr)) {
        return None;
    }
    match quiet_of(quiet) {
        Some(quiet) => Some(Keep {
            config,
            addr,
            quiet,
        }),
        None => None,
    }
}

// The seconds of silence that the word is.
fn quiet_of(word: &str) -> Option<u32>
    ensures { result ≡ up_to 86400 word.now }
{
    if word == "0" {
        Some(0)
    } else {
        number_within(MAX_QUIET, word)
    }
}
