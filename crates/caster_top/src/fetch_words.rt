//! The words that ask for a fetch.
ghost use Rattle.std.specs.Prelude.{◌≡◌, IfSome, IfNone, IsTrue, option_map};
ghost use Rattle.std.specs.List.{list_all};
ghost use Rattle.caster_top.specs.Command.{AreFetch, FetchNothing, are_few_targets, are_targets, fetch_form, fetching_form, form_of_more, is_address, is_line_byte, is_password, is_password_byte, is_target, targets_of, texts};

use crate::command::number_within;
use cast_text::is_name;

// The most frames that are fetched.
const MAX_FRAMES: u32 = 1_000_000;

// The most words of targets, of which each has five.
const MAX_TARGET_WORDS: usize = 40;

// The most bytes of a caster's address that is dialled.
const MAX_ADDRESS_BYTES: usize = 100;

// The most bytes of a password.
const MAX_PASSWORD_BYTES: usize = 100;

/// A fetch of frames from other casters. It is not shown: its words have passwords among them.
#[derive(Clone, Copy)]
pub struct Fetch<'a> {
    /// How many frames.
    pub frames: u32,
    /// The five words of each target.
    pub targets: &'a [String],
}

/// The fetch that the words ask for, and None where they ask for none.
pub fn fetch_in(words: &[String]) -> Option<Fetch<'_>>
    ensures fetch { IfSome result (λ fetch.
        AreFetch (texts words.now) fetch.frames (targets_of (texts fetch.targets.now))) }
    ensures targets { IfSome result (λ fetch. IsTrue (are_few_targets (texts fetch.targets.now))) }
    ensures none { IfNone result (FetchNothing (texts words.now)) }
{
    match words {
        [name, frames, targets @ ..] => fetch_named(name.as_str(), frames.as_str(), targets),
        [] | [_] => None,
    }
}

// The fetch that these words ask for, where the first is its name.
fn fetch_named<'a>(name: &str, frames: &str, targets: &'a [String]) -> Option<Fetch<'a>>
    ensures form { option_map fetch_form result
        ≡ form_of_more name.now frames.now (texts targets.now) }
    ensures targets { IfSome result (λ fetch. IsTrue (are_few_targets (texts fetch.targets.now))) }
{
    if name == "fetch" {
        fetch_of(frames, targets)
    } else {
        None
    }
}

// The fetch of `frames` frames from the targets that these words name.
fn fetch_of<'a>(frames: &str, targets: &'a [String]) -> Option<Fetch<'a>>
    ensures form { option_map fetch_form result ≡ fetching_form frames.now (texts targets.now) }
    ensures targets { IfSome result (λ fetch. IsTrue (are_few_targets (texts fetch.targets.now))) }
{
    if !are_few_targets(targets) {
        return None;
    }
    match number_within(MAX_FRAMES, frames) {
        Some(frames) => Some(Fetch { frames, targets }),
        None => None,
    }
}

// The words are 1 to 8 targets.
fn are_few_targets(words: &[String]) -> bool
    ensures { result ≡ are_few_targets (texts words.now) }
{
    1 <= words.len() && words.len() <= MAX_TARGET_WORDS && are_targets(words)
}

// Each five of the words are a target, and none is left over.
fn are_targets(words: &[String]) -> bool
    ensures { result ≡ are_targets (texts words.now) }
{
    match words {
        [] => true,
        [protocol, address, mount, user, password, more @ ..] => {
            is_target(
                protocol.as_str(),
                address.as_str(),
                mount.as_str(),
                user.as_str(),
                password.as_str(),
            ) && are_targets(more)
        }
        [_, ..] => false,
    }
}

// The five words are a target.
fn is_target(protocol: &str, address: &str, mount: &str, user: &str, password: &str) -> bool
    ensures { result
        ≡ is_target protocol.now address.now mount.now user.now password.now }
{
    (protocol == "1" || protocol == "2")
        && is_address(address.as_bytes())
        && is_name(mount.as_bytes())
        && is_name(user.as_bytes())
        && is_password(password.as_bytes())
}

// The byte is no end of a line.
fn is_line_byte(byte: u8) -> bool
    ensures { result ≡ is_line_byte byte }
{
    byte != b'\n' && byte != b'\r'
}

// The word can be a caster's address.
fn is_address(word: &[u8]) -> bool
    ensures { result ≡ is_address word.now }
{
    1 <= word.len() && word.len() <= MAX_ADDRESS_BYTES && are_line_bytes(word)
}

// No byte of the word ends a line.
fn are_line_bytes(word: &[u8]) -> bool
    ensures { result ≡ list_all is_line_byte word.now }
{
    word.iter().all(|byte| is_line_byte(*byte))
}

// The byte is no end of a line, and no `;`.
fn is_password_byte(byte: u8) -> bool
    ensures { result ≡ is_password_byte byte }
{
    is_line_byte(byte) && byte != b';'
}

// The word can be a password.
fn is_password(word: &[u8]) -> bool
    ensures { result ≡ is_password word.now }
{
    word.len() <= MAX_PASSWORD_BYTES && are_password_bytes(word)
}

// Each byte of the word may stand in a password.
fn are_password_bytes(word: &[u8]) -> bool
    ensures { result ≡ list_all is_password_byte word.now }
{
    word.iter().all(|byte| is_password_byte(*byte))
}
