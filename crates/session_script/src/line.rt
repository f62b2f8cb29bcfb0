//! The event of a line.

ghost use Rattle.std.specs.Prelude.{◌≡◌, ◌-◌, min, IfOk};
ghost use Rattle.session_script.specs.Line.{is_bare, is_replay, mount_of, input_of, relay_number, short_event, opening_event, long_event, event_of_line};

use crate::number::{number_of, number_within};
use crate::parts::split_part;
use crate::{Event, ScriptKind};
use cast_text::{MountName, NameFault, Text};
use hex::FromHexError;
use std::alloc::{AllocError, Global};

/// The largest number of a connection.
const MAX_CONNECTION: u32 = 9999;

/// The largest budget of a turn.
pub const MAX_BUDGET: u32 = 16;

/// The most bytes of one `in` line.
const MAX_INPUT_BYTES: usize = 4096;

fn is_bare(kind: ScriptKind) -> bool
    ensures { result ≡ is_bare kind }
{
    matches!(&kind, ScriptKind::Bare)
}

fn is_replay(kind: ScriptKind) -> bool
    ensures { result ≡ is_replay kind }
{
    matches!(&kind, ScriptKind::Replay { .. })
}

/// The name of a mountpoint, if the text is one.
fn mount_of(alloc: Global, text: &[u8]) -> Result<Option<MountName>, AllocError>
    ensures { IfOk result (λ mount. mount ≡ mount_of text.now) }
{
    match MountName::new(alloc, text) {
        Ok(mount) => Ok(Some(mount)),
        Err(NameFault::Memory) => Err(AllocError),
        Err(_) => Ok(None),
    }
}

/// The bytes of hexadecimal digits, if there are 1 to 4,096 of them.
fn input_of(alloc: Global, text: &[u8]) -> Result<Option<Text>, AllocError>
    ensures { IfOk result (λ input. input ≡ input_of text.now) }
{
    let bytes = match hex::decode(alloc, text) {
        Ok(bytes) => bytes,
        Err(FromHexError::OutOfMemory) => return Err(AllocError),
        Err(_) => return Ok(None),
    };
    if bytes.is_empty() || bytes.len() > MAX_INPUT_BYTES {
        return Ok(None);
    }
    let input = Text::of(alloc, &bytes)?;
    Ok(Some(input))
}

/// The number from 0 of the relay with this number from 1. No relay has the last `u32`, which
/// stands for each number that is too large.
fn relay_number(n: u64) -> u32
    ensures { result ≡ relay_number n }
{
    (n.saturating_sub(1)).min(u64::from(u32::MAX)) as u32
}

/// The event of a line of two parts.
fn short_event(kind: ScriptKind, word: &[u8], k: u32) -> Option<Event>
    ensures { result ≡ short_event kind word.now k }
{
    if word == b"break".as_slice() {
        Some(Event::Break(k))
    } else if word == b"end".as_slice() {
        Some(Event::End(k))
    } else if word == b"open".as_slice() && is_replay(kind) {
        Some(Event::Open(k))
    } else {
        None
    }
}

/// The event of a line of three parts that opens a connection.
fn opening_event(
    alloc: Global,
    kind: ScriptKind,
    word: &[u8],
    k: u32,
    value: &[u8],
) -> Result<Option<Event>, AllocError>
    ensures { IfOk result (λ event. event ≡ opening_event kind word.now k value.now) }
{
    if word == b"source".as_slice() && is_bare(kind) {
        Ok(mount_of(alloc, value)?.map(|mount| Event::Source(k, mount)))
    } else if word == b"rover".as_slice() && is_bare(kind) {
        Ok(mount_of(alloc, value)?.map(|mount| Event::Rover(k, mount)))
    } else if word == b"relay".as_slice() && is_replay(kind) {
        Ok(number_of(value).map(|n| Event::Relay(k, relay_number(n))))
    } else {
        Ok(None)
    }
}

/// The event of a line of three parts.
fn long_event(
    alloc: Global,
    kind: ScriptKind,
    word: &[u8],
    k: u32,
    value: &[u8],
) -> Result<Option<Event>, AllocError>
    ensures { IfOk result (λ event. event ≡ long_event kind word.now k value.now) }
{
    if word == b"in".as_slice() {
        Ok(input_of(alloc, value)?.map(|input| Event::In(k, input)))
    } else if word == b"turn".as_slice() {
        Ok(number_within(MAX_BUDGET, value).map(|budget| Event::Turn(k, budget)))
    } else {
        opening_event(alloc, kind, word, k, value)
    }
}

/// The event of this line, if it is of a form of its kind.
#[tactic(auto, unfolding(crate::specs::Line::event_of_line))]
pub fn event_of_line(
    alloc: Global,
    kind: ScriptKind,
    line: &[u8],
) -> Result<Option<Event>, AllocError>
    ensures { IfOk result (λ event. event ≡ event_of_line kind line.now) }
{
    let (word, Some(rest)) = split_part(line) else {
        return Ok(None);
    };
    let (number, value) = split_part(rest);
    let Some(k) = number_within(MAX_CONNECTION, number) else {
        return Ok(None);
    };
    let Some(value) = value else {
        return Ok(short_event(kind, word, k));
    };
    let (value, more) = split_part(value);
    if more.is_some() {
        return Ok(None);
    }
    long_event(alloc, kind, word, k, value)
}
