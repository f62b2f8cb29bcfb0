//! Scripts of sessions.
use crate::printing::{put, say, show, show_digits};
use session_script::{Event, ScriptKind, parse, script_text};
use std::alloc::AllocError;

/// The kind of a script: `bare`, or one with heads and two relays.
fn kind_of(word: &str) -> ScriptKind {
    match word {
        "bare" => ScriptKind::Bare,
        _ => ScriptKind::Replay { relays: 2 },
    }
}

/// A connection that opens for a mountpoint.
fn say_opened(out: &mut Vec<u8>, kind: &str, k: u32, mount: &[u8]) -> Result<(), AllocError> {
    put(out, kind)?;
    say(out, &k)?;
    put(out, ", ")?;
    show(out, mount)?;
    put(out, ")")
}

/// Bytes that come in: how many, and up to 40 of them in hex digits too.
fn say_came(out: &mut Vec<u8>, k: u32, bytes: &[u8]) -> Result<(), AllocError> {
    put(out, " In(")?;
    say(out, &k)?;
    put(out, ", ")?;
    say(out, &bytes.len())?;
    put(out, " bytes ")?;
    if bytes.len() <= 40 {
        show_digits(out, bytes)?;
    }
    put(out, ")")
}

/// An event of one number or two.
fn say_numbers(
    out: &mut Vec<u8>,
    kind: &str,
    k: u32,
    other: Option<u32>,
) -> Result<(), AllocError> {
    put(out, kind)?;
    say(out, &k)?;
    if let Some(number) = other {
        put(out, ", ")?;
        say(out, &number)?;
    }
    put(out, ")")
}

/// An event, behind a space.
fn say_event(out: &mut Vec<u8>, event: &Event) -> Result<(), AllocError> {
    match event {
        Event::Source(k, mount) => say_opened(out, " Source(", *k, mount.bytes()),
        Event::Rover(k, mount) => say_opened(out, " Rover(", *k, mount.bytes()),
        Event::In(k, text) => say_came(out, *k, text.bytes()),
        Event::Open(k) => say_numbers(out, " Open(", *k, None),
        Event::Relay(k, relay) => say_numbers(out, " Relay(", *k, Some(*relay)),
        Event::Turn(k, budget) => say_numbers(out, " Turn(", *k, Some(*budget)),
        Event::Break(k) => say_numbers(out, " Break(", *k, None),
        Event::End(k) => say_numbers(out, " End(", *k, None),
    }
}

/// These events.
pub fn say_events(out: &mut Vec<u8>, events: &[Event]) -> Result<(), AllocError> {
    for event in events {
        say_event(out, event)?;
    }
    Ok(())
}

/// How many events there are.
pub fn say_count(out: &mut Vec<u8>, count: usize) -> Result<(), AllocError> {
    say(out, &count)?;
    put(out, " events")
}

/// The events of a script of this kind, or its fault.
pub fn script(kind: &str, text: &[u8], out: &mut Vec<u8>) -> Result<(), AllocError> {
    match parse(*out.allocator(), text, kind_of(kind)) {
        Ok(events) => {
            say_count(out, events.len())?;
            say_events(out, &events)
        }
        Err(fault) => say(out, &fault),
    }
}

/// How many events a script of this kind has, or its fault.
pub fn events(kind: &str, text: &[u8], out: &mut Vec<u8>) -> Result<(), AllocError> {
    match parse(*out.allocator(), text, kind_of(kind)) {
        Ok(events) => say_count(out, events.len()),
        Err(fault) => say(out, &fault),
    }
}

/// These events as they are written, behind a line that stands there.
fn show_written(out: &mut Vec<u8>, events: &[Event]) -> Result<(), AllocError> {
    let mut text = Vec::from_slice(*out.allocator(), b"# recorded\n")?;
    script_text(events, &mut text)?;
    show(out, &text)
}

/// The events of a script of this kind as they are written.
pub fn rewrite(kind: &str, text: &[u8], out: &mut Vec<u8>) -> Result<(), AllocError> {
    match parse(*out.allocator(), text, kind_of(kind)) {
        Ok(events) => show_written(out, &events),
        Err(fault) => say(out, &fault),
    }
}
