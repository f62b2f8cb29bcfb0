//! Sessions that are made of a seed.
use crate::rows::count_at;
use crate::scripts::{say_count, say_events};
use session_make::make;
use session_script::Event;
use std::alloc::AllocError;

/// How many events there are, and those from one place up to another one, from 0.
fn say_some(
    out: &mut Vec<u8>,
    events: &[Event],
    start: usize,
    end: usize,
) -> Result<(), AllocError> {
    say_count(out, events.len())?;
    match events.get(start..end) {
        Some(events) => say_events(out, events),
        None => Ok(()),
    }
}

/// A made session: its seed, 1 to 10,000 frames, 1 to 64 rovers, and the places of the first event
/// that is told and of the first behind it.
pub fn make_session(words: &str, out: &mut Vec<u8>) -> Result<(), AllocError> {
    let seed = match words.split(',').next() {
        Some(word) => word.parse::<u64>().unwrap_or(0),
        None => 0,
    };
    let frames = count_at(words, 1).max(1).min(10_000) as u32;
    let rovers = count_at(words, 2).max(1).min(64) as u32;
    let events = make(*out.allocator(), seed, frames, rovers)?;
    let (start, end) = (count_at(words, 3), count_at(words, 4));
    say_some(out, &events, start as usize, end as usize)
}
