//! The text of each line that a caster that keeps running writes: of its links, where a link came
//! from, what it asked for, as what it was let in, and what it came to; and of how things stand. No
//! memory is taken.
//!
//! The words of a line stand one space apart. The first is the number of the link, as `3.17`, or
//! `now`, and the second says what the line tells.
#![tactic(auto)]

pub mod laws;
mod lines;
mod names;
mod now;
mod receipts;
mod told;
mod words;

pub use lines::{asks_line, end_line, entered_line, lap_line, link_line, segment_line};
pub use now::{now_end_line, now_mount_line, now_workers_line};
pub use receipts::put_receipt;
pub use told::{Asks, Entered, LinkNumber, Peer, Wants, Who};
