//! What the tests of several crates share: links in memory, and the bytes that they carry.
#![tactic(auto)]

mod links;
mod samples;

pub use links::{link_of, links_of, steps_of, torn_link};
pub use samples::{FRAME_A, FRAME_B, FRAMES_AB, ICY, ICY_A};
