//! The chunked transfer coding (RFC 9112, section 7.1) that NTRIP 2.0 (RTCM 10410.1) rides on: a
//! body is read in any pieces, and a frame is written as one chunk.
#![tactic(auto)]

mod chunks;
mod dechunk;
pub mod laws;
mod phase;

pub use chunks::chunk;
pub use dechunk::{Dechunk, Step};
