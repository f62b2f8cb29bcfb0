//! Sessions of any size, each made from a number: the same number makes the same session, on every
//! machine.
//!
//! A session has one source and up to 64 rovers on the mountpoint `A`. Whole frames of random
//! length and content arrive, and after each frame a random rover takes a turn.
#![tactic(auto)]

mod draws;
mod framing;
pub mod laws;
mod making;

pub use making::make;
