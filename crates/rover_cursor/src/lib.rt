//! What a rover reads of one mountpoint from its joining on: one segment, with its laps.
#![tactic(auto)]

mod fault;
mod laps;
pub mod laws;
mod segment;

pub use fault::SegFault;
pub use laps::Laps;
pub use segment::Segment;
