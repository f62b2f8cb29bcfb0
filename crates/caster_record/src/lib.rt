//! A caster that records its session: one thread serves each link in turn, and the events of what
//! happened are a script, of which the run is the replay.
#![tactic(auto)]

mod fault;
mod hearing;
pub mod laws;
mod recorder;
mod recording;
mod rounds;
mod serving;
mod setup;
mod tape;

pub use fault::RecorderFault;
pub use recording::{Recorded, hang_up_all, record};
