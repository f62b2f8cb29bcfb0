//! A source's session: it claims a mountpoint, and publishes the frames of its body there.
#![tactic(auto)]

mod fault;
pub mod laws;
mod publish;
mod session;

pub use fault::{ClaimFault, SourceHalt};
pub use session::SourceSession;
