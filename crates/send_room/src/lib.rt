//! How much of what a peer is sent waits for it in the system and not in its ring, and when it is
//! given up: decisions over plain values, with no clock and no socket.
#![tactic(auto)]

mod flow;
mod haste;
pub mod laws;
mod stuck;

pub use flow::Flow;
pub use haste::Haste;
pub use stuck::Stuck;
