//! A relay: it asks another caster for the frames of a mountpoint there, by NTRIP 1.0 (RTCM
//! 10410.0) or NTRIP 2.0 (RTCM 10410.1), and publishes them at a mountpoint here.
#![tactic(auto)]

mod body;
mod fault;
pub mod laws;
mod session;

pub use fault::RelayHalt;
pub use session::RelaySession;
