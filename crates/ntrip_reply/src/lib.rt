//! What a client of the caster is told: the replies of NTRIP 1.0 (RTCM 10410.0) and NTRIP 2.0
//! (RTCM 10410.1).
#![tactic(auto)]

mod kind;
pub mod laws;
mod lines;
mod text;
mod version_one;
mod version_two;

pub use kind::Reply;
pub use text::reply;
