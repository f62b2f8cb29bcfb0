//! A rover's client of NTRIP 1.0 (RTCM 10410.0) and NTRIP 2.0 (RTCM 10410.1): it asks one caster
//! after the other for the frames of a mountpoint (RTCM 10403.3), and writes them as they come.
#![tactic(auto)]

mod body;
mod fetch_stage;
mod fetching;
mod frames;
pub mod laws;
mod left;
mod receiving;
mod target;
mod trying;

pub use fetching::fetch;
pub use left::{FetchFault, Left, Try};
pub use receiving::fetch_link;
pub use target::{Target, request_of};
