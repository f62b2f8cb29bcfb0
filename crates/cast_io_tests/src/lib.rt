//! Runs of the fakes of `cast_io`, and a caller over any link.
//!
//! A run is a text of calls, and gives a text of answers, so that a test compares one value.
//!
//! They stand in a crate of their own, so that the crate that they try is proved once.
#![tactic(auto)]

#[cfg(test)]
mod copy_tests;
#[cfg(test)]
mod expecting;
#[cfg(test)]
mod link_tests;
mod reaching;
#[cfg(test)]
mod read_tests;
#[cfg(test)]
mod runs;
mod sending;
#[cfg(test)]
mod store_tests;
#[cfg(test)]
mod street_runs;
#[cfg(test)]
mod street_tests;
#[cfg(test)]
mod yard_runs;
#[cfg(test)]
mod yard_tests;

pub use reaching::reach_once;
pub use sending::send_back;
