//! Fetches over links, streets and sinks in memory, by the public calls of `ntrip_fetch`.
//!
//! They stand in a crate of their own, so that the crate that they try is proved once.
#![tactic(auto)]

#[cfg(test)]
mod fakes;
#[cfg(test)]
mod fetch_tests;
#[cfg(test)]
mod link_tests;
#[cfg(test)]
mod rest_tests;
#[cfg(test)]
mod runs;
#[cfg(test)]
mod sink_tests;
