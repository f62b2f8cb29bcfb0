//! Readers, writers and files of std as sources, sinks and stores, and loopback sockets as links,
//! doors, gates and streets, by the public calls of `caster_net`.
//!
//! They stand in a crate of their own, so that the crate that they try is proved once.
#![tactic(auto)]

#[cfg(test)]
mod adapter_tests;
#[cfg(test)]
mod door_tests;
#[cfg(test)]
mod link_tests;
#[cfg(test)]
mod opened_tests;
pub mod records;
#[cfg(test)]
mod size_tests;
#[cfg(test)]
mod streets;
#[cfg(test)]
mod wire_tests;
