//! Objects that callers take turns on at desks and at locks, among them the ring of a mountpoint,
//! by the public calls of their crates.
//!
//! They stand in a crate of their own, so that each crate that they try is proved once.
#![tactic(auto)]

#[cfg(test)]
mod desk_tests;
#[cfg(test)]
mod lock_tests;
#[cfg(test)]
mod locks;
#[cfg(test)]
mod ring_lock_tests;
