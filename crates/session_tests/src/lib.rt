//! Sources, relays and rovers at desks, and the book of accounts at a desk and under a lock, by the
//! public calls of their crates.
//!
//! They stand in a crate of their own, so that each crate that they try is proved once.
#![tactic(auto)]

#[cfg(test)]
mod book_lock_tests;
#[cfg(test)]
mod book_tests;
#[cfg(test)]
mod desks;
#[cfg(test)]
mod look_tests;
#[cfg(test)]
mod relay_tests;
#[cfg(test)]
mod rover_tests;
#[cfg(test)]
mod segment_tests;
#[cfg(test)]
mod source_tests;
