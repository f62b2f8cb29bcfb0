//! Stations at desks and under a lock, and sessions that are replayed with greetings, by the public
//! calls of `last_frames` and `caster_warm`, and by the laws of `run_promise` and `warm_promise`.
//!
//! They stand in a crate of their own, so that each crate that they try is proved once.
#![tactic(auto)]

#[cfg(test)]
mod frames_tests;
#[cfg(test)]
mod lock_tests;
#[cfg(test)]
mod promised;
#[cfg(test)]
mod warm_tests;
