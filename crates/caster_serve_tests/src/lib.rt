//! Runs of casters over streets in memory, by the public calls of `caster_serve`, with links whose
//! calls wait for one another, and by the law of `serve_promise` on what they came to.
//!
//! They stand in a crate of their own, so that the crate that they try is proved once.
#![tactic(auto)]

#[cfg(test)]
mod casting;
#[cfg(test)]
mod door_tests;
#[cfg(test)]
mod fakes;
#[cfg(test)]
mod fault_tests;
#[cfg(test)]
mod link_tests;
#[cfg(test)]
mod mount_tests;
#[cfg(test)]
mod one_caller;
#[cfg(test)]
mod promised;
#[cfg(test)]
mod relay_tests;
#[cfg(test)]
mod rest_tests;
#[cfg(test)]
mod ring_tests;
#[cfg(test)]
mod setting;
#[cfg(test)]
mod street_tests;
#[cfg(test)]
mod telling;
#[cfg(test)]
mod thread_tests;
