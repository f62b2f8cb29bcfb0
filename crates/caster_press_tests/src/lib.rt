//! Runs of a press over a sink in memory, by the public calls of `caster_press`.
//!
//! They stand in a crate of their own, so that the crate that they try is proved once.
#![tactic(auto)]

#[cfg(test)]
mod line_tests;
#[cfg(test)]
mod making;
#[cfg(test)]
mod press_tests;
mod script;

pub use script::Script;
