//! Runs of connections at desks, by the public calls of `session_core`, and texts of reports.
//!
//! They stand in a crate of their own, so that the crate that they try is proved once.
#![tactic(auto)]

mod serving;
mod starting;
mod tired;

pub use serving::{Act, ConnectionOutcome, Served, Two, Who, serve_two};
pub use starting::{SessionStart, start_as, start_head};
pub use tired::Tired;

#[cfg(test)]
mod caster;
#[cfg(test)]
mod frame_tests;
#[cfg(test)]
mod head_tests;
#[cfg(test)]
mod relay_tests;
#[cfg(test)]
mod report_tests;
#[cfg(test)]
mod rover_tests;
#[cfg(test)]
mod text_tests;
#[cfg(test)]
mod worn_tests;
