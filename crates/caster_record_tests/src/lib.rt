//! Sessions that are recorded over doors and links in memory, and a run that is played event by
//! event, by the public calls of `caster_record` and `caster_replay`.
//!
//! They stand in a crate of their own, so that the crate that they try is proved once.
#![tactic(auto)]

#[cfg(test)]
mod door_tests;
#[cfg(test)]
mod fakes;
#[cfg(test)]
mod limit_tests;
#[cfg(test)]
mod link_tests;
#[cfg(test)]
mod noted;
#[cfg(test)]
mod replay_tests;
#[cfg(test)]
mod rest_tests;
#[cfg(test)]
mod run_tests;
#[cfg(test)]
mod telling;
