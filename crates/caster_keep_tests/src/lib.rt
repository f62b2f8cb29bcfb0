//! Runs of casters that keep serving, over yards in memory, by the public calls of `caster_keep`
//! and by the law of `keep_promise` on what they came to.
//!
//! They stand in a crate of their own, so that the crate that they try is proved once.
#![tactic(auto)]

#[cfg(test)]
mod busy_tests;
#[cfg(test)]
mod entered_tests;
#[cfg(test)]
mod fakes;
#[cfg(test)]
mod full_tests;
#[cfg(test)]
mod keep_tests;
#[cfg(test)]
mod line_tests;
#[cfg(test)]
mod now_tests;
#[cfg(test)]
mod porter_tests;
#[cfg(test)]
mod promised;
#[cfg(test)]
mod sum_tests;
#[cfg(test)]
mod torn_tests;
