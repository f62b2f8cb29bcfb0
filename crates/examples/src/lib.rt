//! Callers of six crates that others may want to use: what one would write first. The README of
//! each of these crates quotes its caller.
#![tactic(auto)]

pub mod bodies;
pub mod counter;
pub mod heads;
pub mod positions;
pub mod streams;
pub mod tables;
pub mod turns;
