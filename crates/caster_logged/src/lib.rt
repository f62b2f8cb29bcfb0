//! What `caster` promises where all that it stands on logs what it did: an input and files that log
//! their reads, links that log what they gave and took, doors and a street that log what came back,
//! and an output that holds what was written.
//!
//! Clauses over any such things say a list where it is told. Here it is: the lists stand in the
//! logs, and no clause has a premise of that kind. They are read in this order:
//!
//! - `specs/Inputs.antt`: which bytes were read;
//! - `specs/Callers.antt`: what was promised of the links that a caster served, and of its
//!   accounts;
//! - `specs/Keepers.antt`: the same of a caster that kept serving, with its lines, however it
//!   ended;
//! - `specs/Peers.antt`: the session that was recorded over the links of one door;
//! - `specs/Runs.antt`: the frames that were fetched;
//! - `specs/Keepers.antt`: what was promised of the links of a caster that keeps serving, its lines
//!   and totals, and how it ended;
//! - `specs/Complete.antt`: when it ends as it should.
//!
//! There is no code: the laws are contracts of functions that do nothing.
#![tactic(auto)]

pub mod laws;
