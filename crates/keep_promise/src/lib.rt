//! What is promised of each link of a caster that keeps serving, and the law that every such link
//! keeps it.
//!
//! What `keep` did is said by plans and events (`caster_keep`). The promise is said in the words of
//! a served link's (`serve_promise`), and beside it of the lines that were written of it. It is
//! read in this order:
//!
//! - `specs/Links.antt`: what a link's lines say of its head and of its claim;
//! - `specs/Points.antt`: what holds at each point of a mountpoint's history;
//! - `specs/Keepers.antt`: the links of each keeper, one after the other, its lines, and the whole.
//!
//! There is no code: the laws are contracts of functions that do nothing.
#![tactic(auto)]

pub mod laws;
