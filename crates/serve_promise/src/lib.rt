//! What is promised of each link that a caster served, and the laws that every such link keeps it.
//!
//! What `serve` did is said by plans and events (`caster_serve`). The promise is said in the words
//! of a recorded run's (`run_promise`): it speaks of the bytes that came in on each link, of one
//! history for each mountpoint and one of the book, and of the link's receipt. It is read in this
//! order:
//!
//! - `specs/Links.antt`: what one link called, what it was by its bytes, what its segments, its
//!   sums and its bytes are then, and what stands where it was halted;
//! - `specs/LetIn.antt`: as what it was let in;
//! - `specs/Accounts.antt`: what it called in the book, what accounts come to by the receipts of
//!   all links, and their caps;
//! - `specs/Callers.antt`: the links of each worker and relay, one after the other, and the whole.
//!
//! There is no code: the laws are contracts of functions that do nothing.
#![tactic(auto)]

pub mod laws;
