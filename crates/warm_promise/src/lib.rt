//! What is promised of the report of a recorded run in which rovers are greeted, and the law that
//! every such report keeps it.
//!
//! The report of such a run is defined by playing its events (`caster_warm`). The promise is said
//! without playing any: in all but the bytes the report is one that keeps the promise of a run
//! without greetings (`run_promise`), and each rover's body holds, of each of its segments in
//! order, its greeting and then its kept frames. It is read in `specs/Greeted.antt`.
//!
//! There is no code: the law is the contract of a function that does nothing.
#![tactic(auto)]

pub mod laws;
