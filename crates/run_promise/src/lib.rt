//! What is promised of the report of a recorded run, and the law that every such report keeps it.
//!
//! The report of a run is defined by playing its events (`session_core`). The promise is said
//! without playing any: it speaks of what came in on each connection, of one history for each
//! mountpoint, and of the report's fields. It is read in this order:
//!
//! - `specs/Calls.antt`: the calls that a history has of a connection, each with the answer at its
//!   own point, and the segments that these answers give;
//! - `specs/Selected.antt`: which of its bases a rover joins, by its reports and by who is live;
//! - `specs/Promised.antt`: what each connection was by its bytes, what its segments, its sums and
//!   its bytes are then, that nothing else was called, and that the histories come about in the
//!   order of the script;
//! - `specs/Begun.antt`: how a segment begins.
//!
//! There is no code: the laws are contracts of functions that do nothing.
#![tactic(auto)]

pub mod laws;
