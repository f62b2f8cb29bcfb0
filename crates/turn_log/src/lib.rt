//! One law for any object that callers take turns on: the object is played call by call, and a
//! place gives turns on it and knows the history of calls so far.
#![tactic(auto)]

mod desk;
pub mod laws;
mod lock;
mod object;
mod past;
mod place;

pub use desk::Desk;
pub use lock::{Leaves, Note, Pass, Seat, Turn};
pub use object::Played;
pub use place::{TurnFault, Turns};
