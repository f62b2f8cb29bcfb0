//! Fakes for tests of threads: links in memory, and a console, whose calls set flags and wait for
//! flags of others, so that a test says in which order the calls of several callers come.
//!
//! A link tells how often it failed, and a street and a yard how many such links came back, and
//! nothing else. Doors and gates tell nothing. Neither they nor street and yard ever fail. A link
//! notes its calls, for the tests alone.
#![tactic(auto)]

mod console;
mod link;
mod street;
mod yard;

pub use console::{TimedConsole, TimedLodge};
pub use link::{Stop, TimedLink};
pub use street::{TimedDoor, TimedStreet};
pub use yard::{TimedGate, TimedYard};
