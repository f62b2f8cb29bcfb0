//! What a connection of a caster is by its bytes, what it owes, how it ends and what it is sent,
//! and what a recorded run of many connections comes to, with its report. The definitions stand in
//! `specs`, their laws in [`laws`].
#![tactic(auto)]

mod caps;
mod ending;
pub mod laws;
mod lists;
mod report;

pub use caps::caps_of;
pub use ending::{Ending, Last};
pub use lists::{Connections, MountTotals, Segments, Sent, Sums};
pub use report::{Closed, Connection, MountTotal, Receipt, Report};
