//! A caster that serves until its gates are over. Each worker keeps serving the links that its gate
//! accepts, and each relay those that its gate dials. The lines of each link go to one output of
//! all of them, those of its receipt once it has ended. Beside them a porter waits at a console,
//! and puts lines that say how things stand each time that this is wanted there. Behind the last of
//! all lines the totals are written.
#![tactic(auto)]

mod booth;
mod duty;
mod first;
mod gate_loop;
mod gates;
mod keeper;
pub mod laws;
mod locks;
mod one_link;
mod porter;
mod post;
mod posts;
mod stop;
mod totals;
mod waiting;
mod whole;

pub use stop::Stop;
pub use whole::{KeepFault, Outcome, keep};
