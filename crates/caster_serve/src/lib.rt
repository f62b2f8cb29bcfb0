//! A caster that serves many connections at once: each worker serves the links of its door, each
//! relay its one link, all at seats of the mountpoints' locks.
#![tactic(auto)]

mod accept_loop;
mod caller_task;
mod callers;
mod connection;
mod listeners;
mod tally;
mod threads;
mod whole;
mod worker;

pub use accept_loop::work_places;
pub use caster_link::Role;
pub use connection::serve_link;
pub use listeners::address_of;
pub use tally::{Tally, count_receipt};
pub use whole::{ServeFault, serve};
pub use worker::{Worker, work};
