//! A recorded run of many connections: the events of a script, played over one desk a mountpoint
//! and one of the book of accounts, and the report of it.
#![tactic(auto)]

mod desks;
mod event;
mod lives;
mod opening;
mod replaying;
mod ring_place;
mod run;
mod run_connection;
mod totals;

pub use replaying::{play_script, replay};
pub use ring_place::RingPlace;
pub use run::Run;
