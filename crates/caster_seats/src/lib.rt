//! The locks of a caster, one for the ring of each mountpoint and one for the book of accounts, and
//! the callers that sit down at all of them: how they are opened, taken, left and closed, whatever
//! is done there.
#![tactic(auto)]

mod closing;
mod locks;
mod opening;
mod passes;
mod seated_callers;
mod seats;
mod shared;

pub use seated_callers::{AtPlaces, SeatedCaller, leave_all, sit_all};
pub use shared::{Passes, Shared};
