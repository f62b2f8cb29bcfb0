//! One lock for any object: callers draw tickets, and the object is played in their order.

mod bells;
mod closing;
mod notes;
mod opening;
mod parts;
mod plays;
mod rule;
mod seats;
mod steps;

pub use parts::{Note, Pass, Seat, Turn};
pub use seats::Leaves;
