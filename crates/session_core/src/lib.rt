//! One connection of a caster, from its first byte to its receipt.
#![tactic(auto)]

mod asked;
mod bare;
mod begin;
mod begun;
mod book;
mod closing;
mod ending;
mod feeding;
mod held;
mod judging;
mod places;
mod rover_state;
mod rovers;
mod session;
mod session_stage;
mod settle;
mod setup;
mod turning;

pub use asked::Asked;
pub use ending::{Bare, Flow};
pub use held::Held;
pub use places::Places;
pub use rover_state::{RoverState, Whereabouts};
pub use session::Session;
pub use session_model::{
    Closed, Connection, Connections, Ending, Last, MountTotal, MountTotals, Receipt, Report,
    Segments, Sent, Sums,
};
pub use setup::Setup;
