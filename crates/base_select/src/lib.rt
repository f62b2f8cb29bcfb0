//! The base that a rover takes: the nearest by a stated whole number, with hysteresis.
#![tactic(auto)]

mod choice;
mod distance;
pub mod laws;

pub use choice::select;
pub use distance::measure;
use gga_read::Position;

/// A base station: a mountpoint by its number, and where its antenna stands.
#[derive(Clone, Copy, Debug, PartialEq, Eq)]
pub struct Base {
    /// The number of the mountpoint.
    pub mount: u32,
    /// Where the antenna stands.
    pub at: Position,
}
