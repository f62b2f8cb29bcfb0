//! One output of many callers: each puts its lines in its own order, and each line is whole.
//!
//! A `Press` is played at a lock of `turn_log`. A caller puts its lines from a place `AtPress`,
//! such as a seat of that lock. Once the lock is closed, the text is the lines of one history.
#![tactic(auto)]

mod callers;
mod draft;
pub mod laws;
mod leaving;
mod line;
mod place;
mod press;
mod whole;

pub use callers::Writer;
pub use draft::{Draft, LineFault};
pub use leaving::{Closed, close, leave, sit};
pub use line::{Line, MAX_LINE_BYTES};
pub use place::{AtPress, WaitsAtEnd, put_all};
pub use press::{OutputStart, Press};
pub use whole::write_at_once;
