//! The ring of a mountpoint: who holds it, and the last frames that were published there.
//!
//! `Ring` keeps its last frames alone and is an object of turns: what each call is answered is said
//! over the list of all frames that were ever published. The laws of reads and of histories stand
//! beside it.
#![tactic(auto)]

mod call;
mod cursor;
pub mod laws;
mod outbox;
mod reading;
mod ring;
mod shape;
mod watch;

pub use call::{Holder, RingAnswer, RingCall};
pub use cursor::{Cursor, Lap, ReadReport};
pub use outbox::{MAX_BUDGET, Outbox};
pub use ring::Ring;
pub use shape::RingShape;
