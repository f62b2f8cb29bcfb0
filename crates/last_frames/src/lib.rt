//! The station of a mountpoint: its ring, and the last frame of each message that a rover needs
//! before it can use the others.
//!
//! A rover that joins is greeted by those of these frames that its filter permits, so that it need
//! not wait until the base sends them again. `Station` is an object of turns that is called and
//! answers as its ring, and a `StationPlace` is a place at the ring of a station.
#![tactic(auto)]

mod hall;
mod latest;
mod place;
mod station;

pub use hall::Hall;
pub use place::StationPlace;
pub use station::Station;
