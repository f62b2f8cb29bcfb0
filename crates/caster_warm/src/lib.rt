//! A recorded run in which a rover that joins is greeted: before its frames it is sent the last
//! ones of the messages that it needs for the others.
#![tactic(auto)]

mod clearing;
mod events;
mod greeting;
mod parts;
mod place;
mod sent;
mod warming;

pub use warming::warm;
