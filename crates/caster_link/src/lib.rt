//! One connection over its link: what the link gives goes to its session, and what the session owes
//! is sent over the link, from its first byte to its receipt.
#![tactic(auto)]

mod connection;
pub mod laws;
mod role;
mod sending;
mod service;
mod turning;

pub use connection::serve_places;
pub use role::Role;
pub use service::Service;
