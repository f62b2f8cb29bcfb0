//! A rover's session: it joins the bases that its reports and permissions select, reads on in the
//! last of them, and is sent the frames.
#![tactic(auto)]

mod admitted;
mod body;
mod follow;
pub mod laws;
mod places;
mod session;

pub use body::push_frames;
pub use session::RoverSession;
