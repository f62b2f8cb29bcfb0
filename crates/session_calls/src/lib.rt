//! What a connection calls at its caster: the words for the calls that its bytes owe, for the
//! answers that they had, and for what all this adds to the histories of the mountpoints.
#![tactic(auto)]

pub mod laws;
mod looking;

pub use looking::look;
