//! The porter of a caster that keeps serving: it waits at a console, and each time that it is
//! wanted there how things stand it looks at the mountpoints and puts lines that say so.
#![tactic(auto)]

mod found;
mod looks;
mod saying;

pub use found::Found;
pub use saying::wait_at;
