//! The texts of recorded runs: the report of a script, and what a session that is made of a number
//! comes to.
#![tactic(auto)]

pub mod laws;
mod made;
mod report;
mod summary;

pub use made::made_text;
pub use report::{run_text, warm_text};
