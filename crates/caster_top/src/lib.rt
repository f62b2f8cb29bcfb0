//! The caster's command line: its words are read, what they name is read and run, and the text, or
//! one line that says why there is none, is written. The status says which.
#![tactic(auto)]

mod answers;
mod casting_answers;
mod command;
mod config_answers;
mod fetch_words;
mod fetching;
mod keep_words;
mod keeping;
pub mod laws;
mod recording;
mod session_answers;
mod top;

pub use top::{caster, refuse_for_memory};
