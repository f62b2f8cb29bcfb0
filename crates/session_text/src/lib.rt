//! The text of a report, and of what a caster came to.
#![tactic(auto)]

mod report_lines;
mod text;

pub use report_lines::{EndingWords, report_text, words_of};
pub use text::{closed_text, room_for_closed};
