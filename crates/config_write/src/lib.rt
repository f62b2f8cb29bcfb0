//! A configuration, written as a document of version 2 that says it.
#![tactic(auto)]

mod document;
mod entries;
pub mod laws;
mod lists;
mod members;

pub use document::write_config;
