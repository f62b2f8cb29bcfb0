//! Filters: which frames of a base a rover gets, by their message number.
#![tactic(auto)]

mod choices;
pub mod laws;
mod selection;

pub use choices::Filters;
pub use selection::{Filter, FilterFault};
