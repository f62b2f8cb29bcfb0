//! Who may enter: which account a rover has and what its group may hear, and which mountpoint a
//! source feeds.
#![tactic(auto)]

mod admission;
mod numbers;
mod party;
mod password;

pub use admission::{Admission, AdmissionError, Denial, SourceDenial, admit, admit_source};
pub use numbers::Bases;
