//! The client's side of NTRIP 1.0 (RTCM 10410.0) and NTRIP 2.0 (RTCM 10410.1): what is asked of
//! another caster, and what it answers.
#![tactic(auto)]

mod answer;
mod first_line;
mod head;
pub mod laws;
mod request;

pub use answer::{Answer, Refusal};
pub use head::{AnswerHead, Taken};
pub use request::{push_request, version_of};
