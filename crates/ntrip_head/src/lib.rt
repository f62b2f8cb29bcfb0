//! What a client asks of the caster: heads of NTRIP 1.0 (RTCM 10410.0) and NTRIP 2.0
//! (RTCM 10410.1), and the head with which an upstream caster answers.
#![tactic(auto)]

mod buffer;
mod credentials;
mod cut;
mod fault;
mod fields;
mod http_head;
mod judge;
pub mod laws;
mod reading;
mod request;
mod source_head;
mod upstream;

pub use buffer::{HeadBuf, HeadEnd, HeadStep};
pub use fault::{HeadError, HeadFault};
pub use reading::read_head;
pub use request::{Auth, Request, Version};
pub use upstream::{Upstream, read_upstream};
