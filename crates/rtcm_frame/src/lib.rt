//! Frames of RTCM 10403.3's transport layer: what a whole frame is, its CRC-24Q checksum and its
//! message number, and how a byte stream is cut into frames.
#![tactic(auto)]

mod buffer;
mod checksum;
mod cutting;
mod framing;
pub mod laws;
mod stream;
mod sums;
mod tables;

pub use checksum::crc24q;
pub use framing::Frame;
pub use stream::Cutter;
