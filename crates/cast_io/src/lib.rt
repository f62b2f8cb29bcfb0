//! What the caster reads from and writes to, as traits with contracts, and fakes in memory to test
//! with.
//!
//! Each object has a count of faults, a `u64` that never falls and stands at its last value. A
//! call answers [`Failed`] only where the count rose in that call, so no caller can report a fault
//! of the outside that did not happen.
#![tactic(auto)]

mod bytes;
mod calls;
mod door;
mod fault;
mod gate;
mod gate_end;
mod journal;
mod link;
mod mem_door;
mod mem_gate;
mod mem_link;
mod mem_sink;
mod mem_source;
mod mem_store;
mod mem_street;
mod mem_yard;
mod notes;
mod origin;
mod peer;
mod reading;
mod returned;
mod sink;
mod source;
mod steps;
mod store;
mod street;
mod yard;
mod yard_asked;

pub use bytes::ByteString;
pub use door::{Arrived, Door};
pub use fault::Failed;
pub use gate::Gate;
pub use gate_end::GateEnd;
pub use journal::Journal;
pub use link::{Got, Link};
pub use mem_door::MemDoor;
pub use mem_gate::MemGate;
pub use mem_link::MemLink;
pub use mem_sink::MemSink;
pub use mem_source::MemSource;
pub use mem_store::MemStore;
pub use mem_street::MemStreet;
pub use mem_yard::MemYard;
pub use origin::Origin;
pub use peer::PeerAddr;
pub use reading::{ReadAllFault, read_all};
pub use sink::Sink;
pub use source::Source;
pub use steps::{Asked, LinkStep, SourceStep, Step};
pub use store::Store;
pub use street::{Street, StreetFault};
pub use yard::Yard;
pub use yard_asked::YardAsked;
