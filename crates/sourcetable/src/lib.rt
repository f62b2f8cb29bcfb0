//! The sourcetable of NTRIP 1.0 (RTCM 10410.0) and NTRIP 2.0 (RTCM 10410.1): records of casters,
//! networks and mountpoints, written and read back.
#![tactic(auto)]

mod fault;
pub mod laws;
mod lists;
mod reading;
mod record;
mod split;
mod writing;

pub use fault::{RecordFault, TableFault};
pub use lists::{Field, Fields, Records};
pub use reading::{read_record, read_table};
pub use record::{Kind, Record, Table};
pub use split::push_field;
pub use writing::{push_record, write_table};
