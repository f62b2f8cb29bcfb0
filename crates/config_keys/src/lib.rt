//! Single keys of a configuration: what each may hold, how it is read from a TOML value, and what
//! is printed where a key breaks its rule.
#![tactic(auto)]

mod fault;
mod filters;
mod key;
mod lists;
mod numbers;
mod printed;
mod records;
mod strings;

pub use fault::KeyFault;
pub use filters::{FilterEntry, filter_entries, types};
pub use key::{Key, value_at};
pub use lists::{are_names, each_once, integers, tables, tables_or, texts};
pub use numbers::{count, count_or, whole};
pub use printed::push_fault;
pub use records::records_or;
pub use strings::{
    TextKind, group_name, mount_name, name_bytes, text, text_in, text_or, user_name,
};
