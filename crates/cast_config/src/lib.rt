//! The configuration of a caster: what a document says, read exactly or refused at its first broken
//! rule.
#![tactic(auto)]

mod bare;
mod config;
mod document;
mod entries;
mod fault;
mod groups;
mod known;
pub mod laws;
mod lists;
mod mountpoint;
mod reading;
mod served;

pub use config::{Account, Anonymous, Config, Group, GroupFilter, Mount, Near, Relay};
pub use config_keys::Key;
pub use document::read_config;
pub use fault::ConfigFault;
pub use known::{Named, place_heard, place_named};
pub use lists::{
    Accounts, FilterTable, GroupFilters, Groups, Listed, Mounts, Nears, Numbers, Relays,
};
