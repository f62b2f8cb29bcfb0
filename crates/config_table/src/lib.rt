//! The sourcetable that a caster offers, made from its configuration.
#![tactic(auto)]

mod degrees;
mod table;

pub use table::{table_of, table_text};
