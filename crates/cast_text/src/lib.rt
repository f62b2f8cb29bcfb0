//! Names, texts and lines of a caster: what a mountpoint, a user and a group may be called, short
//! texts of bytes, numbers as text, and the lines of a stream of bytes.
#![tactic(auto)]

mod fault;
mod lines;
mod name;
mod number;
mod split;
mod text;

pub use fault::{NameFault, TextFault};
pub use lines::Lines;
pub use name::{GroupName, MountName, UserName, is_name};
pub use number::{push_decimal, push_hex};
pub use split::{place_of, split_first, split_line};
pub use text::Text;
