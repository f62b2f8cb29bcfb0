//! Where an operator asks a caster that serves how things stand, as traits with contracts, and
//! stand-ins in memory to test with.
#![tactic(auto)]

mod console;
mod lodge;
mod mem_lodge;
mod wanted;

pub use console::Console;
pub use lodge::Lodge;
pub use mem_lodge::{MemConsole, MemLodge};
pub use wanted::Wanted;
