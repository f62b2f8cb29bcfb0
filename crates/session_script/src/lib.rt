//! Recorded sessions: the script of a run, read line by line.
//!
//! A script opens connections by number, says which bytes come in on each and when each takes a
//! turn, and closes them. It is read whole or not at all, and the first fault is named by its line.
#![tactic(auto)]

ghost use Rattle.std.specs.Prelude.{◌≡◌};
ghost use Rattle.session_script.specs.declared.ScriptFault.TheVariants.{Memory};

mod connections;
pub mod laws;
mod line;
mod number;
mod parts;
mod reading;
mod writing;

use cast_text::{MountName, Text};
pub use line::MAX_BUDGET;
pub use reading::parse;
use std::alloc::{AllocError, AllocFailed};
use thiserror::Error;
pub use writing::{push_line, script_text};

/// One event of a script. The first number of each is the connection's, from 1 to 9999.
#[derive(Drop)]
pub enum Event {
    /// A source opens, for this mountpoint.
    Source(u32, MountName),
    /// A rover of the anonymous account opens, for this mountpoint.
    Rover(u32, MountName),
    /// A connection opens that will send a head.
    Open(u32),
    /// The connection of a relay opens. The relays are numbered from 0.
    Relay(u32, u32),
    /// Bytes arrive, 1 to 4,096 of them.
    In(u32, Text),
    /// The connection takes one turn, with a budget of 1 to 16 frames.
    Turn(u32, u32),
    /// The connection is closed by a read fault.
    Break(u32),
    /// The connection is closed as its end.
    End(u32),
}

/// Which lines a script may have.
#[derive(Clone, Copy)]
pub enum ScriptKind {
    /// Sources and rovers open at their mountpoints: `source` and `rover`.
    Bare,
    /// Connections open that send heads, and up to this many relays: `open` and `relay`.
    Replay {
        /// How many relays there are.
        relays: u32,
    },
}

/// Why bytes are no script. Lines are numbered from 1, and the first faulty line is named.
#[derive(Clone, Copy, Debug, PartialEq, Eq, Error)]
pub enum ScriptFault {
    /// This line is of no form of its kind.
    #[error("line {0} is of no form")]
    Line(u32),
    /// This line has a form, but breaks a rule on what was opened and closed before it.
    #[error("line {0} does not fit what came before")]
    State(u32),
    /// No line is faulty, and none is `stop`.
    #[error("no line is `stop`")]
    NoStop,
    /// There are more than 8 MiB.
    #[error("more than 8 MiB")]
    Long,
    /// There is no memory for the events.
    #[error("out of memory")]
    Memory,
}

impl From<AllocError> for ScriptFault {
    ghost from_gives = { λ _ e. e ≡ Memory };

    fn from(_e: AllocError) -> ScriptFault {
        ScriptFault::Memory
    }
}

impl<T: Drop> From<AllocFailed<T>> for ScriptFault {
    ghost from_gives = { λ _ e. e ≡ Memory };

    fn from(_e: AllocFailed<T>) -> ScriptFault {
        ScriptFault::Memory
    }
}
