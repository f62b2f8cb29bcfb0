//! What a gate was made for, for the proof alone.
ghost use Rattle.std.specs.Prelude.{◌≡◌};

use crate::journal::Journal;
use std::marker::Model;

/// What the yard was asked that gave a gate. Contracts see it as plain data; a program cannot read
/// the address. It takes no memory.
#[derive(Drop)]
pub struct Origin {
    addr: Journal<u8>,
    gates: Option<u32>,
    quiet: u32,
}

impl Model for Origin {
    ghost use Rattle.cast_io.specs.Yards.{origin_of};
    ghost use Rattle.cast_io.specs.declared.yard_asked.YardAsked.{YardAsked};

    ghost Value = { YardAsked };

    ghost view = { λ o. origin_of o.addr o.gates o.quiet };
}

impl Origin {
    ghost use Rattle.cast_io.specs.declared.yard_asked.YardAsked.TheVariants as asked;

    /// That of each of so many gates that are opened at this address. `quiet` is in seconds.
    pub fn of_open_gates(addr: &str, gates: u32, quiet: u32) -> Self
        ensures { result ≡ asked.OpenGates addr.now gates quiet }
    {
        Origin {
            addr: Journal::of_bytes(addr.as_bytes()),
            gates: Some(gates),
            quiet,
        }
    }

    /// That of a gate that dials this address. `quiet` is in seconds.
    pub fn of_reach(addr: &str, quiet: u32) -> Self
        ensures { result ≡ asked.Reach addr.now quiet }
    {
        Origin {
            addr: Journal::of_bytes(addr.as_bytes()),
            gates: None,
            quiet,
        }
    }
}
