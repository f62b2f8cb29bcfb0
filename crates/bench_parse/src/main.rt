//! Reads a script of bare connections from the standard input, parses it, and prints how many
//! events it has. `bench/parse` times it.
#![tactic(auto)]

use session_script::{ScriptKind, parse};
use std::io;
use std::io::Read;

fn main(rt: HostRuntime) -> io::Result<()> {
    let mut script = Vec::new(rt.alloc());
    rt.reader().read_to_end(&mut script)?;
    match parse(rt.alloc(), &script, ScriptKind::Bare) {
        Ok(events) => {
            let count = events.len();
            println!(rt; "{count} events")
        }
        Err(fault) => println!(rt; "{fault}"),
    }
}
