//! Takes a configuration from the standard input, reads it 20 times, and prints how many accounts
//! it has. `bench/config` times it.
#![tactic(auto)]

use cast_config::read_config;
use std::io;
use std::io::Read;

/// How often the file is read.
const TIMES: u32 = 20;

fn main(rt: HostRuntime) -> io::Result<()> {
    let mut file = Vec::new(rt.alloc());
    rt.reader().read_to_end(&mut file)?;
    let mut accounts = 0;
    for _ in 0..TIMES {
        match read_config(rt.alloc(), &file) {
            Ok(config) => accounts = config.account.as_slice().len(),
            Err(fault) => {
                println!(rt; "{fault}")?;
                return Ok(());
            }
        }
    }
    println!(rt; "{accounts} accounts")
}
