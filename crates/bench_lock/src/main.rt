//! Many threads take turns on one counter until there were so many turns.
//!
//!     bench_lock [THREADS TURNS]      2 threads and 1,000 turns where no words are given
//!
//! It prints how many turns were taken, and where words are given, also the fewest and the most
//! that one thread took.
#![tactic(auto)]

mod counter;
mod race;

use race::race;
use std::{env, io};

fn main(rt: HostRuntime) -> io::Result<()> {
    let mut words = env::args(&rt)?.skip(1);
    let threads = words.next().and_then(|word| word.parse::<u32>().ok());
    let turns = words.next().and_then(|word| word.parse::<u64>().ok());
    let count = threads.unwrap_or(2).max(1);
    let shares = race(&rt, rt.alloc(), count, turns.unwrap_or(1000))?;
    println!(rt; "turns {}", shares.turns)?;
    if threads.is_some() {
        println!(rt; "fewest {} most {}", shares.fewest, shares.most)?;
    }
    Ok(())
}
