//! Threads that take turns on one counter.
ghost use Rattle.std.specs.Prelude.{◌≡◌, ℕ, ◌<◌, ◌+◌, ◌-◌, ◌^◌, List, length, min, IfOk};
ghost use Rattle.std.specs.List.{sum};
ghost use Rattle.bench_lock.specs.Shares.{AreBounds, IsSum, share};
ghost use mathlib.Core.Option.{some};
ghost use lib.ListN.{get_elem?};
ghost use Rattle.turn_log.specs.Lock.{pass_number, pass_seen, IsPassOf};

use crate::counter::Counter;
use std::alloc::{AllocError, Global};
use std::sync::Wait;
use std::thread::{Threads, map_vec};
use turn_log::{Pass, Turn, Turns};

/// How the turns were shared.
#[derive(Clone, Copy, Debug)]
pub struct Shares {
    pub turns: u64,
    pub fewest: u64,
    pub most: u64,
}

/// One thread's pass.
#[derive(Drop)]
struct Runner {
    me: u32,
    pass: Pass<Counter>,
    ghost numbered: { pass_number pass ≡ me },
}

/// Takes turns until the counter has so many. It tells how many of these it took, and gives its
/// pass back, which has seen them.
fn run<R: Wait + Sync>(
    rt: &R,
    turn: &Turn<Counter>,
    runner: Runner,
    turns: u64,
) -> (u64, Pass<Counter>)
    requires { IsPassOf runner.pass turn.now }
    ensures { share runner.me turns (pass_seen result.1)
        ≡ share runner.me turns (pass_seen runner.pass) + result.0 }
{
    let Runner { me, pass } = runner;
    let mut seat = turn.seat(rt, pass);
    for taken in 0..u64::MAX {
        match seat.turn(me, (), &mut ()) {
            Ok(number) => {
                if turns <= number {
                    return (taken, seat.leave());
                }
            }
            Err(_) => return (taken, seat.leave()),
        }
    }
    (u64::MAX, seat.leave())
}

/// A runner for each pass.
fn runners(
    alloc: Global,
    turn: &Turn<Counter>,
    mut passes: Vec<Pass<Counter>>,
) -> Result<Vec<Runner>, AllocError>
    requires few { length passes.items < 2 ^ 32 }
    requires here { (i : ℕ) (pass : _) → get_elem? passes.items i ≡ some pass
        → (pass_number pass ≡ i) × IsPassOf pass turn.now }
    ensures all { IfOk result (λ list. length list.items ≡ length passes.items) }
    ensures each { IfOk result (λ list. (i : ℕ) (runner : _) → get_elem? list.items i ≡ some runner
        → IsPassOf runner.pass turn.now) }
{
    let mut list = Vec::with_capacity(alloc, passes.len())?;
    while let Some(pass) = passes.pop() {
        let me = passes.len() as u32;
        list.push(Runner { me, pass })?;
    }
    Ok(list)
}

/// Lets so many threads take turns until there were so many, and tells how many were taken in all,
/// and the fewest and the most that one thread took.
pub fn race<R: Threads + Wait + Sync>(
    rt: &R,
    alloc: Global,
    threads: u32,
    turns: u64,
) -> Result<Shares, AllocError>
    requires { 0 < threads }
    ensures { IfOk result (λ shares. (taken : List ℕ) × (length taken ≡ threads)
        × IsSum shares taken × AreBounds shares taken) }
{
    let (turn, passes) = Turn::open(alloc, Counter { turns: 0 }, threads)?;
    let lock = &turn;
    let list = runners(alloc, lock, passes)?;
    let taken = map_vec(
        rt,
        list,
        &|runner: Runner|
            requires { IsPassOf runner.pass lock.now }
        { run(rt, lock, runner, turns).0 },
    )?;
    Ok(shares_of(&taken))
}

/// The sum, the least and the greatest.
fn shares_of(taken: &[u64]) -> Shares
    ensures sum { IsSum result taken.now }
    ensures bounds { AreBounds result taken.now }
{
    let mut shares = Shares {
        turns: total(taken),
        fewest: u64::MAX,
        most: 0,
    };
    for count in taken {
        shares.fewest = shares.fewest.min(*count);
        shares.most = shares.most.max(*count);
    }
    shares
}

/// The sum, as far as 64 bits count.
fn total(taken: &[u64]) -> u64
    ensures { result ≡ min (sum taken.now) (2 ^ 64 - 1) }
{
    let mut total: u64 = 0;
    for count in taken {
        total = total.saturating_add(*count);
    }
    total
}
