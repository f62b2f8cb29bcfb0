//! One target is tried after the other.

ghost use Rattle.std.specs.Prelude.{◌≡◌, ◌≢◌, true, false, ◌≤◌, ◌+◌, ◌⊎◌, ◌++◌, ℕ, List, [], length, map, take, sum_by, vec_len, vec_capacity, IfOk, IfErr, OnOk};
ghost use Rattle.std.specs.List.{All};
ghost use Rattle.cast_io.specs.Told.{Grew};
ghost use Rattle.ntrip_fetch.specs.Sinks.{CountsFor};
ghost use Rattle.ntrip_fetch.specs.Tries.{CanBeTried, HasStopped, HasTried, dial_of};

use crate::left::{FetchFault, Left, Try};
use crate::target::Target;
use crate::trying::try_one;
use cast_io::{Sink, Street};
use std::alloc::Global;
use std::sync::Wait;

/// Whether as many frames were written as were wanted.
fn is_enough(left: Left) -> bool
    ensures yes { result ≡ true → left ≡ Left.Enough }
    ensures no { result ≡ false → left ≢ Left.Enough }
{
    match left {
        Left::Enough => true,
        _ => false,
    }
}

/// Tries these targets, and puts each try behind those before.
fn fetch_from<N: Street, O: Sink, R: Wait>(
    rt: &R,
    alloc: Global,
    targets: &[Target],
    frames: u64,
    street: &mut N,
    out: &mut O,
    tries: &mut Vec<Try>,
) -> Result<(), FetchFault>
    requires targets { All CanBeTried targets.now }
    requires some { 1 ≤ frames }
    requires few { frames ≤ 1000000 }
    requires room { vec_len tries.old + length targets.now ≤ vec_capacity tries.old }
    ensures tried { OnOk result ((more : List Try) × (tries.new.items ≡ tries.old.items ++ more)
        × HasTried frames targets.now (N.told street.old) (N.told street.new)
        (O.taken out.old) (O.taken out.new) more) }
    ensures stopped { IfErr result (HasStopped frames targets.now (N.told street.old)
        (N.told street.new) (O.taken out.old) (O.taken out.new)) }
    ensures sink { CountsFor (O.faults out.old) (O.faults out.new) result }
{
    let Some((target, later)) = targets.split_first() else {
        return Ok(());
    };
    let tried = try_one(rt, alloc, target, frames, street, out)?;
    tries.push_reserved(tried);
    if is_enough(tried.left) {
        return Ok(());
    }
    fetch_from(rt, alloc, later, frames - tried.frames, street, out, tries)
}

/// Dials the targets in order, each once, and writes the frames that their casters send, as they
/// come, until `frames` of them were written in all or all targets were tried. Each link is hung
/// up at the street as it is left, and before a fault is answered.
///
/// It may wait, and what is said here holds where it returns.
///
/// # Errors
/// `Sink` only where the sink's count of faults rose: some first bytes of the frames that were
/// wanted were written. `Memory` at any time; then all frames of the links so far were written.
pub fn fetch<N: Street, O: Sink, R: Wait>(
    rt: &R,
    alloc: Global,
    targets: &[Target],
    frames: u64,
    street: &mut N,
    out: &mut O,
) -> Result<Vec<Try>, FetchFault>
    requires targets { All CanBeTried targets.now }
    requires some_target { 1 ≤ length targets.now }
    requires few_targets { length targets.now ≤ 8 }
    requires some { 1 ≤ frames }
    requires few { frames ≤ 1000000 }
    ensures asked { (n : ℕ) × Grew (N.told street.old).asked (N.told street.new).asked
        (map dial_of (take n targets.now)) × IfOk result (λ tries. n ≡ vec_len tries) }
    ensures tried { IfOk result (λ tries. HasTried frames targets.now (N.told street.old)
        (N.told street.new) (O.taken out.old) (O.taken out.new) tries.items) }
    ensures within { IfOk result (λ tries. sum_by (λ tried. tried.frames) tries.items ≤ frames) }
    ensures all { IfOk result (λ tries. (sum_by (λ tried. tried.frames) tries.items ≡ frames)
        ⊎ (vec_len tries ≡ length targets.now)) }
    ensures stopped { IfErr result (HasStopped frames targets.now (N.told street.old)
        (N.told street.new) (O.taken out.old) (O.taken out.new)) }
    ensures sink { CountsFor (O.faults out.old) (O.faults out.new) result }
{
    let mut tries = Vec::with_capacity(alloc, targets.len())?;
    fetch_from(rt, alloc, targets, frames, street, out, &mut tries)?;
    Ok(tries)
}
