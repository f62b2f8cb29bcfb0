//! A caster that keeps serving: it is told by lines that are written as they are known.
ghost use Rattle.std.specs.Prelude.{◌≡◌, ◌∷◌, [], Result};
ghost use Rattle.cast_io.specs.Causes.{Rose};
ghost use Rattle.cast_io.specs.Told.{Grew};
ghost use Rattle.cast_config.specs.Kept.{KeepsRules};
ghost use Rattle.caster_keep.specs.Keeping.{HasKept};
ghost use Rattle.caster_keep.specs.declared.whole.KeepFault.{KeepFault as Fault};
ghost use Rattle.caster_keep.specs.declared.whole.Outcome.{Outcome as Came};
ghost use Rattle.caster_top.specs.Given.{FileCame};
ghost use Rattle.caster_top.specs.Keeping.{EndOfKeeping, HasKeeping, KeptEnd};
ghost use Rattle.caster_top.specs.Kept.{KeepsFiles, LeavesOutput};

use crate::answers::Answer;
use crate::config_answers::config_at;
use crate::keep_words::Keep;
use crate::top::{end_with, write_answer};
use cast_config::Config;
use cast_console::Lodge;
use cast_io::{Door, Gate, Sink, Store, Street, Yard};
use caster_keep::{KeepFault, Outcome, Stop, keep};
use std::alloc::Global;
use std::sync::Wait;
use std::thread::Threads;

/// The status where all was written.
const WHOLE: u8 = 0;

/// The status where a line could not be written.
const WRITE_FAULT: u8 = 5;

/// Keeps serving over the configuration in a file, and answers the status that the program ends
/// with. The store is asked for that file once, and the yard only where it holds a configuration.
pub fn keep_serving<R: Threads + Wait + Sync, S: Store, N: Yard, Z: Lodge, O: Sink>(
    rt: &R,
    alloc: Global,
    words: Keep<'_>,
    store: &mut S,
    street: &mut N,
    lodge: &mut Z,
    out: &mut O,
) -> u8
where
    N::Link: Send,
    N::Gate: Send,
    N::Notes: Drop + Send,
    Z::Console: Send,
    ensures keeping { HasKeeping
        (HasKept N.Gate.told N.Gate.over N.Gate.peer N.Gate.origin N.Notes.taken N.Notes.faults
        (Z.back lodge.old) (Z.back lodge.new))
        (FileCame (S.store store.old).files (S.log store.old) (S.log store.new))
        words.entry.config.now words.entry.addr.now words.entry.quiet
        (N.kept street.old) (N.kept street.new)
        (Rose (S.faults store.old) (S.faults store.new))
        (O.taken out.old) (O.taken out.new) (O.faults out.old) (O.faults out.new) result }
    ensures asked { Grew (S.store store.old).asked (S.store store.new).asked
        (words.entry.config.now ∷ []) }
    ensures kept { KeepsFiles S.store S.faults S.reads 8388610 store.old store.new }
    ensures kept_output { LeavesOutput (O.faults out.old) (O.faults out.new) result }
    ensures street { N.told street.new ≡ N.told street.old }
{
    match config_at(alloc, words.config, store) {
        Ok(config) => {
            let status = keep_over(rt, alloc, &config, words, street, lodge, out);
            drop(config);
            status
        }
        Err(answer) => end_with(answer, out),
    }
}

// Keeps serving over this configuration, and answers the status that the program ends with.
fn keep_over<R: Threads + Wait + Sync, N: Yard, Z: Lodge, O: Sink>(
    rt: &R,
    alloc: Global,
    config: &Config,
    words: Keep<'_>,
    street: &mut N,
    lodge: &mut Z,
    out: &mut O,
) -> u8
where
    N::Link: Send,
    N::Gate: Send,
    N::Notes: Drop + Send,
    Z::Console: Send,
    requires { KeepsRules 1000000 config.now }
    ensures kept { (came_to : Result Came Fault)
        × HasKept N.Gate.told N.Gate.over N.Gate.peer N.Gate.origin N.Notes.taken N.Notes.faults
        (Z.back lodge.old) (Z.back lodge.new) config.now words.entry.addr.now words.entry.quiet
        (N.kept street.old) (N.kept street.new) came_to
        × EndOfKeeping came_to (O.taken out.old) (O.taken out.new)
        (O.faults out.old) (O.faults out.new) result }
    ensures kept_output { LeavesOutput (O.faults out.old) (O.faults out.new) result }
    ensures street { N.told street.new ≡ N.told street.old }
{
    let came_to = keep(rt, alloc, config, words.addr, words.quiet, street, lodge);
    end_of_keeping(came_to, out)
}

// Writes what is left to be written of a caster that kept serving and came to this, and answers
// the status.
fn end_of_keeping<O: Sink>(came_to: Result<Outcome, KeepFault>, out: &mut O) -> u8
    ensures ends { EndOfKeeping came_to (O.taken out.old) (O.taken out.new)
        (O.faults out.old) (O.faults out.new) result }
    ensures kept_output { LeavesOutput (O.faults out.old) (O.faults out.new) result }
{
    match came_to {
        Ok(outcome) => end_of_outcome(outcome.is_torn, outcome.stop, out),
        Err(KeepFault::Network) => write_answer(&Answer::NetworkFault, out),
        Err(KeepFault::Memory) => write_answer(&Answer::Memory, out),
    }
}

// Writes the line of a caster that kept serving until this stop, if it has one, and answers the
// status.
fn end_of_outcome<O: Sink>(is_torn: bool, stop: Stop, out: &mut O) -> u8
    ensures ends { KeptEnd is_torn stop (O.taken out.old) (O.taken out.new)
        (O.faults out.old) (O.faults out.new) result }
    ensures kept_output { LeavesOutput (O.faults out.old) (O.faults out.new) result }
{
    if is_torn {
        return WRITE_FAULT;
    }
    match stop {
        Stop::Over => WHOLE,
        Stop::Failed => write_answer(&Answer::NetworkFault, out),
    }
}
