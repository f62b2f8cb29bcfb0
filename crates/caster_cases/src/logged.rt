//! A call of the caster, with what the laws say where its input and its files log what they gave.
ghost use Rattle.std.specs.Prelude.{◌≡◌, Some};
ghost use Rattle.caster_top.specs.Command.{texts};
ghost use Rattle.caster_top.specs.Done.{WasDone};
ghost use Rattle.caster_logged.specs.Inputs.{Steps, HasRead, HasReadFile};

use cast_console::Lodge;
use cast_io::{Sink, Source, Store, Yard};
use caster_logged::laws::what_was_done_is_logged;
use caster_top::caster;
use std::alloc::Global;
use std::sync::Wait;
use std::thread::Threads;

/// The status that the caster ends with. With 0 it did what its words ask with the bytes that the
/// logs of input and files have, where they log.
pub fn logged_status<R: Threads + Wait + Sync, S: Store, I: Source, O: Sink, N: Yard, Z: Lodge>(
    rt: &R,
    alloc: Global,
    words: &[String],
    store: &mut S,
    input: &mut I,
    out: &mut O,
    street: &mut N,
    lodge: &mut Z,
) -> u8
where
    N::Door: Send,
    N::Link: Send,
    N::Gate: Send,
    N::Notes: Drop + Send,
    Z::Console: Send,
    ensures done { result ≡ 0 → (first last opened closed : Steps)
        → I.log input.old ≡ Some first → I.log input.new ≡ Some last
        → S.log store.old ≡ Some opened → S.log store.new ≡ Some closed
        → WasDone (texts words.now) (HasRead first last) (HasReadFile opened closed)
        (N.told street.old) (N.told street.new) (O.taken out.old) (O.taken out.new) }
{
    what_was_done_is_logged();
    caster(rt, alloc, words, store, input, out, street, lodge)
}
