//! Casters that are promised: calls of `caster_keep`, with what the law says of each.
ghost use Rattle.std.specs.Prelude.{ℕ, IfOk};
ghost use Rattle.cast_config.specs.Kept.{KeepsRules};
ghost use Rattle.caster_keep.specs.Gates.{made_of};
ghost use Rattle.caster_keep.specs.Keeping.{HasEnded};
ghost use Rattle.keep_promise.specs.Keepers.{IsPromised};

use cast_config::Config;
use cast_console::Lodge;
use cast_io::{Door, Gate, Sink, Street, Yard};
use caster_keep::{KeepFault, Outcome, keep};
use keep_promise::laws::keepers_are_promised;
use std::alloc::Global;
use std::sync::Wait;
use std::thread::Threads;

/// What a caster came to that keeps serving. Where it served, all of its links, its lines and its
/// totals are as they are promised, whatever it stopped for.
pub(crate) fn promised_keep<Y: Yard, Z: Lodge, R: Threads + Wait + Sync>(
    rt: &R,
    alloc: Global,
    config: &Config,
    addr: &str,
    quiet: u32,
    yard: &mut Y,
    lodge: &mut Z,
) -> Result<Outcome, KeepFault>
where
    Y::Link: Send,
    Y::Gate: Send,
    Y::Notes: Drop + Send,
    Z::Console: Send,
    requires kept { (cap : ℕ) × KeepsRules cap config.now }
    ensures { IfOk result (λ outcome.
        (ended : HasEnded Y.Gate.told Y.Gate.over Y.Gate.peer Y.Gate.origin Y.Notes.taken
        Y.Notes.faults (Z.back lodge.old) (Z.back lodge.new) config.now
        (made_of config.now addr.now quiet) (Y.kept yard.old) (Y.kept yard.new) outcome)
        × IsPromised Y.Gate.told Y.Gate.over Y.Gate.peer Y.Gate.origin Y.Notes.taken Y.Notes.faults
        (Z.back lodge.old) (Z.back lodge.new) config.now (made_of config.now addr.now quiet)
        (Y.kept yard.old) (Y.kept yard.new) outcome ended) }
{
    keepers_are_promised::<Y>();
    keep(rt, alloc, config, addr, quiet, yard, lodge)
}
