//! The law of a caster that kept serving: the contract of a function that does nothing.

ghost use Rattle.std.specs.Prelude.{List};
ghost use Rattle.cast_io.specs.declared.yard_asked.YardAsked.{YardAsked};
ghost use Rattle.cast_io.specs.Yards.{YardTold};
ghost use Rattle.cast_console.specs.Consoles.{ConsoleTold};
ghost use Rattle.cast_config.specs.declared.config.Config.{Config};
ghost use Rattle.caster_keep.specs.declared.whole.Outcome.{Outcome};
ghost use Rattle.caster_keep.specs.Keeping.{HasEnded};
ghost use Rattle.keep_promise.specs.Keepers.{IsPromised};

use cast_io::{Door, Gate, Sink, Yard};

/// A caster that kept serving and ended is promised, whatever its callers stopped for and whether
/// its text is torn: so is each of its links, and its lines and totals are theirs.
pub fn keepers_are_promised<N: Yard>()
    ensures { (back_before back_now : List ConsoleTold) (c : Config) (made : List YardAsked)
        (old new : YardTold) (outcome : Outcome)
        (ended : HasEnded N.Gate.told N.Gate.over N.Gate.peer N.Gate.origin N.Notes.taken
        N.Notes.faults back_before back_now c made old new outcome)
        → IsPromised N.Gate.told N.Gate.over N.Gate.peer N.Gate.origin N.Notes.taken N.Notes.faults
        back_before back_now c made old new outcome ended }
{}
