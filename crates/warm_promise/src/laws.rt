//! The law of recorded runs in which rovers are greeted: the contract of a function that does
//! nothing.

ghost use Rattle.std.specs.Prelude.{ℕ, List};
ghost use Rattle.session_script.specs.declared.Event.{Event};
ghost use Rattle.session_script.specs.declared.ScriptKind.{ScriptKind};
ghost use Rattle.session_script.specs.Script.{IsSession};
ghost use Rattle.cast_config.specs.declared.config.Config.{Config};
ghost use Rattle.cast_config.specs.Kept.{KeepsRules};
ghost use Rattle.caster_warm.specs.Warm.{IsWarmReport};
ghost use Rattle.warm_promise.specs.Greeted.{IsGreeted};

use session_core::Report;

/// The report of a recorded session with greetings is promised, where the configuration keeps its
/// rules: but for the bytes it keeps the promise of a run without greetings, and each rover was
/// sent its segments in order, each with its greeting before its frames.
pub fn greeted_reports_are_promised()
    ensures { (c : Config) (cap : ℕ) (kind : ScriptKind) (script : List Event) (r : Report)
        → KeepsRules cap c → IsSession kind script → IsWarmReport c script r
        → IsGreeted c script r }
{}
