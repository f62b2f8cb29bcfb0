//! The law of recorded runs, and what it says of a segment's beginning: each the contract of a
//! function that does nothing.

ghost use Rattle.std.specs.Prelude.{ℕ, List, []};
ghost use Rattle.std.specs.List.{All};
ghost use Rattle.turn_log.specs.History.{History};
ghost use Rattle.mount_ring.specs.declared.call.RingCall.{RingCall};
ghost use Rattle.session_script.specs.declared.Event.{Event};
ghost use Rattle.session_script.specs.declared.ScriptKind.{ScriptKind};
ghost use Rattle.session_script.specs.Script.{IsSession};
ghost use Rattle.cast_config.specs.declared.config.Config.{Config};
ghost use Rattle.cast_config.specs.Kept.{KeepsRules};
ghost use Rattle.session_model.specs.Reports.{IsReport};
ghost use Rattle.run_promise.specs.Calls.{Call, AreAllCalls, ReadOn, segments_of};
ghost use Rattle.run_promise.specs.Promised.{IsPromised};
ghost use Rattle.run_promise.specs.Begun.{IsBegun};

use session_core::Report;

/// The report of a recorded session is promised, where the configuration keeps its rules: there is
/// one history for each mountpoint, by which each connection's calls, segments, sums and bytes are
/// those that its bytes select.
pub fn reports_are_promised()
    ensures { (c : Config) (cap : ℕ) (kind : ScriptKind) (script : List Event) (r : Report)
        → KeepsRules cap c → IsSession kind script → IsReport c script r → IsPromised c script r }
{}

/// Each segment that a caller's calls give was begun by a Join of that caller with the segment's
/// filter, and begins behind all frames that its mountpoint's history had published by then.
pub fn segments_begin_behind_all()
    ensures { (c : Config) (histories : List (History RingCall)) (me : ℕ) (calls : List Call)
        → AreAllCalls c histories me calls → ReadOn [] calls
        → All (IsBegun histories me) (segments_of calls) }
{}
