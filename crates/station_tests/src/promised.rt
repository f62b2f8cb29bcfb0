//! Recorded sessions whose reports are promised: calls of `caster_replay` and `caster_warm`, with
//! what the laws say of their reports.
ghost use Rattle.std.specs.Prelude.{ℕ, IfOk};
ghost use Rattle.cast_config.specs.Kept.{KeepsRules};
ghost use Rattle.caster_replay.specs.Scripts.{IsScriptFor};
ghost use Rattle.run_promise.specs.Promised.{IsPromised};
ghost use Rattle.warm_promise.specs.Greeted.{IsGreeted};

use cast_config::Config;
use caster_replay::replay;
use caster_warm::warm;
use run_promise::laws::reports_are_promised;
use session_core::Report;
use session_script::Event;
use std::alloc::{AllocError, Global};
use warm_promise::laws::greeted_reports_are_promised;

/// The report of a run without greetings, as it is promised.
pub(crate) fn promised_report(
    alloc: Global,
    config: &Config,
    events: &[Event],
) -> Result<Report, AllocError>
    requires kept { (cap : ℕ) × KeepsRules cap config.now }
    requires script { IsScriptFor config.now events.now }
    ensures { IfOk result (λ report. IsPromised config.now events.now report) }
{
    reports_are_promised();
    replay(alloc, config, events)
}

/// The report of a run with greetings, as it is promised.
pub(crate) fn greeted_report(
    alloc: Global,
    config: &Config,
    events: &[Event],
) -> Result<Report, AllocError>
    requires kept { (cap : ℕ) × KeepsRules cap config.now }
    requires script { IsScriptFor config.now events.now }
    ensures { IfOk result (λ report. IsGreeted config.now events.now report) }
{
    greeted_reports_are_promised();
    warm(alloc, config, events)
}
