//! The report of a recorded run.

ghost use Rattle.std.specs.Prelude.{ℕ, IfOk};
ghost use Rattle.cast_config.specs.Kept.{KeepsRules};
ghost use Rattle.session_model.specs.Reports.{IsReport};
ghost use Rattle.caster_replay.specs.Kept.{StandsFor};
ghost use Rattle.caster_replay.specs.Scripts.{IsScriptFor};

use crate::run::Run;
use cast_config::Config;
use mount_ring::Ring;
use session_core::Report;
use session_script::Event;
use std::alloc::{AllocError, Global};
use turn_log::Desk;

/// The run of the events of a script, which are played one after the other over the same desks as
/// by `replay`. The connections that are still open then stay open.
///
/// All bytes that come in are fewer than 2^63.
///
/// # Errors
/// For want of memory, also where a session or a turn was halted by it.
pub fn play_script(
    alloc: Global,
    config: &Config,
    events: &[Event],
) -> Result<Run<Desk<Ring>>, AllocError>
    requires kept { (cap : ℕ) × KeepsRules cap config.now }
    requires script { IsScriptFor config.now events.now }
    ensures { IfOk result (λ run. StandsFor config.now events.now run) }
{
    let mut run = Run::new(alloc, config)?;
    for event in events {
        let Ok(()) = run.play(alloc, config, event) else {
            drop(run);
            return Err(AllocError);
        };
    }
    Ok(run)
}

/// Plays the events of a script over one desk a mountpoint, made as the configuration says, and one
/// of the book of accounts, and reports what each connection was sent and came to, in increasing
/// order of number, and what the mountpoints and accounts came to. A connection that ends by itself
/// is closed at once, and those that are open after the last event come to their end in increasing
/// order of number.
///
/// All bytes that come in are fewer than 2^63.
///
/// # Errors
/// For want of memory, also where a session or a turn was halted by it.
pub fn replay(alloc: Global, config: &Config, events: &[Event]) -> Result<Report, AllocError>
    requires kept { (cap : ℕ) × KeepsRules cap config.now }
    requires script { IsScriptFor config.now events.now }
    ensures { IfOk result (λ report. IsReport config.now events.now report) }
{
    let run = play_script(alloc, config, events)?;
    run.finish(alloc, config)
}
