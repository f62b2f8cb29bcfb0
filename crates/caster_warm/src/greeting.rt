//! The greeting of a rover.

ghost use Rattle.std.specs.Prelude.{◌≡◌, ◌++◌, ℕ, List, OnOk};
ghost use Rattle.cast_config.specs.declared.config.Config.{Config as ConfigValue};
ghost use Rattle.session_model.specs.Headings.{Heading};
ghost use Rattle.session_model.specs.Reports.{AreHeadings};
ghost use Rattle.session_model.specs.Run.{Histories, after_events};
ghost use Rattle.session_script.specs.declared.Event.{Event as EventValue};
ghost use Rattle.caster_replay.specs.Going.{rover_among};
ghost use Rattle.caster_replay.specs.Kept.{StandsFor};
ghost use Rattle.caster_warm.specs.Places.{WasClearedAt, greeting_since};
ghost use Rattle.caster_warm.specs.Warm.{greeting_for, greeting_text};

use crate::clearing::{WarmRun, kept_greeting};
use rover_session::push_frames;
use session_core::RoverState;
use std::alloc::AllocError;

/// Appends the greeting that the run keeps at the mountpoint of a rover in this state, if it keeps
/// one.
fn append_kept(run: &WarmRun, rover: RoverState, out: &mut Vec<u8>) -> Result<(), AllocError>
    ensures { (old : Histories) → WasClearedAt old run.now
        → OnOk result (out.new.items ≡ out.old.items
        ++ greeting_text rover.version (greeting_since old run.now rover.mount)) }
{
    match kept_greeting(run, rover.mount) {
        Some(frames) => push_frames(rover.version, frames, out),
        None => Ok(()),
    }
}

/// Appends the greeting of the connection of this number, if it is a rover and its newest segment
/// began since the run was cleared.
pub(crate) fn append_greeting(
    run: &WarmRun,
    number: u32,
    out: &mut Vec<u8>,
) -> Result<(), AllocError>
    requires run { (c : ConfigValue) × (script : List EventValue) × StandsFor c script run.now }
    ensures { (c : ConfigValue) (script later : List EventValue) (headings : ℕ → Heading)
        (old : Histories) → StandsFor c script run.now → AreHeadings (script ++ later) headings
        → WasClearedAt old run.now
        → OnOk result (out.new.items ≡ out.old.items ++ greeting_for c old
        (after_events c headings script).histories
        (rover_among c headings number (after_events c headings script).connections)) }
{
    match run.rover(number) {
        Some(rover) => append_kept(run, rover, out),
        None => Ok(()),
    }
}
