//! What each event of a run sends its connection.

ghost use Rattle.std.specs.Prelude.{◌≡◌, ◌≤◌, ◌++◌, ◌∷◌, [], ℕ, List, drop, length, IfOk, OnOk};
ghost use Rattle.cast_config.specs.declared.config.Config.{Config as ConfigValue};
ghost use Rattle.cast_config.specs.Kept.{KeepsRules};
ghost use Rattle.session_model.specs.Headings.{Heading};
ghost use Rattle.session_model.specs.Reports.{AreHeadings};
ghost use Rattle.session_model.specs.Run.{World, after_events};
ghost use Rattle.session_script.specs.declared.Event.{Event as EventValue};
ghost use Rattle.caster_replay.specs.Kept.{MayCome, StandsFor, sent_by_run};
ghost use Rattle.caster_warm.specs.Numbers as numbers;
ghost use Rattle.caster_warm.specs.Parts as told;
ghost use Rattle.caster_warm.specs.Places.{WasClearedAt};
ghost use Rattle.caster_warm.specs.Warm.{greeting_by, sent_by_event};

use crate::clearing::{WarmRun, clear};
use crate::events::{brings_bytes, number_of};
use crate::greeting::append_greeting;
use cast_config::Config;
use session_script::Event;
use std::alloc::{AllocError, Global};

/// What one event sends the connection of this number, with its greeting.
#[derive(Drop)]
pub(crate) struct Part {
    pub(crate) number: u32,
    pub(crate) bytes: Vec<u8>,
}

/// How many bytes the connection of this number was sent so far.
fn sent_len(run: &WarmRun, number: u32) -> usize
    requires run { (c : ConfigValue) × (script : List EventValue) × StandsFor c script run.now }
    ensures { result ≡ length (sent_by_run run.now number) }
{
    run.sent(number).len()
}

/// What it was sent behind its first `before` bytes.
fn sent_behind(
    alloc: Global,
    run: &WarmRun,
    number: u32,
    before: usize,
) -> Result<Vec<u8>, AllocError>
    requires run { (c : ConfigValue) × (script : List EventValue) × StandsFor c script run.now }
    requires within { before ≤ length (sent_by_run run.now number) }
    ensures { IfOk result (λ bytes. bytes.items ≡ drop before (sent_by_run run.now number)) }
{
    let bytes = Vec::from_slice(alloc, &run.sent(number)[before..])?;
    Ok(bytes)
}

/// Appends the greeting of the event's connection, if bytes came in by it. It was played just now,
/// and the run was cleared before it.
fn append_greeting_by(run: &WarmRun, event: &Event, out: &mut Vec<u8>) -> Result<(), AllocError>
    requires run { (c : ConfigValue) × (script : List EventValue) × StandsFor c script run.now }
    ensures { (c : ConfigValue) (script later : List EventValue) (headings : ℕ → Heading)
        (before : World) → StandsFor c script run.now → AreHeadings (script ++ later) headings
        → WasClearedAt before.histories run.now
        → OnOk result (out.new.items ≡ out.old.items ++ greeting_by c headings before event.now
        (after_events c headings script) (numbers.number_of event.now)) }
{
    if brings_bytes(event) {
        append_greeting(run, number_of(event), out)
    } else {
        Ok(())
    }
}

/// Plays one event more of a run with greetings, and notes what its connection is sent.
///
/// # Errors
/// For want of memory, also where a session or a turn was halted by it. Then the run is of no
/// further use.
pub(crate) fn play_part(
    alloc: Global,
    config: &Config,
    run: &mut WarmRun,
    event: &Event,
) -> Result<Part, AllocError>
    requires kept { (cap : ℕ) × KeepsRules cap config.now }
    requires run { (script : List EventValue) × StandsFor config.now script run.old
        × MayCome config.now script event.now }
    ensures played { (script : List EventValue) → StandsFor config.now script run.old
        → MayCome config.now script event.now
        → OnOk result (StandsFor config.now (script ++ event.now ∷ []) run.new) }
    ensures part { (script later : List EventValue) (headings : ℕ → Heading) (n : ℕ)
        → StandsFor config.now script run.old → MayCome config.now script event.now
        → AreHeadings (script ++ event.now ∷ later) headings
        → IfOk result (λ part. told.part_to n part
        ≡ sent_by_event config.now headings (after_events config.now headings script) event.now
        n) }
{
    let number = number_of(event);
    let before = sent_len(run, number);
    clear(alloc, run);
    run.play(alloc, config, event)?;
    let mut bytes = sent_behind(alloc, run, number, before)?;
    append_greeting_by(run, event, &mut bytes)?;
    Ok(Part { number, bytes })
}
