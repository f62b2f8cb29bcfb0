//! The report of a script, as text.

ghost use Rattle.std.specs.Prelude.{ℕ, IfOk};
ghost use Rattle.cast_config.specs.Kept.{KeepsRules};
ghost use Rattle.caster_replay.specs.Scripts.{IsScriptFor};
ghost use Rattle.run_texts.specs.Texts.{IsRunText, IsWarmText};

use cast_config::Config;
use caster_replay::replay;
use caster_warm::warm;
use session_script::Event;
use session_text::report_text;
use std::alloc::{AllocError, Global};

/// The report of a script that is played over this configuration, as text. All bytes that come in
/// are fewer than 2^63.
///
/// # Errors
/// For want of memory.
pub fn run_text(alloc: Global, config: &Config, events: &[Event]) -> Result<Vec<u8>, AllocError>
    requires kept { (cap : ℕ) × KeepsRules cap config.now }
    requires script { IsScriptFor config.now events.now }
    ensures { IfOk result (λ text. IsRunText config.now events.now text.items) }
{
    let report = replay(alloc, config, events)?;
    let mut text = Vec::new(alloc);
    report_text(config, &report, &mut text)?;
    Ok(text)
}

/// The report of a script whose rovers are greeted, as text. A rover that joins is also sent the
/// last permitted frames of the messages 1005, 1006, 1007, 1008, 1033 and 1230 (RTCM 10403.3) that
/// were published before.
///
/// # Errors
/// For want of memory.
pub fn warm_text(alloc: Global, config: &Config, events: &[Event]) -> Result<Vec<u8>, AllocError>
    requires kept { (cap : ℕ) × KeepsRules cap config.now }
    requires script { IsScriptFor config.now events.now }
    ensures { IfOk result (λ text. IsWarmText config.now events.now text.items) }
{
    let greeted = warm(alloc, config, events)?;
    let mut text = Vec::new(alloc);
    report_text(config, &greeted, &mut text)?;
    Ok(text)
}
