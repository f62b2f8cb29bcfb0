//! What a session that is made of a number comes to.

ghost use Rattle.std.specs.Prelude.{◌≡◌, ◌≤◌, ℕ, IfOk};
ghost use Rattle.session_make.specs.Rounds.{events_of};
ghost use Rattle.cast_config.specs.Kept.{KeepsRules};
ghost use Rattle.session_model.specs.Reports.{IsReport};
ghost use Rattle.run_texts.specs.Texts.{bare_report, made_text};

use crate::summary::summary;
use cast_config::Config;
use caster_replay::replay;
use session_core::Report;
use session_make::make;
use std::alloc::{AllocError, Global};

/// The capacity of the ring over which a session is played.
const RING: u32 = 64;

/// Makes the session of this seed, and plays it over this configuration.
fn made_report(
    alloc: Global,
    config: &Config,
    seed: u64,
    frames: u32,
    rovers: u32,
) -> Result<Report, AllocError>
    requires kept { (cap : ℕ) × KeepsRules cap config.now }
    requires frames { (1 ≤ frames) × (frames ≤ 10000) }
    requires rovers { (1 ≤ rovers) × (rovers ≤ 64) }
    ensures run { IfOk result (IsReport config.now (events_of seed frames rovers)) }
    ensures bare { IfOk result (λ report.
        report ≡ bare_report config.now (events_of seed frames rovers)) }
{
    let events = make(alloc, seed, frames, rovers)?;
    let report = replay(alloc, config, &events)?;
    Ok(report)
}

/// Makes the session of this seed with so many frames, 1 to 10,000, and so many rovers, 1 to 64,
/// plays it over one mountpoint with a ring of 64 frames, and says how many laps there were and
/// what it came to.
///
/// # Errors
/// For want of memory.
pub fn made_text(alloc: Global, seed: u64, frames: u32, rovers: u32) -> Result<Vec<u8>, AllocError>
    requires frames { (1 ≤ frames) × (frames ≤ 10000) }
    requires rovers { (1 ≤ rovers) × (rovers ≤ 64) }
    ensures { IfOk result (λ text. text.items ≡ made_text seed frames rovers) }
{
    let config = Config::bare(alloc, RING)?;
    let report = made_report(alloc, &config, seed, frames, rovers)?;
    summary(alloc, &config, &report)
}
