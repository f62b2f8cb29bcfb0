//! What a run comes to, in few lines.

ghost use Rattle.std.specs.Prelude.{◌≡◌, ◌+◌, length, IfOk};
ghost use Rattle.std.specs.List.{sum_by};
ghost use Rattle.rover_cursor.specs.declared.segment.Segment.{Segment as SegmentValue};
ghost use Rattle.run_texts.specs.Texts.{laps_of, summary};

use cast_config::Config;
use rover_cursor::Segment;
use session_core::{Connection, Report};
use session_text::closed_text;
use std::alloc::{AllocError, Global};

/// Two counts added up. No run has so many laps that the sum is not a number of its type.
///
/// # Errors
/// Where it were not.
fn both(count: u128, more: u128) -> Result<u128, AllocError>
    ensures { IfOk result (λ all. all ≡ count + more) }
{
    match count.checked_add(more) {
        Some(all) => Ok(all),
        None => Err(AllocError),
    }
}

/// How many laps these segments have.
fn laps_of(segments: &[Segment]) -> Result<u128, AllocError>
    ensures { IfOk result (λ laps.
        laps ≡ sum_by (λ (segment : SegmentValue). length segment.laps) segments.now) }
{
    let mut laps: u128 = 0;
    for segment in segments {
        laps = both(laps, segment.laps.as_slice().len() as u128)?;
    }
    Ok(laps)
}

/// How many laps there were.
fn laps_in(connections: &[Connection]) -> Result<u128, AllocError>
    ensures { IfOk result (λ laps. laps ≡ sum_by laps_of connections.now) }
{
    let mut laps: u128 = 0;
    for told in connections {
        laps = both(laps, laps_of(told.receipt.segments.as_slice())?)?;
    }
    Ok(laps)
}

/// How many laps there were, and then what the mountpoints and the accounts came to. There is a
/// total for each mountpoint and a sum for each named account.
///
/// # Errors
/// For want of memory.
pub(crate) fn summary(
    alloc: Global,
    config: &Config,
    report: &Report,
) -> Result<Vec<u8>, AllocError>
    requires mounts { length report.now.closed.mounts ≡ length config.now.mount }
    requires accounts { length report.now.closed.accounts ≡ length config.now.account }
    ensures { IfOk result (λ text. text.items ≡ summary config.now report.now) }
{
    let laps = laps_in(report.connections.as_slice())?;
    let mut text = format!(in alloc; "laps {laps}\n")?.into_bytes();
    closed_text(config, &report.closed, &mut text)?;
    Ok(text)
}
