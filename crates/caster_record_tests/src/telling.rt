//! What is recorded of a session, as plain values.

ghost use Rattle.std.specs.Prelude.{◌≤◌};

use crate::fakes::FILE;
use cast_config::{Config, read_config};
use cast_io::{MemDoor, MemLink};
use caster_record::{Recorded, RecorderFault, record};
use session_core::Report;
use session_script::{Event, script_text};
use session_text::report_text;
use std::alloc::{AllocError, Global};
use std::sync::Wait;
use std::test::Fail;

/// The script's lines of the source's head.
pub(crate) const SOURCE_LINES: &[u8] = b"open 1\nin 1 \
534f5552434520736573616d6520414c5048410d0a\
536f757263652d4167656e743a204e5452495020746573740d0a0d0a\n";

/// The script of the source's head, the opening of the second connection, these lines and `stop`.
fn script_with(alloc: Global, lines: [&[u8]; 3]) -> Result<Vec<u8>, AllocError> {
    let [first, second, third] = lines;
    [SOURCE_LINES, b"open 2\n", first, second, third, b"stop\n"].concat(alloc)
}

/// What the caster of the file records of so many links, one or two, that come to this door.
pub(crate) fn record_at<R: Wait>(
    rt: &R,
    alloc: Global,
    door: &mut MemDoor,
    limit: u32,
) -> Result<Result<Recorded<MemLink>, RecorderFault>, Fail>
    requires { (1 ≤ limit) × (limit ≤ 2) }
{
    let config = read_config(alloc, FILE)?;
    Ok(record(rt, alloc, &config, limit, door))
}

/// The record of so many links, one or two, that come to this door.
pub(crate) fn recorded_at<R: Wait>(
    rt: &R,
    alloc: Global,
    mut door: MemDoor,
    limit: u32,
) -> Result<Recorded<MemLink>, Fail>
    requires { (1 ≤ limit) × (limit ≤ 2) }
{
    Ok(record_at(rt, alloc, &mut door, limit)??)
}

/// The script of these events.
pub(crate) fn script_of(alloc: Global, events: &[Event]) -> Result<Vec<u8>, AllocError> {
    let mut text = Vec::new(alloc);
    script_text(events, &mut text)?;
    Ok(text)
}

/// The text of this report of a caster. It has a total for each mountpoint and a sum for each
/// account.
fn text_in(alloc: Global, config: &Config, report: &Report) -> Result<Vec<u8>, Fail> {
    let closed = &report.closed;
    if closed.mounts.as_slice().len() != config.mount.as_slice().len()
        || closed.accounts.as_slice().len() != config.account.as_slice().len()
    {
        return Err(Fail::from("totals of other mountpoints or accounts"));
    }
    let mut text = Vec::new(alloc);
    report_text(config, report, &mut text)?;
    Ok(text)
}

/// The text of this report of the caster of the file.
pub(crate) fn text_of(alloc: Global, report: &Report) -> Result<Vec<u8>, Fail> {
    let config = read_config(alloc, FILE)?;
    text_in(alloc, &config, report)
}

/// What a link was given, and how often it failed.
#[derive(Drop)]
pub(crate) struct Given {
    pub(crate) bytes: Vec<u8>,
    pub(crate) faults: u64,
}

impl Given {
    /// It was given this, and failed so often.
    pub(crate) fn is(&self, bytes: &[u8], faults: u64) -> bool {
        self.bytes.as_slice() == bytes && self.faults == faults
    }
}

/// What the second link was given that came.
pub(crate) fn given_of(alloc: Global, recorded: &Recorded<MemLink>) -> Result<Given, Fail> {
    let link = recorded.links.get(1).ok_or("no second link")?;
    let bytes = link.bytes().to_vec(alloc)?;
    Ok(Given {
        bytes,
        faults: link.faults(),
    })
}

/// What is told of a source and a second link that were recorded: the script, the report, and what
/// the second link was given.
#[derive(Drop)]
pub(crate) struct RecordOutcome {
    pub(crate) script: Vec<u8>,
    pub(crate) report: Vec<u8>,
    pub(crate) second: Given,
}

impl RecordOutcome {
    /// Its script is that of the source's head, the opening of the second connection, these lines
    /// and `stop`.
    pub(crate) fn has_lines(&self, alloc: Global, lines: [&[u8]; 3]) -> bool {
        match script_with(alloc, lines) {
            Ok(script) => self.script.as_slice() == script.as_slice(),
            Err(_) => false,
        }
    }
}

/// What is told of this record.
fn told_in(alloc: Global, recorded: &Recorded<MemLink>) -> Result<RecordOutcome, Fail> {
    Ok(RecordOutcome {
        script: script_of(alloc, &recorded.events)?,
        report: text_of(alloc, &recorded.report)?,
        second: given_of(alloc, recorded)?,
    })
}

/// What is told of the two links that come to this door.
pub(crate) fn told_at<R: Wait>(
    rt: &R,
    alloc: Global,
    door: MemDoor,
) -> Result<RecordOutcome, Fail> {
    let recorded = recorded_at(rt, alloc, door, 2)?;
    told_in(alloc, &recorded)
}
