//! The report of a recorded run with greetings.

ghost use Rattle.std.specs.Prelude.{◌≡◌, ℕ, List, [], map, IfOk, OnOk};
ghost use Rattle.cast_config.specs.Kept.{KeepsRules};
ghost use Rattle.session_model.specs.Headings.{Heading};
ghost use Rattle.session_model.specs.Reports.{AreHeadings};
ghost use Rattle.session_model.specs.Run.{after_events};
ghost use Rattle.session_script.specs.declared.Event.{Event as EventValue};
ghost use Rattle.caster_replay.specs.Kept.{StandsFor};
ghost use Rattle.caster_replay.specs.Scripts.{IsScriptFor, IsShort};
ghost use Rattle.caster_warm.specs.Parts.{sent_to};
ghost use Rattle.caster_warm.specs.Warm.{IsWarmReport, sent_by_events, told_with};

use crate::clearing::WarmRun;
use crate::parts::play_part;
use crate::sent::{AllSent, add_part, bytes_to};
use cast_config::Config;
use caster_replay::Run;
use session_core::{Connection, Connections, Report, Sent};
use session_script::Event;
use std::alloc::{AllocError, Global};
use std::collections::BTreeMap;

/// Plays the events of a script on a new run, and notes what they send each connection, with its
/// greetings.
fn play_all(
    alloc: Global,
    config: &Config,
    run: &mut WarmRun,
    sent: &mut AllSent,
    events: &[Event],
) -> Result<(), AllocError>
    requires kept { (cap : ℕ) × KeepsRules cap config.now }
    requires script { IsScriptFor config.now events.now }
    requires new_run { StandsFor config.now [] run.old }
    requires unsent { (n : ℕ) → sent_to n sent.old ≡ [] }
    ensures stands { OnOk result (StandsFor config.now events.now run.new) }
    ensures sent { (headings : ℕ → Heading) (n : ℕ) → AreHeadings events.now headings
        → OnOk result (sent_to n sent.new ≡ sent_by_events config.now headings
        (after_events config.now headings []) events.now n) }
{
    for event in events {
        let part = play_part(alloc, config, run, event)?;
        add_part(sent, part)?;
    }
    Ok(())
}

/// Plays the events of a script, and notes what they send each connection, with its greetings.
fn play_script(
    alloc: Global,
    config: &Config,
    events: &[Event],
) -> Result<(WarmRun, AllSent), AllocError>
    requires kept { (cap : ℕ) × KeepsRules cap config.now }
    requires script { IsScriptFor config.now events.now }
    ensures stands { IfOk result (λ played. StandsFor config.now events.now played.0) }
    ensures sent { (headings : ℕ → Heading) (n : ℕ) → AreHeadings events.now headings
        → IfOk result (λ played. sent_to n played.1 ≡ sent_by_events config.now headings
        (after_events config.now headings []) events.now n) }
{
    let mut run = Run::new(alloc, config)?;
    let mut sent = BTreeMap::new(alloc);
    let Ok(()) = play_all(alloc, config, &mut run, &mut sent, events) else {
        drop(run);
        drop(sent);
        return Err(AllocError);
    };
    Ok((run, sent))
}

/// What is told of a connection, with the bytes that it was sent.
fn outcome_with(
    alloc: Global,
    connection: Connection,
    sent: &AllSent,
) -> Result<Connection, AllocError>
    ensures { IfOk result (λ told. told ≡ told_with (λ n. sent_to n sent.now) connection) }
{
    let Connection {
        number,
        receipt,
        bytes: plain,
    } = connection;
    drop(plain);
    let bytes = bytes_to(alloc, number, sent)?;
    Ok(Connection {
        number,
        receipt,
        bytes: Sent::new(bytes),
    })
}

/// What is told of all connections, with the bytes that they were sent.
fn told_all(
    alloc: Global,
    connections: Vec<Connection>,
    sent: &AllSent,
) -> Result<Vec<Connection>, AllocError>
    ensures { IfOk result (λ list. list.items
        ≡ map (told_with (λ n. sent_to n sent.now)) connections.items) }
{
    let mut list = Vec::new(alloc);
    for connection in connections {
        let next = outcome_with(alloc, connection, sent)?;
        list.push(next)?;
    }
    Ok(list)
}

/// What is told of a run at its end, where the connections were sent these bytes.
fn report_of(
    alloc: Global,
    config: &Config,
    run: WarmRun,
    sent: &AllSent,
) -> Result<Report, AllocError>
    requires kept { (cap : ℕ) × KeepsRules cap config.now }
    requires run { (script : List EventValue) × IsShort script
        × StandsFor config.now script run }
    ensures { (script : List EventValue) → IsShort script → StandsFor config.now script run
        → ((headings : ℕ → Heading) (n : ℕ) → AreHeadings script headings
        → sent_to n sent.now ≡ sent_by_events config.now headings
        (after_events config.now headings []) script n)
        → IfOk result (λ report. IsWarmReport config.now script report) }
{
    let (plain, closed) = run.parts(alloc, config)?;
    let Ok(connections) = told_all(alloc, plain, sent) else {
        drop(closed);
        return Err(AllocError);
    };
    Ok(Report {
        connections: Connections::new(connections),
        closed,
    })
}

/// Plays the events of a script as a recorded run, over a station for each mountpoint. After bytes
/// that come in on a connection and begin a segment of a rover, and after what they are answered,
/// the rover is also sent the last permitted frames of the messages 1005, 1006, 1007, 1008, 1033
/// and 1230 (RTCM 10403.3) that were published before its last Join. These are not counted as sent.
///
/// All bytes that come in are fewer than 2^63.
///
/// # Errors
/// For want of memory, also where a session or a turn was halted by it.
pub fn warm(alloc: Global, config: &Config, events: &[Event]) -> Result<Report, AllocError>
    requires kept { (cap : ℕ) × KeepsRules cap config.now }
    requires script { IsScriptFor config.now events.now }
    ensures { IfOk result (λ report. IsWarmReport config.now events.now report) }
{
    let (run, sent) = play_script(alloc, config, events)?;
    report_of(alloc, config, run, &sent)
}
