//! The text of a report. What is expected is written by hand from the form of its lines.

ghost use Rattle.std.specs.Prelude.{◌≡◌, IfOk, length};

use cast_config::Config;
use caster_accounts::Sum;
use mount_ring::{Cursor, Lap};
use rover_cursor::{Laps, Segment};
use session_core::{
    Closed, Connection, Connections, Ending, MountTotal, MountTotals, Receipt, Report, Segments,
    Sent, Sums,
};
use session_text::report_text;
use std::alloc::Global;
use std::test::Fail;

// Two frames, whose payloads are the numbers 1005 and 1077 alone.
const FRAMES: [u8; 16] = [
    0xD3, 0x00, 0x02, 0x3E, 0xD0, 0xA4, 0xE0, 0x00, 0xD3, 0x00, 0x02, 0x43, 0x50, 0x06, 0xA2, 0x7E,
];

const TEXT: &[u8] = b"x
connection 1 source-end 1
junk 3
bytes -
connection 2 rover-end
junk 0
segment A 0 7 2 5
lap 0 5 6 5
bytes d300023ed0a4e000d30002435006a27e
connection 10 full 8 8
junk 0
bytes -
mount A 7 1
total 1 2 5
";

// A receipt of this ending.
fn receipt(ending: Ending, junk: u64, segments: Segments) -> Receipt {
    Receipt {
        ending,
        segments,
        sent: 0,
        overrun: 0,
        junk,
        entered: false,
        settled: true,
    }
}

// Adds a connection without segments to which nothing was sent.
fn push_silent(
    alloc: Global,
    connections: &mut Vec<Connection>,
    number: u32,
    ending: Ending,
    junk: u64,
) -> Result<(), Fail> {
    let segments = Segments::new(Vec::new(alloc));
    connections.push(Connection {
        number,
        receipt: receipt(ending, junk, segments),
        bytes: Sent::new(Vec::new(alloc)),
    })?;
    Ok(())
}

// A segment at the first mountpoint, with a lap.
fn segment(alloc: Global) -> Result<Segment, Fail> {
    let lap = Lap {
        from: 0,
        to: 5,
        published: 6,
        overrun: 5,
    };
    let mut laps = Vec::new(alloc);
    laps.push(lap)?;
    Ok(Segment {
        mount: 0,
        from: 0,
        to: 7,
        sent: 2,
        overrun: 5,
        laps: Laps::new(laps),
        cursor: Cursor {
            next: 7,
            passed: 7,
            filter: 0,
        },
    })
}

// What a caster of one mountpoint came to.
fn close_caster(alloc: Global) -> Result<Closed, Fail>
    ensures mounts { IfOk result (λ closed. length closed.mounts ≡ 1) }
    ensures accounts { IfOk result (λ closed. length closed.accounts ≡ 0) }
{
    let total = MountTotal {
        published: 7,
        claims: 1,
    };
    let mut mounts = Vec::new(alloc);
    mounts.push(total)?;
    Ok(Closed {
        mounts: MountTotals::new(mounts),
        accounts: Sums::new(Vec::new(alloc)),
        total: Sum {
            sessions: 1,
            sent: 2,
            overrun: 5,
        },
    })
}

// Adds a rover with a segment.
fn push_rover(alloc: Global, connections: &mut Vec<Connection>) -> Result<(), Fail> {
    let mut segments = Vec::new(alloc);
    segments.push(segment(alloc)?)?;
    let bytes = Vec::from_slice(alloc, &FRAMES)?;
    connections.push(Connection {
        number: 2,
        receipt: receipt(Ending::RoverEnd, 0, Segments::new(segments)),
        bytes: Sent::new(bytes),
    })?;
    Ok(())
}

// A source, a rover, and one that was refused.
fn connections(alloc: Global) -> Result<Connections, Fail> {
    let mut connections = Vec::new(alloc);
    let claim = Ending::SourceEnd { claim: 1 };
    push_silent(alloc, &mut connections, 1, claim, 3)?;
    push_rover(alloc, &mut connections)?;
    let full = Ending::Full { busy: 8, cap: 8 };
    push_silent(alloc, &mut connections, 10, full, 0)?;
    Ok(Connections::new(connections))
}

const ROVER: &[u8] = b"connection 2 rover-end
junk 0
segment A 0 7 2 5
lap 0 5 6 5
segment A 0 7 2 5
lap 0 5 6 5
segment A 0 7 2 5
lap 0 5 6 5
bytes d300023ed0a4e000d30002435006a27e
";

// A rover with three segments.
fn rover(alloc: Global) -> Result<Connection, Fail> {
    let mut segments = Vec::new(alloc);
    for _ in 0..3 {
        segments.push(segment(alloc)?)?;
    }
    let bytes = Vec::from_slice(alloc, &FRAMES)?;
    Ok(Connection {
        number: 2,
        receipt: receipt(Ending::RoverEnd, 0, Segments::new(segments)),
        bytes: Sent::new(bytes),
    })
}

// A report of these connections, of a caster of one mountpoint.
fn report_of(alloc: Global, connections: Connections) -> Result<Report, Fail>
    ensures mounts { IfOk result (λ report. length report.closed.mounts ≡ 1) }
    ensures accounts { IfOk result (λ report. length report.closed.accounts ≡ 0) }
{
    Ok(Report {
        connections,
        closed: close_caster(alloc)?,
    })
}

// The text of such a report behind these bytes.
fn text_of(alloc: Global, report: &Report, before: &[u8]) -> Result<Vec<u8>, Fail>
    requires mounts { length report.now.closed.mounts ≡ 1 }
    requires accounts { length report.now.closed.accounts ≡ 0 }
{
    let config = Config::bare(alloc, 2)?;
    let mut text = Vec::from_slice(alloc, before)?;
    report_text(&config, report, &mut text)?;
    Ok(text)
}

// The text of a report of a hundred such rovers.
fn long_text(alloc: Global) -> Result<Vec<u8>, Fail> {
    let mut connections = Vec::new(alloc);
    for _ in 0..100 {
        connections.push(rover(alloc)?)?;
    }
    text_of(
        alloc,
        &report_of(alloc, Connections::new(connections))?,
        b"",
    )
}

#[test]
fn long_reports_are_written_whole(rt: HostRuntime) -> Result<(), Fail> {
    let mut wanted = Vec::new(rt.alloc());
    for _ in 0..100 {
        wanted.extend_from_slice(ROVER)?;
    }
    wanted.extend_from_slice(b"mount A 7 1\ntotal 1 2 5\n")?;
    assert_eq!(rt; long_text(rt.alloc())?.as_slice(), wanted.as_slice());
    Ok(())
}

// The text of a report of a source, a rover and one that was refused, behind a line.
fn short_text(alloc: Global) -> Result<Vec<u8>, Fail> {
    text_of(alloc, &report_of(alloc, connections(alloc)?)?, b"x\n")
}

#[test]
fn each_connection_has_its_lines(rt: HostRuntime) -> Result<(), Fail> {
    assert_eq!(rt; short_text(rt.alloc())?.as_slice(), TEXT);
    Ok(())
}
