//! What other casters answer. What is expected is written by hand from the form of their answers.

use crate::caster::{FRAME_A, SOURCE, Wanted, ends, expect_closed, expect_two_from};
use crate::{Act, SessionStart, Who};
use session_core::{Ending, Last};
use std::alloc::Global;
use std::process::Abort;
use std::test::Fail;

const ASKED: &[u8] = b"GET /UP HTTP/1.0\r
User-Agent: NTRIP lapcast/1.0\r
\r
";

// Relays that are answered so end so.
fn expect_answered(rt: &impl Abort, alloc: Global, rows: &[(&[u8], Ending)]) -> Result<(), Fail> {
    for (answer, ending) in rows {
        let wanted = ends(*ending, ASKED);
        expect_closed(
            rt,
            alloc,
            SessionStart::Relay,
            &[*answer],
            Last::End,
            wanted,
        )?;
    }
    Ok(())
}

const CHUNKED: [(&[u8], Ending); 2] = [
    (
        b"HTTP/1.1 200 OK\r\nTransfer-Encoding: chunked\r\n\r\nz",
        Ending::BadChunk { at: 0 },
    ),
    (
        b"HTTP/1.1 200 OK\r\nTransfer-Encoding: chunked\r\n\r\n0\r\n\r\n",
        Ending::SourceEnd { claim: 1 },
    ),
];

// The empty line behind the answer's first line is no part of a frame.
#[test]
fn an_answer_is_published(rt: HostRuntime) -> Result<(), Fail> {
    let wanted = Wanted {
        junk: 2,
        ..ends(Ending::SourceEnd { claim: 1 }, ASKED)
    };
    let pieces = [b"ICY 200 OK\r\n\r\n".as_slice(), FRAME_A];
    expect_closed(
        &rt,
        rt.alloc(),
        SessionStart::Relay,
        &pieces,
        Last::End,
        wanted,
    )?;
    expect_answered(&rt, rt.alloc(), &CHUNKED)
}

const OTHERS: [(&[u8], Ending); 5] = [
    (
        b"HTTP/1.1 404 Not Found\r\n\r\n",
        Ending::Upstream { status: 404 },
    ),
    (b"SOURCETABLE 200 OK\r\n", Ending::UpstreamTable),
    (b"HELLO\r\n", Ending::BadHead),
    (
        b"HTTP/1.1 200 OK\r\nTransfer-Encoding: gzip\r\n\r\n",
        Ending::Coding,
    ),
    (b"ICY 200 OK", Ending::NoHead),
];

#[test]
fn other_answers_end_a_relay(rt: HostRuntime) -> Result<(), Fail> {
    let long = [b'a'; 8192];
    expect_answered(&rt, rt.alloc(), &OTHERS)?;
    expect_answered(&rt, rt.alloc(), &[(long.as_slice(), Ending::LongHead)])
}

#[test]
fn a_relay_finds_its_mountpoint_held(rt: HostRuntime) -> Result<(), Fail> {
    let script = [
        (Who::Second, Act::In(SOURCE)),
        (Who::First, Act::In(b"ICY 200 OK\r\n")),
    ];
    let taken = Ending::Taken {
        caller: 2,
        claim: 1,
    };
    let first = ends(taken, ASKED);
    let second = ends(Ending::SourceEnd { claim: 1 }, b"ICY 200 OK\r\n\r\n");
    expect_two_from(&rt, rt.alloc(), SessionStart::Relay, &script, first, second)
}
