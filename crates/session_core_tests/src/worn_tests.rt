//! Places that refuse a turn.

use crate::caster::{
    BOOK_WORN, FRAME_A, ICY, NEVER, RING_WORN, ROVER, Refused, SOURCE, Wanted, ends, expect_refused,
};
use crate::{Act, SessionStart, Who};
use session_core::Ending;
use std::alloc::Global;
use std::process::Abort;
use std::test::Fail;

const RING: Ending = Ending::Worn { turns: RING_WORN };

const BOOK: Ending = Ending::Worn { turns: BOOK_WORN };

// The ring refuses the turn of this number.
fn ring(turn: u64) -> Refused {
    Refused {
        ring: turn,
        book: NEVER,
    }
}

// The book refuses the turn of this number.
fn book(turn: u64) -> Refused {
    Refused {
        ring: NEVER,
        book: turn,
    }
}

// Which turn is refused, what happens, and what is wanted of the connection.
type Row<'a> = (Refused, &'a [(Who, Act<'a>)], Wanted<'a>);

// Connections that start so, of which a turn was refused, came to what is wanted of each.
fn expect_worn(
    rt: &impl Abort,
    alloc: Global,
    how: SessionStart,
    rows: &[Row],
) -> Result<(), Fail> {
    for (refused, script, wanted) in rows {
        expect_refused(rt, alloc, how, *refused, *script, *wanted)?;
    }
    Ok(())
}

const SENDS: [(Who, Act); 2] = [
    (Who::First, Act::In(SOURCE)),
    (Who::First, Act::In(FRAME_A)),
];

const SENDS_JUNK: [(Who, Act); 3] = [
    (Who::First, Act::In(SOURCE)),
    (Who::First, Act::In(b"xyz")),
    (Who::First, Act::In(FRAME_A)),
];

// Its claim, its frame, and its release.
#[test]
fn a_turn_of_a_source_is_refused(rt: HostRuntime) -> Result<(), Fail> {
    let unpublished = ends(RING, ICY);
    let junk = Wanted {
        junk: 3,
        ..unpublished
    };
    let unreleased = Wanted {
        settled: false,
        ..ends(Ending::SourceEnd { claim: 1 }, ICY)
    };
    let rows = [
        (ring(0), SENDS.as_slice(), ends(RING, b"")),
        (ring(1), SENDS.as_slice(), unpublished),
        (ring(1), SENDS_JUNK.as_slice(), junk),
        (ring(2), SENDS.as_slice(), unreleased),
    ];
    expect_worn(&rt, rt.alloc(), SessionStart::Head, &rows)
}

const JOINS: [(Who, Act); 2] = [(Who::First, Act::In(ROVER)), (Who::First, Act::Turn(16))];

// Its entry, its join, its read, and its leave.
#[test]
fn a_turn_of_a_rover_is_refused(rt: HostRuntime) -> Result<(), Fail> {
    let inside = Wanted {
        entered: true,
        ..ends(RING, ICY)
    };
    let left_inside = Wanted {
        entered: true,
        settled: false,
        ..ends(Ending::RoverEnd, ICY)
    };
    let rows = [
        (book(0), JOINS.as_slice(), ends(BOOK, b"")),
        (ring(0), JOINS.as_slice(), inside),
        (ring(1), JOINS.as_slice(), inside),
        (book(1), JOINS.as_slice(), left_inside),
    ];
    expect_worn(&rt, rt.alloc(), SessionStart::Head, &rows)
}

const ASKED: &[u8] = b"GET /UP HTTP/1.0\r\nUser-Agent: NTRIP lapcast/1.0\r\n\r\n";

const ANSWERS: [(Who, Act); 2] = [
    (Who::First, Act::In(b"ICY 200 OK\r\n")),
    (Who::First, Act::In(FRAME_A)),
];

// Its claim, its frame, and its release.
#[test]
fn a_turn_of_a_relay_is_refused(rt: HostRuntime) -> Result<(), Fail> {
    let worn = ends(RING, ASKED);
    let unreleased = Wanted {
        settled: false,
        ..ends(Ending::SourceEnd { claim: 1 }, ASKED)
    };
    let rows = [
        (ring(0), ANSWERS.as_slice(), worn),
        (ring(1), ANSWERS.as_slice(), worn),
        (ring(2), ANSWERS.as_slice(), unreleased),
    ];
    expect_worn(&rt, rt.alloc(), SessionStart::Relay, &rows)
}
