//! The lines of links and of how things stand, by the calls of `keep_lines` alone.

use crate::fakes::config_of;
use cast_text::MountName;
use caster_press::Line;
use keep_lines::{
    Asks, Entered, LinkNumber, Peer, Wants, asks_line, entered_line, lap_line, link_line,
    now_end_line, now_mount_line, now_workers_line,
};
use mount_ring::Lap;
use ntrip_head::Version;
use std::alloc::{AllocError, Global};
use std::test::Fail;

/// The link whose lines these are.
const LINK: LinkNumber = LinkNumber {
    caller: 3,
    count: 17,
};

/// The text of these lines.
fn text_of(alloc: Global, lines: &[Line]) -> Result<Vec<u8>, AllocError> {
    let mut text = Vec::new(alloc);
    for line in lines {
        text.extend_from_slice(line.bytes())?;
    }
    Ok(text)
}

// A rover of the mountpoint NEAR, from its address to a lap.
const TOLD: &[u8] = b"3.17 from 203.0.113.9:51234
3.17 asks 2 rover NEAR rover1
3.17 rover rover1
3.17 lap 20 30 94 10
";

#[test]
fn a_link_is_told_by_its_lines(rt: HostRuntime) -> Result<(), Fail> {
    let alloc = rt.alloc();
    let config = config_of(alloc)?;
    let near = MountName::of(alloc, b"NEAR")?;
    let asks = Asks {
        version: Version::Two,
        wants: Wants::Rover(&near),
        user: b"rover1",
    };
    let lap = Lap {
        from: 20,
        to: 30,
        published: 94,
        overrun: 10,
    };
    let lines = [
        link_line(LINK, Peer::From(b"203.0.113.9:51234")),
        asks_line(LINK, asks),
        entered_line(&config, LINK, Entered::Rover { account: 1 }),
        lap_line(LINK, &lap),
    ];
    assert!(rt; text_of(alloc, &lines)?.as_slice() == TOLD);
    Ok(())
}

// An address of two words, none, and a user, an account and a mountpoint that there are not.
const DASHES: &[u8] = b"3.17 from a_b_
3.17 from -
3.17 asks 1 table - -
3.17 rover -
3.17 source - 4
";

#[test]
fn what_is_not_there_is_a_dash(rt: HostRuntime) -> Result<(), Fail> {
    let alloc = rt.alloc();
    let config = config_of(alloc)?;
    let asks = Asks {
        version: Version::One,
        wants: Wants::Table,
        user: b"no name",
    };
    let lines = [
        link_line(LINK, Peer::From(b"a b\x7f")),
        link_line(LINK, Peer::Unknown),
        asks_line(LINK, asks),
        entered_line(&config, LINK, Entered::Rover { account: 0 }),
        entered_line(&config, LINK, Entered::Source { mount: 1, claim: 4 }),
    ];
    assert!(rt; text_of(alloc, &lines)?.as_slice() == DASHES);
    Ok(())
}

// A mountpoint that is held, one of which nothing can be told, and the workers.
const NOW: &[u8] = b"now mount ALPHA 120 4
now mount ALPHA - -
now workers 1 1
now end
";

#[test]
fn how_things_stand_is_told_by_its_lines(rt: HostRuntime) -> Result<(), Fail> {
    let alloc = rt.alloc();
    let config = config_of(alloc)?;
    let lines = [
        now_mount_line(&config, 0, Some(120), Some(4)),
        now_mount_line(&config, 0, None, None),
        now_workers_line(&config, 1),
        now_end_line(),
    ];
    assert!(rt; text_of(alloc, &lines)?.as_slice() == NOW);
    Ok(())
}
