//! Links over loopback connections, and what their rests end with.
use crate::streets::with_street;
use cast_io::{Got, Link, Street};
use caster_net::{TcpLink, TcpStreet};
use std::io;
use std::io::{Read, Write};
use std::net::{TcpListener, TcpStream};
use std::test::Fail;
use std::time::Instant;

// The address that a listener has.
fn place_of(rt: &HostRuntime, listener: &TcpListener) -> Result<String, Fail> {
    let addr = listener.local_addr()?;
    Ok(format!(in rt.alloc(); "{addr}")?)
}

// A link that was dialled, and its peer.
pub(crate) fn pair<'a>(
    rt: &HostRuntime,
    street: &mut TcpStreet<'a>,
) -> Result<(TcpLink<'a>, TcpStream), Fail> {
    let listener = TcpListener::bind(rt, "127.0.0.1:0")?;
    let link = street.dial(&place_of(rt, &listener)?)?;
    let (peer, _) = listener.accept()?;
    Ok((link, peer))
}

// What a link reads before its peer sends, behind it, and when the peer has ended; what the peer
// reads of it; and whether a write to a peer that is gone fails in the end.
fn traffic_of(
    link: &mut TcpLink<'_>,
    mut peer: TcpStream,
) -> io::Result<([Got; 3], [u8; 2], bool)> {
    let nothing = link.read(&mut [0u8; 4]);
    let _ = peer.write(b"abc")?;
    link.rest();
    let some = link.read(&mut [0u8; 4]);
    let _ = link.write(b"de");
    let mut came = [0u8; 2];
    peer.read_exact(&mut came)?;
    drop(peer);
    link.rest();
    let end = link.read(&mut [0u8; 4]);
    let mut fails = false;
    for _ in 0..3 {
        fails = link.write(b"f").is_err();
        link.rest();
    }
    Ok(([nothing, some, end], came, fails))
}

// The same of a link that was dialled, which is hung up then.
fn traffic(
    rt: &HostRuntime,
    street: &mut TcpStreet<'_>,
) -> Result<([Got; 3], [u8; 2], bool), Fail> {
    let (mut link, peer) = pair(rt, street)?;
    let traffic = traffic_of(&mut link, peer);
    street.hang_up(link);
    Ok(traffic?)
}

#[test]
fn a_link_reads_what_comes_and_writes_at_once(rt: HostRuntime) -> Result<(), Fail> {
    let (got, came, fails) = with_street(&rt, |street| traffic(&rt, street))?;
    assert_eq!(rt; got, [Got::Idle, Got::Bytes(3), Got::End]);
    assert_eq!(rt; (came, fails), (*b"de", true));
    Ok(())
}

// Two links that were dialled, each with its peer: of a rover that reports, and of a source with
// its base.
#[derive(Drop)]
struct Pairs<'a> {
    rover: TcpLink<'a>,
    reports: TcpStream,
    source: TcpLink<'a>,
    base: TcpStream,
}

// Dials twice.
fn dial_twice<'a>(rt: &HostRuntime, street: &mut TcpStreet<'a>) -> Result<Pairs<'a>, Fail> {
    let (rover, reports) = pair(rt, street)?;
    let (source, base) = pair(rt, street)?;
    Ok(Pairs {
        rover,
        reports,
        source,
        base,
    })
}

// Whether a rest ends well before the longest one does.
fn is_short(rt: &HostRuntime, link: &mut TcpLink<'_>) -> io::Result<bool> {
    let begun = Instant::now(rt)?;
    link.rest();
    Ok(begun.elapsed(rt)?.as_millis() < 450)
}

// Has the source give a frame, and read once more behind it.
fn give(source: &mut TcpLink<'_>, base: &mut TcpStream) -> io::Result<()> {
    let _ = base.write(&[0xD3])?;
    source.rest();
    for _ in 0..2 {
        let _ = source.read(&mut [0u8; 4]);
    }
    Ok(())
}

// Whether the rest of a rover is short when it was told its mountpoint; behind it, where nothing
// happens; where its peer sends; and where a source at its mountpoint gave a frame.
fn rests_at_one(rt: &HostRuntime, two: &mut Pairs<'_>) -> io::Result<[bool; 4]> {
    two.rover.set_mount(1);
    let told = is_short(rt, &mut two.rover)?;
    let quiet = is_short(rt, &mut two.rover)?;
    let _ = two.reports.write(b"$")?;
    let reported = is_short(rt, &mut two.rover)?;
    let _ = two.rover.read(&mut [0u8; 4]);
    two.source.set_mount(1);
    give(&mut two.source, &mut two.base)?;
    Ok([told, quiet, reported, is_short(rt, &mut two.rover)?])
}

// The same of two links that were dialled, which are hung up then.
fn rests_of(rt: &HostRuntime, street: &mut TcpStreet<'_>) -> Result<[bool; 4], Fail> {
    let mut two = dial_twice(rt, street)?;
    let rests = rests_at_one(rt, &mut two);
    street.hang_up(two.rover);
    street.hang_up(two.source);
    Ok(rests?)
}

#[test]
fn a_rest_ends_with_the_peer_or_the_bell(rt: HostRuntime) -> Result<(), Fail> {
    let got = with_street(&rt, |street| rests_of(&rt, street))?;
    assert_eq!(rt; got, [true, false, true, true]);
    Ok(())
}

// Whether the rest of a rover at one mountpoint is short where a source at another gave a frame; as
// it is told that other one; behind it, where nothing happens; and where that source gave one more.
fn rests_at_two(rt: &HostRuntime, two: &mut Pairs<'_>) -> io::Result<[bool; 4]> {
    two.source.set_mount(2);
    two.rover.set_mount(1);
    two.rover.rest();
    give(&mut two.source, &mut two.base)?;
    let apart = is_short(rt, &mut two.rover)?;
    two.rover.set_mount(2);
    let moved = is_short(rt, &mut two.rover)?;
    let quiet = is_short(rt, &mut two.rover)?;
    give(&mut two.source, &mut two.base)?;
    Ok([apart, moved, quiet, is_short(rt, &mut two.rover)?])
}

// The same of two links that were dialled, which are hung up then.
fn rests_apart(rt: &HostRuntime, street: &mut TcpStreet<'_>) -> Result<[bool; 4], Fail> {
    let mut two = dial_twice(rt, street)?;
    let rests = rests_at_two(rt, &mut two);
    street.hang_up(two.rover);
    street.hang_up(two.source);
    Ok(rests?)
}

#[test]
fn each_mountpoint_has_a_bell(rt: HostRuntime) -> Result<(), Fail> {
    let got = with_street(&rt, |street| rests_apart(&rt, street))?;
    assert_eq!(rt; got, [false, true, false, true]);
    Ok(())
}

// Whether a link that was told no mountpoint rests short where frames are given. It is told one
// then.
fn rest_beside(rt: &HostRuntime, two: &mut Pairs<'_>) -> io::Result<bool> {
    give(&mut two.source, &mut two.base)?;
    let untold = is_short(rt, &mut two.rover)?;
    two.rover.set_mount(3);
    two.rover.rest();
    Ok(untold)
}

// The same of links that were dialled, and whether one that gave a frame rings for it as it is hung
// up.
fn rests_untold(rt: &HostRuntime, street: &mut TcpStreet<'_>) -> Result<[bool; 2], Fail> {
    let mut two = dial_twice(rt, street)?;
    let untold = rest_beside(rt, &mut two);
    street.hang_up(two.source);
    let rung = is_short(rt, &mut two.rover);
    street.hang_up(two.rover);
    Ok([untold?, rung?])
}

#[test]
fn a_link_without_a_mountpoint_rings_at_its_end(rt: HostRuntime) -> Result<(), Fail> {
    let got = with_street(&rt, |street| rests_untold(&rt, street))?;
    assert_eq!(rt; got, [false, true]);
    Ok(())
}

// Whether a link that was dialled sends small pieces at once.
fn is_prompt(rt: &HostRuntime, street: &mut TcpStreet<'_>) -> Result<bool, Fail> {
    let (link, _peer) = pair(rt, street)?;
    let is_prompt = link.stream().nodelay();
    street.hang_up(link);
    Ok(is_prompt?)
}

#[test]
fn small_pieces_are_sent_at_once(rt: HostRuntime) -> Result<(), Fail> {
    let is_prompt = with_street(&rt, |street| is_prompt(&rt, street))?;
    assert!(rt; is_prompt);
    Ok(())
}
