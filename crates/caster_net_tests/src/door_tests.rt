//! Doors at a loopback address, and what their rests end with.
use crate::streets::with_street;
use cast_io::{Arrived, Door, Got, Link, Street, StreetFault};
use caster_net::{TcpDoor, TcpLink, TcpStreet};
use std::io;
use std::io::{ErrorKind, Read, Write};
use std::net::{TcpListener, TcpStream};
use std::test::Fail;
use std::time::Instant;

// How often a rest is timed.
const TIMES: u32 = 10;

// An address of this machine at which nobody listens.
fn free_place(rt: &HostRuntime) -> Result<String, Fail> {
    let addr = TcpListener::bind(rt, "127.0.0.1:0")?.local_addr()?;
    Ok(format!(in rt.alloc(); "{addr}")?)
}

// Two doors at this address.
fn two_doors<'a>(
    rt: &HostRuntime,
    street: &mut TcpStreet<'a>,
    place: &str,
) -> (Vec<TcpDoor<'a>>, bool) {
    let doors = match street.open(place, 2) {
        Ok(doors) => doors,
        Err(_) => Vec::new(rt.alloc()),
    };
    let is_taken = matches!(street.open(place, 1), Err(StreetFault::Failed));
    (doors, is_taken)
}

// Whether a door finds a link from which nothing is to be read yet. The link is hung up then.
fn finds_idle_link(door: &mut TcpDoor<'_>) -> bool {
    match door.accept() {
        Arrived::Link(mut link) => {
            let got = link.read(&mut [0u8; 1]);
            door.hang_up(link);
            got == Got::Idle
        }
        _ => false,
    }
}

// Whether a door finds nothing before a peer dials, one link that does not wait behind it, and
// nothing behind that; and how many bytes the peer reads when the link was hung up.
fn arrivals_of(
    rt: &HostRuntime,
    door: &mut TcpDoor<'_>,
    place: &str,
) -> Result<([bool; 3], usize), Fail> {
    let before = matches!(door.accept(), Arrived::Idle);
    let mut peer = TcpStream::connect(rt, place)?;
    door.rest();
    let is_idle = finds_idle_link(door);
    let behind = matches!(door.accept(), Arrived::Idle);
    Ok(([before, is_idle, behind], peer.read(&mut [0u8; 1])?))
}

// The same of the last of two doors; how many others there were; and whether the place was taken
// then.
fn lives_of(
    rt: &HostRuntime,
    street: &mut TcpStreet<'_>,
    place: &str,
) -> Result<(([bool; 3], usize), (usize, bool)), Fail> {
    let (mut doors, is_taken) = two_doors(rt, street, place);
    let Some(mut door) = doors.pop() else {
        return Err(Fail::from("no doors"));
    };
    let count = doors.len();
    drop(doors);
    let arrivals = arrivals_of(rt, &mut door, place);
    street.shut(door);
    Ok((arrivals?, (count, is_taken)))
}

#[test]
fn a_door_gives_each_link_once(rt: HostRuntime) -> Result<(), Fail> {
    let place = free_place(&rt)?;
    let (arrivals, doors) = with_street(&rt, |street| lives_of(&rt, street, &place))?;
    assert_eq!(rt; doors, (1, true));
    assert_eq!(rt; arrivals, ([true, true, true], 0));
    Ok(())
}

// How long a rest of a door takes, in microseconds.
fn rest_of(rt: &HostRuntime, door: &mut TcpDoor<'_>) -> io::Result<u128> {
    let begun = Instant::now(rt)?;
    door.rest();
    Ok(begun.elapsed(rt)?.as_micros())
}

// How long a rest of a door takes where another client comes, whose link is hung up then.
fn rest_with_client(rt: &HostRuntime, door: &mut TcpDoor<'_>, place: &str) -> io::Result<u128> {
    let other = TcpStream::connect(rt, place)?;
    let took = rest_of(rt, door);
    let came = door.accept();
    drop(other);
    if let Arrived::Link(link) = came {
        door.hang_up(link);
    }
    took
}

// How long rests of one door take, in microseconds: where nothing comes, where a client does, and
// where the link of one client gets a byte.
fn rest_thrice(
    rt: &HostRuntime,
    door: &mut TcpDoor<'_>,
    place: &str,
    client: &mut TcpStream,
    link: &mut TcpLink<'_>,
) -> io::Result<[u128; 3]> {
    let quiet = rest_of(rt, door)?;
    let came = rest_with_client(rt, door, place)?;
    let _ = client.write(b"$")?;
    let sent = rest_of(rt, door)?;
    let _ = link.read(&mut [0u8; 4]);
    Ok([quiet, came, sent])
}

// How long so many of each take in all, beside the link of this client.
fn rests_beside(
    rt: &HostRuntime,
    door: &mut TcpDoor<'_>,
    place: &str,
    client: &mut TcpStream,
    link: &mut TcpLink<'_>,
) -> io::Result<[u128; 3]> {
    let mut took = [0u128; 3];
    for _ in 0..TIMES {
        let each = rest_thrice(rt, door, place, client, link)?;
        for (sum, one) in took.iter_mut().zip(each) {
            *sum = sum.saturating_add(one);
        }
    }
    Ok(took)
}

// The same of one door alone, whose one client was accepted before.
fn rests_alone(rt: &HostRuntime, door: &mut TcpDoor<'_>, place: &str) -> io::Result<[u128; 3]> {
    let mut client = TcpStream::connect(rt, place)?;
    door.rest();
    let Arrived::Link(mut link) = door.accept() else {
        return Err(io::Error::from(ErrorKind::NotConnected));
    };
    let took = rests_beside(rt, door, place, &mut client, &mut link);
    door.hang_up(link);
    took
}

// The same of a street's one door, which is shut then.
fn rests_of_one(
    rt: &HostRuntime,
    street: &mut TcpStreet<'_>,
    place: &str,
) -> Result<[u128; 3], Fail> {
    let Ok(mut doors) = street.open(place, 1) else {
        return Err(Fail::from("no doors"));
    };
    let Some(mut door) = doors.pop() else {
        return Err(Fail::from("no door"));
    };
    let took = rests_alone(rt, &mut door, place);
    street.shut(door);
    Ok(took?)
}

#[test]
fn a_rest_of_one_door_ends_with_a_client_and_with_bytes(rt: HostRuntime) -> Result<(), Fail> {
    let place = free_place(&rt)?;
    let [quiet, came, sent] = with_street(&rt, |street| rests_of_one(&rt, street, &place))?;
    assert!(rt; came < quiet);
    assert!(rt; sent < quiet);
    Ok(())
}
