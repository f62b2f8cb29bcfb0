//! What is opened, and what is reached, is what the record names. No contract can say so: the calls
//! go through `records`, where contracts say what the record is, and each test looks at what was
//! opened.
use crate::records::{dial_link, open_doors, opened_at, read_on};
use crate::streets::with_street;
use cast_io::{Arrived, Door, Failed, Street};
use caster_net::{Bells, FileStore, Halt, TcpDoor, TcpStreet};
use std::net::{TcpListener, TcpStream};
use std::test::Fail;
use std::{fs, io, process};

// The path of a file of this run, with this name.
fn path_of(rt: &HostRuntime, name: &str) -> Result<String, Fail> {
    let number = process::id(rt.process());
    Ok(format!(in rt.alloc(); "/tmp/caster_net_tests_{number}_{name}")?)
}

// What the first three bytes of the file of this path are by the store.
fn front_of(store: &mut FileStore<'_>, path: &str) -> Result<[u8; 3], Failed> {
    let mut front = [0u8; 3];
    opened_at(store, path)?;
    let _ = read_on(store, &mut front)?;
    Ok(front)
}

// The same of the files of two paths in turn, and of the second once both are gone. They hold `one`
// and `two` before.
fn fronts_of(rt: &HostRuntime, one: &str, two: &str) -> io::Result<[Result<[u8; 3], Failed>; 4]> {
    let mut store = FileStore::new(rt);
    fs::write(rt, one, b"one")?;
    fs::write(rt, two, b"two")?;
    let first = front_of(&mut store, one);
    let second = front_of(&mut store, two);
    let again = front_of(&mut store, one);
    fs::remove_file(rt, one)?;
    fs::remove_file(rt, two)?;
    let gone = front_of(&mut store, two);
    Ok([first, second, again, gone])
}

#[test]
fn a_store_opens_the_path_that_it_records(rt: HostRuntime) -> Result<(), Fail> {
    let (one, two) = (path_of(&rt, "one")?, path_of(&rt, "two")?);
    let fronts = fronts_of(&rt, &one, &two)?;
    assert_eq!(rt;
        fronts,
        [Ok(*b"one"), Ok(*b"two"), Ok(*b"one"), Err(Failed)]
    );
    Ok(())
}

// A listener at an address of this machine, which does not wait, and the address.
fn listener_of(rt: &HostRuntime) -> Result<(TcpListener, String), Fail> {
    let listener = TcpListener::bind(rt, "127.0.0.1:0")?;
    listener.set_nonblocking(true)?;
    let addr = listener.local_addr()?;
    Ok((listener, format!(in rt.alloc(); "{addr}")?))
}

// Whether a link is dialled at this address. It is hung up then.
fn is_dialled(rt: &HostRuntime, place: &str) -> bool {
    let bells = Bells::new(rt);
    let halt = Halt::new(rt);
    let mut street = TcpStreet::new(rt, &bells, &halt);
    match dial_link(&mut street, place) {
        Ok(link) => {
            street.hang_up(link);
            true
        }
        Err(_) => false,
    }
}

#[test]
fn a_street_dials_the_address_that_it_records(rt: HostRuntime) -> Result<(), Fail> {
    let (one, _) = listener_of(&rt)?;
    let (two, place) = listener_of(&rt)?;
    let is_dialled = is_dialled(&rt, &place);
    let reached = [is_dialled, one.accept().is_ok(), two.accept().is_ok()];
    assert_eq!(rt; reached, [true, false, true]);
    Ok(())
}

// An address at which nobody listens, and the one door of the street there.
fn door_of<'a>(
    rt: &HostRuntime,
    street: &mut TcpStreet<'a>,
) -> Result<(Option<TcpDoor<'a>>, String), Fail> {
    let (listener, place) = listener_of(rt)?;
    drop(listener);
    let door = match open_doors(street, &place, 1) {
        Ok(mut doors) => doors.pop(),
        Err(_) => None,
    };
    Ok((door, place))
}

// Whether a link came to the door.
fn is_reached(door: &mut TcpDoor<'_>) -> bool {
    door.rest();
    match door.accept() {
        Arrived::Link(link) => {
            door.hang_up(link);
            true
        }
        _ => false,
    }
}

// Whether a link comes to each of these doors where a client comes to this address.
fn reached_at(
    rt: &HostRuntime,
    one: &mut TcpDoor<'_>,
    two: &mut TcpDoor<'_>,
    place: &str,
) -> io::Result<[bool; 2]> {
    let peer = TcpStream::connect(rt, place)?;
    let reached = [is_reached(one), is_reached(two)];
    drop(peer);
    Ok(reached)
}

// Whether a link comes to the first and to the second of two doors where a client comes to the
// address of the second.
fn are_reached(rt: &HostRuntime, street: &mut TcpStreet<'_>) -> Result<[bool; 2], Fail> {
    let (one, _) = door_of(rt, street)?;
    let (two, place) = door_of(rt, street)?;
    let (Some(mut one), Some(mut two)) = (one, two) else {
        return Err(Fail::from("no doors"));
    };
    let reached = reached_at(rt, &mut one, &mut two, &place);
    street.shut(one);
    street.shut(two);
    Ok(reached?)
}

#[test]
fn a_street_opens_the_address_that_it_records(rt: HostRuntime) -> Result<(), Fail> {
    let reached = with_street(&rt, |street| are_reached(&rt, street))?;
    assert_eq!(rt; reached, [false, true]);
    Ok(())
}
