//! Doors and streets in memory, and runs of them: calls as words, and what they answer as words.
ghost use Rattle.std.specs.Prelude.{IfOk, IsTrue};
ghost use Rattle.std.specs.List.{list_all};
ghost use Rattle.cast_io.specs.FakeLinks.{is_new_link};
ghost use Rattle.cast_io.specs.FakeDoors.{is_new_door};

use crate::runs::{read_link, say, say_taken};
use cast_io::{Arrived, Door, Link, MemDoor, MemLink, MemStreet, Street, StreetFault};
use std::alloc::{AllocError, Global};
use std::test::Fail;

// A link whose peer has ended, and whose calls of these numbers fail.
fn link_of(alloc: Global, fails: &[u64]) -> Result<MemLink, Fail>
    ensures { IfOk result (λ link. IsTrue (is_new_link link)) }
{
    Ok(MemLink::new(alloc, Vec::new(alloc), fails.to_vec(alloc)?))
}

// Two links, of which the second fails at its second call.
fn two_links(alloc: Global) -> Result<Vec<MemLink>, Fail>
    ensures { IfOk result (λ links. IsTrue (list_all is_new_link links.items)) }
{
    let first = link_of(alloc, &[])?;
    let second = link_of(alloc, &[2])?;
    Ok(vec![in alloc; first, second]?)
}

// A door at which one link arrives, then nothing, then another one.
pub(crate) fn door_of(alloc: Global, fails: &[u64]) -> Result<MemDoor, Fail>
    ensures { IfOk result (λ door. IsTrue (is_new_door door)) }
{
    let first = link_of(alloc, &[])?;
    let second = link_of(alloc, &[])?;
    let arrivals = vec![in alloc; Some(first), None, Some(second)]?;
    Ok(MemDoor::new(alloc, arrivals, fails.to_vec(alloc)?)?)
}

// A street of two doors, of which the first fails at its first accept, and of two links.
pub(crate) fn street_of(alloc: Global, fails: &[u64]) -> Result<MemStreet, Fail> {
    let first = door_of(alloc, &[1])?;
    let second = door_of(alloc, &[])?;
    let doors = vec![in alloc; first, second]?;
    let links = two_links(alloc)?;
    Ok(MemStreet::new(alloc, doors, links, fails.to_vec(alloc)?)?)
}

// Appends a number below ten.
pub(crate) fn say_number(out: &mut Vec<u8>, number: u64) -> Result<(), AllocError> {
    say(out, &[b'0'.saturating_add(number.min(9) as u8)])
}

// Appends what the links took, one after the other, or `none` where they are told no longer.
fn say_marks(out: &mut Vec<u8>, links: Option<&[MemLink]>) -> Result<(), AllocError> {
    let Some(links) = links else {
        return say(out, b"none");
    };
    for link in links {
        say(out, link.bytes())?;
    }
    Ok(())
}

// Appends the faults of each door, or `none` where they are told no longer.
fn say_doors(out: &mut Vec<u8>, doors: Option<&[MemDoor]>) -> Result<(), AllocError> {
    let Some(doors) = doors else {
        return say(out, b"none");
    };
    for door in doors {
        say_number(out, door.faults())?;
    }
    Ok(())
}

// Appends why a street refused a call.
pub(crate) fn say_fault(out: &mut Vec<u8>, fault: StreetFault) -> Result<(), AllocError> {
    match fault {
        StreetFault::Failed => say(out, b"failed"),
        _ => say(out, b"other"),
    }
}

// Links in the order in which they came. Each was written its number to, by which it is known
// again.
#[derive(Drop)]
struct Links {
    links: Vec<MemLink>,
    came: u8,
}

impl Links {
    // Takes a link that came.
    fn take(&mut self, mut link: MemLink, out: &mut Vec<u8>) -> Result<(), AllocError> {
        self.came = self.came.saturating_add(1);
        say_taken(out, link.write(&[b'0'.saturating_add(self.came)]))?;
        self.links.push(link)?;
        Ok(())
    }

    // What arrives at the door.
    fn accept(&mut self, door: &mut MemDoor, out: &mut Vec<u8>) -> Result<(), AllocError> {
        match door.accept() {
            Arrived::Link(link) => self.take(link, out),
            Arrived::Idle => say(out, b"idle"),
            Arrived::Failed => say(out, b"failed"),
        }
    }

    // A dial.
    fn dial(&mut self, street: &mut MemStreet, out: &mut Vec<u8>) -> Result<(), AllocError> {
        match street.dial("a") {
            Ok(link) => self.take(link, out),
            Err(fault) => say_fault(out, fault),
        }
    }
}

// One call of a door: an `accept`, or the last link comes back, or one that never was there.
fn call_door(
    alloc: Global,
    door: &mut MemDoor,
    links: &mut Links,
    call: &str,
    out: &mut Vec<u8>,
) -> Result<(), Fail> {
    match call {
        "accept" => links.accept(door, out)?,
        "back" => door.hang_up(links.links.pop().ok_or("no link")?),
        "stray" => door.hang_up(link_of(alloc, &[])?),
        "marks" => say_marks(out, door.back())?,
        _ => say_number(out, door.faults())?,
    }
    Ok(())
}

// What these calls of a door answer.
pub(crate) fn run_door(alloc: Global, mut door: MemDoor, calls: &str) -> Result<Vec<u8>, Fail> {
    let mut out = Vec::new(alloc);
    let mut links = Links {
        links: Vec::new(alloc),
        came: 0,
    };
    for call in calls.split(' ') {
        call_door(alloc, &mut door, &mut links, call, &mut out)?;
    }
    Ok(out)
}

// Opens as many doors as the digit says, and keeps them with these. The answer is how many came.
fn open(
    street: &mut MemStreet,
    digit: &str,
    doors: &mut Vec<MemDoor>,
    out: &mut Vec<u8>,
) -> Result<(), AllocError> {
    let opened = match street.open("here", digit.parse::<u32>().unwrap_or(0)) {
        Ok(opened) => opened,
        Err(fault) => return say_fault(out, fault),
    };
    say_number(out, opened.len() as u64)?;
    for door in opened {
        doors.push(door)?;
    }
    Ok(())
}

// Appends the faults of a street, and how many links came back with faults.
fn say_faults(out: &mut Vec<u8>, street: &MemStreet) -> Result<(), AllocError> {
    say_number(out, street.faults())?;
    say_number(out, street.link_faults())
}

// One call of a street about its links: a dial, a read of the last link, its coming back, or that
// of one that never was there.
fn call_links(
    alloc: Global,
    street: &mut MemStreet,
    links: &mut Links,
    call: &str,
    out: &mut Vec<u8>,
) -> Result<(), Fail> {
    match call {
        "dial" => links.dial(street, out)?,
        "read" => {
            if let Some(link) = links.links.last_mut() {
                read_link(link, 2, out)?;
            }
        }
        "back" => street.hang_up(links.links.pop().ok_or("no link")?),
        "stray" => street.hang_up(link_of(alloc, &[])?),
        "marks" => say_marks(out, street.links_back())?,
        _ => say_faults(out, street)?,
    }
    Ok(())
}

// Whether an accept at the last of these doors fails.
fn is_failed(doors: &mut Vec<MemDoor>) -> bool {
    match doors.last_mut() {
        Some(door) => matches!(door.accept(), Arrived::Failed),
        None => false,
    }
}

// One call of a street about its doors: an `accept` at the last one, its coming back, or that of
// one that never was there, or an `open`.
fn call_doors(
    alloc: Global,
    street: &mut MemStreet,
    doors: &mut Vec<MemDoor>,
    call: &str,
    out: &mut Vec<u8>,
) -> Result<(), Fail> {
    match call {
        "fail" => say(
            out,
            if is_failed(doors) {
                b"failed"
            } else {
                b"other"
            },
        )?,
        "shut" => street.shut(doors.pop().ok_or("no door")?),
        "stray-door" => street.shut(door_of(alloc, &[])?),
        "doors" => say_doors(out, street.doors_back())?,
        digit => open(street, digit, doors, out)?,
    }
    Ok(())
}

// What these calls of a street answer.
pub(crate) fn run_street(
    alloc: Global,
    street: &mut MemStreet,
    calls: &str,
) -> Result<Vec<u8>, Fail> {
    let mut out = Vec::new(alloc);
    let mut doors = Vec::new(alloc);
    let mut links = Links {
        links: Vec::new(alloc),
        came: 0,
    };
    for call in calls.split(' ') {
        match call {
            "dial" | "read" | "back" | "stray" | "marks" | "faults" => {
                call_links(alloc, street, &mut links, call, &mut out)?;
            }
            _ => call_doors(alloc, street, &mut doors, call, &mut out)?,
        }
    }
    Ok(out)
}
