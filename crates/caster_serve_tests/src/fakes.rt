//! Links, doors and streets in memory.

ghost use Rattle.std.specs.Prelude.{IfOk, IsTrue};
ghost use Rattle.std.specs.List.{list_all};
ghost use Rattle.cast_io.specs.FakeLinks.{is_new_link};
ghost use Rattle.cast_io.specs.FakeDoors.{is_new_door};

use cast_io::{MemDoor, MemLink, MemStreet};
use std::alloc::{AllocError, Global};
use test_support::{link_of, links_of, torn_link};

/// How a link fails.
#[derive(Clone, Copy)]
pub(crate) enum Failing {
    /// At the call of this number, from 1 over reads and writes alike.
    Call(u64),
    /// At the write of this number, from 1, of which it takes so many bytes, at most all.
    Write(u64, u64),
}

/// A link with such a peer that fails so.
pub(crate) fn failing_link(
    alloc: Global,
    pieces: &[&[u8]],
    failing: Failing,
) -> Result<MemLink, AllocError>
    ensures { IfOk result (λ link. IsTrue (is_new_link link)) }
{
    match failing {
        Failing::Call(call) => link_of(alloc, pieces, &[call]),
        Failing::Write(write, most) => torn_link(alloc, pieces, write, most),
    }
}

/// A door at which this link arrives, then nothing, then the other one. The accepts of these
/// numbers fail.
pub(crate) fn door_of(
    alloc: Global,
    first: MemLink,
    second: MemLink,
    fails: &[u64],
) -> Result<MemDoor, AllocError>
    requires first { IsTrue (is_new_link first) }
    requires second { IsTrue (is_new_link second) }
    ensures { IfOk result (λ door. IsTrue (is_new_door door)) }
{
    let arrivals = vec![in alloc; Some(first), None, Some(second)]?;
    MemDoor::new(alloc, arrivals, fails.to_vec(alloc)?)
}

/// A door at which a link with such a peer arrives, and then one that ends at once. The accepts of
/// these numbers fail.
pub(crate) fn door_with(
    alloc: Global,
    pieces: &[&[u8]],
    fails: &[u64],
) -> Result<MemDoor, AllocError>
    ensures { IfOk result (λ door. IsTrue (is_new_door door)) }
{
    let first = link_of(alloc, pieces, &[])?;
    let second = link_of(alloc, &[], &[])?;
    door_of(alloc, first, second, fails)
}

/// A street of three doors, of which this is the first. At the others two links arrive that end at
/// once.
pub(crate) fn street_at(alloc: Global, door: MemDoor) -> Result<MemStreet, AllocError>
    requires { IsTrue (is_new_door door) }
{
    let second = door_with(alloc, &[], &[])?;
    let third = door_with(alloc, &[], &[])?;
    let doors = vec![in alloc; door, second, third]?;
    MemStreet::new(alloc, doors, Vec::new(alloc), Vec::new(alloc))
}

/// Three doors at each of which a link with such a peer arrives and then one that ends at once. The
/// second door fails at the accepts of these numbers.
fn doors_of(
    alloc: Global,
    arriving: [&[&[u8]]; 3],
    accepts: &[u64],
) -> Result<Vec<MemDoor>, AllocError>
    ensures { IfOk result (λ doors. IsTrue (list_all is_new_door doors.items)) }
{
    let [first, second, third] = arriving;
    let first = door_with(alloc, first, &[])?;
    let second = door_with(alloc, second, accepts)?;
    let third = door_with(alloc, third, &[])?;
    Ok(vec![in alloc; first, second, third]?)
}

/// A street of three doors at each of which a link with such a peer arrives and then one that
/// ends at once, and of links with these peers. The second door fails at the accepts of these
/// numbers, and the street at its calls of these.
pub(crate) fn street_of(
    alloc: Global,
    arriving: [&[&[u8]]; 3],
    dialled: &[&[&[u8]]],
    accepts: &[u64],
    calls: &[u64],
) -> Result<MemStreet, AllocError> {
    let doors = doors_of(alloc, arriving, accepts)?;
    let links = links_of(alloc, dialled)?;
    MemStreet::new(alloc, doors, links, calls.to_vec(alloc)?)
}
