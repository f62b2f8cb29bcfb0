//! The street of a case, its doors and its links.
ghost use Rattle.std.specs.Prelude.{IsTrue, IfOk};
ghost use Rattle.std.specs.List.{list_all};
ghost use Rattle.cast_io.specs.FakeLinks.{has_bytes, is_new_link};
ghost use Rattle.cast_io.specs.FakeDoors.{is_new_arrival, is_new_door};

use crate::gates::yard_of;
use crate::numbers::{number, numbers};
use crate::parts::Case;
use cast_io::{ByteString, LinkStep, MemDoor, MemLink, MemStreet};
use std::alloc::{AllocError, Global};

/// The street of the case.
pub fn street_of(alloc: Global, case: &Case<'_>) -> Result<MemStreet, AllocError> {
    let doors = doors_of(alloc, case)?;
    let links = links_of(alloc, case)?;
    let calls = numbers(alloc, case.setting("street").unwrap_or(""))?;
    let street = MemStreet::new(alloc, doors, links, calls)?;
    Ok(street.with_yard(yard_of(alloc, case)?))
}

/// Its doors.
fn doors_of(alloc: Global, case: &Case<'_>) -> Result<Vec<MemDoor>, AllocError>
    ensures { IfOk result (λ doors. IsTrue (list_all is_new_door doors.items)) }
{
    let mut doors = Vec::new(alloc);
    for line in case.settings.lines() {
        if let Some(door) = line.strip_prefix("door ") {
            doors.push(door_of(alloc, case, door)?)?;
        }
    }
    Ok(doors)
}

/// The links that can be dialled.
fn links_of(alloc: Global, case: &Case<'_>) -> Result<Vec<MemLink>, AllocError>
    ensures { IfOk result (λ links. IsTrue (list_all is_new_link links.items)) }
{
    let mut links = Vec::new(alloc);
    for line in case.settings.lines() {
        if let Some(link) = line.strip_prefix("dial ") {
            links.push(link_of(alloc, case, link)?)?;
        }
    }
    Ok(links)
}

/// A door: the numbers of the accepts that fail, and the links that arrive.
pub fn door_of(alloc: Global, case: &Case<'_>, text: &str) -> Result<MemDoor, AllocError>
    ensures { IfOk result (λ door. IsTrue (is_new_door door)) }
{
    let (fails, links) = text.split_once(';').unwrap_or((text, ""));
    let arrivals = arrivals_of(alloc, case, links)?;
    MemDoor::new(alloc, arrivals, numbers(alloc, fails)?)
}

/// The links that arrive.
fn arrivals_of(
    alloc: Global,
    case: &Case<'_>,
    links: &str,
) -> Result<Vec<Option<MemLink>>, AllocError>
    ensures { IfOk result (λ arrivals. IsTrue (list_all is_new_arrival arrivals.items)) }
{
    let mut arrivals = Vec::new(alloc);
    for link in links.split(';') {
        arrivals.push(Some(link_of(alloc, case, link)?))?;
    }
    Ok(arrivals)
}

/// A link: what its peer sends, and which writes to it fail.
fn link_of(alloc: Global, case: &Case<'_>, text: &str) -> Result<MemLink, AllocError>
    ensures { IfOk result (λ link. IsTrue (is_new_link link)) }
{
    let steps = steps_of(alloc, case, text)?;
    let torn = writes_of(alloc, text)?;
    Ok(MemLink::torn(alloc, steps, torn))
}

/// The writes `!N:M` that fail, each after so many bytes.
pub fn writes_of(alloc: Global, text: &str) -> Result<Vec<(u64, u64)>, AllocError> {
    let mut writes = Vec::new(alloc);
    for word in text.split_whitespace() {
        if let Some((write, most)) = word.strip_prefix('!').and_then(|word| word.split_once(':')) {
            writes.push((number(write), number(most)))?;
        }
    }
    Ok(writes)
}

/// What its peer does, step by step.
fn steps_of(alloc: Global, case: &Case<'_>, text: &str) -> Result<Vec<LinkStep>, AllocError>
    ensures { IfOk result (λ steps. IsTrue (list_all has_bytes steps.items)) }
{
    let mut steps = Vec::new(alloc);
    for word in text.split_whitespace() {
        if let Some(count) = word.strip_prefix('.') {
            push_idle(&mut steps, number(count))?;
        } else if !word.starts_with('!') {
            push_bytes(&mut steps, case.join_names(alloc, word)?)?;
        }
    }
    Ok(steps)
}

/// It sends nothing, so often.
fn push_idle(steps: &mut Vec<LinkStep>, count: u64) -> Result<(), AllocError>
    requires { IsTrue (list_all has_bytes steps.old.items) }
    ensures { IsTrue (list_all has_bytes steps.new.items) }
{
    for _ in 0..count {
        steps.push(LinkStep::Idle)?;
    }
    Ok(())
}

/// It sends these bytes, where there are any.
fn push_bytes(steps: &mut Vec<LinkStep>, bytes: Vec<u8>) -> Result<(), AllocError>
    requires { IsTrue (list_all has_bytes steps.old.items) }
    ensures { IsTrue (list_all has_bytes steps.new.items) }
{
    if bytes.is_empty() {
        return Ok(());
    }
    steps.push(LinkStep::Bytes(ByteString::new(bytes)))?;
    Ok(())
}
