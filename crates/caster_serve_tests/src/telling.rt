//! What fakes tell of a run, as plain values.

use cast_io::{Asked, MemDoor, MemLink, MemStreet};
use std::alloc::Global;
use std::test::Fail;

/// What a link came to: what it was sent, how many steps it took, and how often it failed.
#[derive(Drop)]
pub(crate) struct Ended {
    pub(crate) bytes: Vec<u8>,
    pub(crate) steps: usize,
    pub(crate) faults: u64,
}

impl Ended {
    /// It was sent this, and took so many steps.
    pub(crate) fn is(&self, bytes: &[u8], steps: usize) -> bool {
        self.bytes.as_slice() == bytes && self.steps == steps
    }
}

/// What came back to a street: the links of each door, and those that were dialled, in order. And
/// what it was asked, a line each, and how often it failed.
#[derive(Drop)]
pub(crate) struct Back {
    pub(crate) doors: Vec<Vec<Ended>>,
    pub(crate) links: Vec<Ended>,
    pub(crate) asked: Vec<u8>,
    pub(crate) faults: u64,
}

/// What this link came to.
pub(crate) fn ended_of(alloc: Global, link: &MemLink) -> Result<Ended, Fail> {
    Ok(Ended {
        bytes: link.bytes().to_vec(alloc)?,
        steps: link.steps().ok_or("steps are told no longer")?.len(),
        faults: link.faults(),
    })
}

/// What these links came to.
fn all_ended(alloc: Global, links: Option<&[MemLink]>) -> Result<Vec<Ended>, Fail> {
    let mut ended = Vec::new(alloc);
    for link in links.ok_or("links are told no longer")? {
        ended.push(ended_of(alloc, link)?)?;
    }
    Ok(ended)
}

/// What the links of this door came to.
pub(crate) fn ended_at(alloc: Global, door: &MemDoor) -> Result<Vec<Ended>, Fail> {
    all_ended(alloc, door.back())
}

/// What the links of these doors came to.
fn ended_at_all(alloc: Global, doors: Option<&[MemDoor]>) -> Result<Vec<Vec<Ended>>, Fail> {
    let mut ended = Vec::new(alloc);
    for door in doors.ok_or("doors are told no longer")? {
        ended.push(ended_at(alloc, door)?)?;
    }
    Ok(ended)
}

/// Appends a line of what was asked.
fn line_of(asked: &Asked, text: &mut Vec<u8>) -> Result<(), Fail> {
    match asked {
        Asked::Open { addr, doors } => {
            text.extend_from_slice(if *doors == 3 {
                b"three at "
            } else {
                b"others at "
            })?;
            text.extend_from_slice(addr.as_slice())?;
        }
        Asked::Dial { addr } => {
            text.extend_from_slice(b"dial ")?;
            text.extend_from_slice(addr.as_slice())?;
        }
    }
    Ok(text.push(b'\n')?)
}

/// What was asked, a line each.
fn lines_of(alloc: Global, asked: Option<&[Asked]>) -> Result<Vec<u8>, Fail> {
    let mut text = Vec::new(alloc);
    for asked in asked.ok_or("it is not told what was asked")? {
        line_of(asked, &mut text)?;
    }
    Ok(text)
}

/// What came back to this street.
pub(crate) fn back_to(alloc: Global, street: &MemStreet) -> Result<Back, Fail> {
    Ok(Back {
        doors: ended_at_all(alloc, street.doors_back())?,
        links: all_ended(alloc, street.links_back())?,
        asked: lines_of(alloc, street.asked())?,
        faults: street.faults(),
    })
}
