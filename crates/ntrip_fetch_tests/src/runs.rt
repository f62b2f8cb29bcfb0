//! Fetches, and all that came of them in one value.

use crate::fakes::{target_of, three_targets, two_targets};
use cast_io::{Asked, Link, MemLink, MemSink, MemStreet};
use ntrip_fetch::{FetchFault, Try, fetch, fetch_link};
use std::alloc::{AllocError, Global};
use std::sync::Wait;
use std::test::Fail;

/// What came of a fetch over one link: the answer, what was written and asked, and how many steps
/// of the link were taken.
#[derive(Drop)]
pub(crate) struct LinkRun {
    pub(crate) answer: Result<Try, FetchFault>,
    pub(crate) written: Vec<u8>,
    pub(crate) asked: Vec<u8>,
    pub(crate) steps: Option<usize>,
}

impl LinkRun {
    /// The link was left so, after so many steps.
    pub(crate) fn left_so(&self, answer: Result<Try, FetchFault>, steps: usize) -> bool {
        self.answer == answer && self.steps == Some(steps)
    }

    /// This was written, and this was asked.
    pub(crate) fn wrote(&self, written: &[u8], asked: &[u8]) -> bool {
        self.written.as_slice() == written && self.asked.as_slice() == asked
    }
}

/// The answer of a fetch of so many frames, 1 to 4, over this link into this sink.
pub(crate) fn answer_of<L: Link, R: Wait>(
    rt: &R,
    alloc: Global,
    most: u64,
    link: &mut L,
    out: &mut MemSink,
) -> Result<Result<Try, FetchFault>, Fail> {
    let target = target_of(alloc, 1, "a:1")?;
    Ok(fetch_link(rt, alloc, &target, most.max(1).min(4), link, out))
}

/// What came of a fetch that was answered so over this link into this sink.
fn link_run(
    alloc: Global,
    answer: Result<Try, FetchFault>,
    link: &MemLink,
    out: &MemSink,
) -> Result<LinkRun, AllocError> {
    let written = out.bytes().to_vec(alloc)?;
    let asked = link.bytes().to_vec(alloc)?;
    Ok(LinkRun {
        answer,
        written,
        asked,
        steps: link.steps().map(|taken| taken.len()),
    })
}

/// A fetch of so many frames, 1 to 4, over this link into this sink.
pub(crate) fn fetch_over<R: Wait>(
    rt: &R,
    alloc: Global,
    most: u64,
    mut link: MemLink,
    mut out: MemSink,
) -> Result<LinkRun, Fail> {
    let answer = answer_of(rt, alloc, most, &mut link, &mut out)?;
    Ok(link_run(alloc, answer, &link, &out)?)
}

/// What came of a fetch from several casters: the answer, what was written, the addresses that were
/// dialled, each with a space behind it, how many links came back, and how many steps of the last
/// of them were taken.
#[derive(Drop)]
pub(crate) struct StreetRun {
    pub(crate) answer: Result<Vec<Try>, FetchFault>,
    pub(crate) written: Vec<u8>,
    pub(crate) dialled: Vec<u8>,
    pub(crate) links: usize,
    pub(crate) steps: Option<usize>,
}

impl StreetRun {
    /// The casters were tried so.
    pub(crate) fn tried_so(&self, tries: &[Try]) -> bool {
        match &self.answer {
            Ok(answer) => answer.as_slice() == tries,
            Err(_) => false,
        }
    }

    /// The fault was this, and so many links came back.
    pub(crate) fn failed_by(&self, fault: FetchFault, links: usize) -> bool {
        matches!(&self.answer, Err(found) if *found == fault) && self.links == links
    }

    /// This was written, and these addresses were dialled.
    pub(crate) fn wrote(&self, written: &[u8], dialled: &[u8]) -> bool {
        self.written.as_slice() == written && self.dialled.as_slice() == dialled
    }
}

/// The addresses that a street was asked to dial. Where it was asked for doors, they are a mark.
fn dials_of(alloc: Global, calls: &[Asked]) -> Result<Vec<u8>, AllocError> {
    let mut addresses = Vec::new(alloc);
    for asked in calls {
        match asked {
            Asked::Open { .. } => addresses.extend_from_slice(b"doors")?,
            Asked::Dial { addr } => addresses.extend_from_slice(addr.as_slice())?,
        }
        addresses.push(b' ')?;
    }
    Ok(addresses)
}

/// How many links there are, and how many steps of the last of them were taken.
fn last_steps(links: &[MemLink]) -> (usize, Option<usize>) {
    let steps = match links.last() {
        Some(link) => link.steps().map(|taken| taken.len()),
        None => None,
    };
    (links.len(), steps)
}

/// All that came of a fetch over this street.
fn outcome_of(
    alloc: Global,
    answer: Result<Vec<Try>, FetchFault>,
    street: &MemStreet,
    out: &MemSink,
) -> Result<StreetRun, Fail> {
    let calls = street.asked().ok_or("told no longer what was asked")?;
    let links = street.links_back().ok_or("links are told no longer")?;
    let (links, steps) = last_steps(links);
    Ok(StreetRun {
        answer,
        written: out.bytes().to_vec(alloc)?,
        dialled: dials_of(alloc, calls)?,
        links,
        steps,
    })
}

/// A fetch of so many frames, 1 to 4, from two casters over this street into this sink.
fn try_two<R: Wait>(
    rt: &R,
    alloc: Global,
    frames: u64,
    street: &mut MemStreet,
    out: &mut MemSink,
) -> Result<StreetRun, Fail> {
    let targets = two_targets(alloc)?;
    let frames = frames.max(1).min(4);
    let answer = fetch(rt, alloc, &targets, frames, street, out);
    outcome_of(alloc, answer, street, out)
}

/// The same into a sink that takes all.
pub(crate) fn tried_two<R: Wait>(
    rt: &R,
    alloc: Global,
    frames: u64,
    mut street: MemStreet,
) -> Result<StreetRun, Fail> {
    let mut out = MemSink::new(alloc, Vec::new(alloc));
    try_two(rt, alloc, frames, &mut street, &mut out)
}

/// A fetch of three frames from three casters over this street into this sink.
pub(crate) fn tried_three<R: Wait>(
    rt: &R,
    alloc: Global,
    mut street: MemStreet,
    mut out: MemSink,
) -> Result<StreetRun, Fail> {
    let targets = three_targets(alloc)?;
    let answer = fetch(rt, alloc, &targets, 3, &mut street, &mut out);
    outcome_of(alloc, answer, &street, &out)
}
