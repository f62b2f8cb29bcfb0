//! Links in memory, by what their peers send.

ghost use Rattle.std.specs.Prelude.{IfOk, IsTrue};
ghost use Rattle.std.specs.List.{list_all};
ghost use Rattle.cast_io.specs.FakeLinks.{has_bytes, is_new_link};

use cast_io::{ByteString, LinkStep, MemLink};
use std::alloc::{AllocError, Global};

/// The step that sends these bytes, or nothing yet where there are none.
fn step_of(alloc: Global, bytes: &[u8]) -> Result<LinkStep, AllocError>
    ensures { IfOk result (λ step. IsTrue (has_bytes step)) }
{
    if bytes.is_empty() {
        return Ok(LinkStep::Idle);
    }
    Ok(LinkStep::Bytes(ByteString::copy_of(alloc, bytes)?))
}

/// The steps of a peer that sends these pieces and ends. Where a piece is empty, nothing is there
/// yet.
pub fn steps_of(alloc: Global, pieces: &[&[u8]]) -> Result<Vec<LinkStep>, AllocError>
    ensures { IfOk result (λ steps. IsTrue (list_all has_bytes steps.items)) }
{
    let mut steps = Vec::new(alloc);
    for piece in pieces {
        steps.push(step_of(alloc, piece)?)?;
    }
    Ok(steps)
}

/// A link with such a peer, whose calls of these numbers fail.
pub fn link_of(alloc: Global, pieces: &[&[u8]], fails: &[u64]) -> Result<MemLink, AllocError>
    ensures { IfOk result (λ link. IsTrue (is_new_link link)) }
{
    Ok(MemLink::new(alloc, steps_of(alloc, pieces)?, fails.to_vec(alloc)?))
}

/// A link with such a peer, of which the write of this number takes so many bytes and fails.
pub fn torn_link(
    alloc: Global,
    pieces: &[&[u8]],
    write: u64,
    most: u64,
) -> Result<MemLink, AllocError>
    ensures { IfOk result (λ link. IsTrue (is_new_link link)) }
{
    let fails = [(write, most)].to_vec(alloc)?;
    Ok(MemLink::torn(alloc, steps_of(alloc, pieces)?, fails))
}

/// A link with each of these peers.
pub fn links_of(alloc: Global, peers: &[&[&[u8]]]) -> Result<Vec<MemLink>, AllocError>
    ensures { IfOk result (λ links. IsTrue (list_all is_new_link links.items)) }
{
    let mut links = Vec::new(alloc);
    for pieces in peers {
        links.push(link_of(alloc, pieces, &[])?)?;
    }
    Ok(links)
}
