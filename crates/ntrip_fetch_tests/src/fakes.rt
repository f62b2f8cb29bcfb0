//! Targets, links and streets in memory, and the frames that casters send over them.

ghost use Rattle.std.specs.Prelude.{◌≡◌, ◌≤◌, length, IfOk};
ghost use Rattle.std.specs.List.{All};
ghost use Rattle.ntrip_fetch.specs.Request.{IsSpoken};
ghost use Rattle.ntrip_fetch.specs.Tries.{CanBeTried};

use cast_io::MemStreet;
use cast_text::{MountName, Text, UserName};
use ntrip_fetch::{Left, Target, Try};
use std::alloc::{AllocError, Global};
use std::test::Fail;
use test_support::links_of;

/// The head of an answer of NTRIP 2.0 behind which a chunked body follows.
pub(crate) const CHUNKED: &[u8] = b"HTTP/1.1 200 OK\r\nTransfer-Encoding: chunked\r\n\r\n";

/// A street of links to such casters.
pub(crate) fn street_of(alloc: Global, casters: &[&[&[u8]]]) -> Result<MemStreet, AllocError> {
    MemStreet::new(
        alloc,
        Vec::new(alloc),
        links_of(alloc, casters)?,
        Vec::new(alloc),
    )
}

/// The mountpoint UP, asked for without credentials.
pub(crate) fn target_of(alloc: Global, protocol: u32, address: &str) -> Result<Target, Fail>
    requires protocol { (1 ≤ protocol) × (protocol ≤ 2) }
    ensures { IfOk result CanBeTried }
{
    Ok(Target {
        protocol,
        address: Text::new(alloc, address.as_bytes())?,
        mount: MountName::new(alloc, b"UP")?,
        user: None,
        password: Text::new(alloc, b"x")?,
    })
}

/// The same with credentials.
pub(crate) fn target_with_user(alloc: Global, protocol: u32) -> Result<Target, Fail>
    requires { (1 ≤ protocol) × (protocol ≤ 2) }
    ensures { IfOk result IsSpoken }
{
    let mut target = target_of(alloc, protocol, "a:1")?;
    target.user = Some(UserName::new(alloc, b"rover1")?);
    target.password = Text::new(alloc, b"secret")?;
    Ok(target)
}

/// The mountpoint UP of three casters, by NTRIP 1.0, 2.0 and 1.0.
pub(crate) fn three_targets(alloc: Global) -> Result<Vec<Target>, Fail>
    ensures each { IfOk result (λ targets. All CanBeTried targets.items) }
    ensures count { IfOk result (λ targets. length targets.items ≡ 3) }
{
    let mut targets = two_targets(alloc)?;
    targets.push(target_of(alloc, 1, "c:3")?)?;
    Ok(targets)
}

/// The first two of them.
pub(crate) fn two_targets(alloc: Global) -> Result<Vec<Target>, Fail>
    ensures each { IfOk result (λ targets. All CanBeTried targets.items) }
    ensures count { IfOk result (λ targets. length targets.items ≡ 2) }
{
    let mut targets = Vec::new(alloc);
    targets.push(target_of(alloc, 1, "a:1")?)?;
    targets.push(target_of(alloc, 2, "b:2")?)?;
    Ok(targets)
}

/// So many frames, and why the link was left.
pub(crate) fn try_of(frames: u64, left: Left) -> Try {
    Try { frames, left }
}

/// These pieces joined.
pub(crate) fn join_pieces(alloc: Global, pieces: &[&[u8]]) -> Result<Vec<u8>, Fail> {
    let mut bytes = Vec::new(alloc);
    for piece in pieces {
        bytes.extend_from_slice(piece)?;
    }
    Ok(bytes)
}
