//! What an HTTP request head asks for, by its method, its target and its headers.

ghost use Rattle.std.specs.Prelude.{◌≡◌, ◌≤◌, length, Ok};
ghost use Rattle.cast_text.specs.Name.{name_of};
ghost use Rattle.ntrip_head.specs.Outcome.{Gives};
ghost use Rattle.ntrip_head.specs.Fields.{fields_at, AreWithin};
ghost use Rattle.ntrip_head.specs.Judge.{version_in, auth_in, gga_in, or_bad, mount_in, get_of, source_at, request_of};

use crate::credentials::{auth_of, password_of};
use crate::fault::{HeadError, HeadFault};
use crate::fields::{is_other_coding, is_word, value_in};
use crate::request::{Auth, Request, Version};
use cast_text::{MountName, NameFault};
use gga_read::{Position, parse_gga};
use httparse::spans::HeaderSpan;
use std::alloc::Global;

/// The version of a `GET`.
fn version_in(bytes: &[u8], headers: &[HeaderSpan]) -> Version
    requires { AreWithin bytes.now headers.now }
    ensures { result ≡ version_in (fields_at bytes.now headers.now) }
{
    if is_word(b"Ntrip/2.0", value_in(b"Ntrip-Version", bytes, headers)) {
        Version::Two
    } else {
        Version::One
    }
}

/// The credentials.
fn auth_in(alloc: Global, bytes: &[u8], headers: &[HeaderSpan]) -> Result<Auth, HeadError>
    requires headers { AreWithin bytes.now headers.now }
    requires size { length bytes.now ≤ 8192 }
    ensures { Gives result (Ok (auth_in (fields_at bytes.now headers.now))) }
{
    auth_of(alloc, value_in(b"Authorization", bytes, headers))
}

/// The position that the head reports.
fn gga_in(bytes: &[u8], headers: &[HeaderSpan]) -> Option<Position>
    requires { AreWithin bytes.now headers.now }
    ensures { result ≡ gga_in (fields_at bytes.now headers.now) }
{
    match value_in(b"Ntrip-GGA", bytes, headers) {
        None => None,
        Some(line) => parse_gga(line),
    }
}

/// The mountpoint with this name.
pub fn mount_name(alloc: Global, name: &[u8]) -> Result<MountName, HeadError>
    ensures { Gives result (or_bad (name_of name.now)) }
{
    match MountName::new(alloc, name) {
        Ok(mount) => Ok(mount),
        Err(NameFault::Memory) => Err(HeadError::Memory),
        Err(_) => Err(HeadError::Refused(HeadFault::Bad)),
    }
}

/// The mountpoint that the target names.
fn mount_in(alloc: Global, target: &[u8]) -> Result<MountName, HeadError>
    ensures { Gives result (mount_in target.now) }
{
    match target {
        [b'/', name @ ..] => mount_name(alloc, name),
        _ => Err(HeadError::Refused(HeadFault::Bad)),
    }
}

/// What a `GET` of this target asks for.
fn get_of(
    alloc: Global,
    target: &[u8],
    bytes: &[u8],
    headers: &[HeaderSpan],
) -> Result<Request, HeadError>
    requires headers { AreWithin bytes.now headers.now }
    requires size { length bytes.now ≤ 8192 }
    ensures { Gives result (get_of target.now (fields_at bytes.now headers.now)) }
{
    let version = version_in(bytes, headers);
    if target == b"/".as_slice() {
        return Ok(Request::Table(version));
    }
    let mount = mount_in(alloc, target)?;
    let auth = auth_in(alloc, bytes, headers)?;
    let gga = gga_in(bytes, headers);
    Ok(Request::Rover {
        version,
        mount,
        auth,
        gga,
    })
}

/// What a `POST` of this target asks for.
fn post_of(
    alloc: Global,
    target: &[u8],
    bytes: &[u8],
    headers: &[HeaderSpan],
) -> Result<Request, HeadError>
    requires headers { AreWithin bytes.now headers.now }
    requires size { length bytes.now ≤ 8192 }
    ensures { Gives result
        (source_at (mount_in target.now) (fields_at bytes.now headers.now)) }
{
    let coding = value_in(b"Transfer-Encoding", bytes, headers);
    let mount = mount_in(alloc, target)?;
    if is_other_coding(coding) {
        return Err(HeadError::Refused(HeadFault::Coding));
    }
    let auth = auth_in(alloc, bytes, headers)?;
    let password = password_of(alloc, auth)?;
    Ok(Request::Source {
        version: Version::Two,
        mount,
        password,
        chunked: coding.is_some(),
    })
}

/// What a head with this method and this target asks for.
pub fn request_of(
    alloc: Global,
    method: &[u8],
    target: &[u8],
    bytes: &[u8],
    headers: &[HeaderSpan],
) -> Result<Request, HeadError>
    requires headers { AreWithin bytes.now headers.now }
    requires size { length bytes.now ≤ 8192 }
    ensures { Gives result
        (request_of method.now target.now (fields_at bytes.now headers.now)) }
{
    if method == b"GET".as_slice() {
        get_of(alloc, target, bytes, headers)
    } else if method == b"POST".as_slice() {
        post_of(alloc, target, bytes, headers)
    } else {
        Err(HeadError::Refused(HeadFault::Method))
    }
}
