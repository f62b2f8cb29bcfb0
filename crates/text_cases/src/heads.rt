//! Heads of requests, and of the answers of other casters.

use crate::printing::{put, say, say_kept, show_in_brackets};
use cast_text::{MountName, Text};
use gga_read::Position;
use ntrip_head::{Auth, HeadBuf, HeadEnd, HeadError, Request, Version, read_head, read_upstream};
use std::alloc::AllocError;

/// The credentials in words.
fn say_auth(out: &mut Vec<u8>, auth: &Auth) -> Result<(), AllocError> {
    match auth {
        Auth::None => put(out, " none "),
        Auth::Unread => put(out, " unread "),
        Auth::Basic { user, password } => {
            put(out, " basic ")?;
            show_in_brackets(out, user.bytes())?;
            show_in_brackets(out, password.bytes())?;
            put(out, " ")
        }
    }
}

/// What is asked for, its version and its mountpoint.
fn say_asked(
    out: &mut Vec<u8>,
    kind: &str,
    version: Version,
    mount: &MountName,
) -> Result<(), AllocError> {
    put(out, kind)?;
    say(out, &version)?;
    put(out, " ")?;
    show_in_brackets(out, mount.bytes())
}

/// A rover's request, behind its front: the credentials, and the position that it reports.
fn say_rover(out: &mut Vec<u8>, auth: &Auth, gga: Option<Position>) -> Result<(), AllocError> {
    say_auth(out, auth)?;
    say(out, &gga)
}

/// A source's request, behind its front: the password, and how the body comes.
fn say_source(out: &mut Vec<u8>, password: &Text, chunked: bool) -> Result<(), AllocError> {
    show_in_brackets(out, password.bytes())?;
    put(out, if chunked { " chunked" } else { " raw" })
}

/// The request in words.
fn say_request(out: &mut Vec<u8>, request: &Request) -> Result<(), AllocError> {
    match request {
        Request::Table(version) => {
            put(out, "table ")?;
            say(out, version)
        }
        Request::Rover {
            version,
            mount,
            auth,
            gga,
        } => {
            say_asked(out, "rover ", *version, mount)?;
            say_rover(out, auth, *gga)
        }
        Request::Source {
            version,
            mount,
            password,
            chunked,
        } => {
            say_asked(out, "source ", *version, mount)?;
            say_source(out, password, *chunked)
        }
    }
}

/// What a head asks for that is no longer than heads may be, or its fault.
pub fn head(head: &[u8], out: &mut Vec<u8>) -> Result<(), AllocError> {
    if head.len() > 8192 {
        return put(out, "above 8192 bytes");
    }
    match read_head(*out.allocator(), head) {
        Ok(request) => say_request(out, &request),
        Err(HeadError::Refused(fault)) => say(out, &fault),
        Err(HeadError::Memory) => Err(AllocError),
    }
}

/// Behind how many bytes a head ends, how, and whether just these bytes are kept.
pub fn head_end(bytes: &[u8], out: &mut Vec<u8>) -> Result<(), AllocError> {
    let mut head = HeadBuf::new(*out.allocator())?;
    let (count, end) = head.read(bytes);
    put(out, "(")?;
    say(out, &count)?;
    put(
        out,
        match end {
            None => ", More) ",
            Some(HeadEnd::Whole(_)) => ", Done) ",
            Some(HeadEnd::Long) => ", Long) ",
        },
    )?;
    let taken = bytes.get(..count).unwrap_or(b"");
    say_kept(out, taken, head.bytes(), head.bytes())
}

/// What the head of another caster's answer says.
pub fn upstream(head: &[u8], out: &mut Vec<u8>) -> Result<(), AllocError> {
    say(out, &read_upstream(head))
}
