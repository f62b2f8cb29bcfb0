//! Heads of the sources of NTRIP 1.0.

ghost use Rattle.std.specs.Prelude.{◌≡◌, ◌≤◌, false, IsTrue, length, drop};
ghost use Rattle.std.specs.Str.Lines.{strip_carriage_return};
ghost use Rattle.ntrip_head.specs.Outcome.{UnlessMemory, Gives};
ghost use Rattle.ntrip_head.specs.SourceHead.{is_source, IsHeaderBlock, without_slash, source_of, source_in, SourceAnswer};

use crate::credentials::text;
use crate::cut::cut_by;
use crate::fault::{HeadError, HeadFault};
use crate::http_head::MAX_HEADER_LINES;
use crate::judge::mount_name;
use crate::request::{Request, Version};
use httparse::Status;
use httparse::spans::{EMPTY_HEADER_SPAN, parse_headers};
use std::alloc::Global;

/// Whether this is the head of a source of NTRIP 1.0.
pub fn is_source(bytes: &[u8]) -> bool
    ensures { result ≡ is_source bytes.now }
{
    bytes.starts_with(b"SOURCE ")
}

/// The text without one CR at its end.
fn without_return(text: &[u8]) -> &[u8]
    ensures value { result.now ≡ strip_carriage_return text.now }
    ensures within { length result.now ≤ length text.now }
{
    match text {
        [line @ .., b'\r'] => line,
        _ => text,
    }
}

/// The text without the slash at its front.
fn without_slash(text: &[u8]) -> &[u8]
    ensures { result.now ≡ without_slash text.now }
{
    match text {
        [b'/', name @ ..] => name,
        _ => text,
    }
}

/// Whether the bytes are header lines, at most 32, and the empty line that ends them.
fn is_header_block(bytes: &[u8]) -> bool
    ensures block { IsTrue result → IsHeaderBlock bytes.now }
    ensures none { result ≡ false → ¬ (IsHeaderBlock bytes.now) }
{
    let mut headers = [EMPTY_HEADER_SPAN; MAX_HEADER_LINES];
    match parse_headers(bytes, &mut headers) {
        Ok(Status::Complete((len, _))) => len == bytes.len(),
        _ => false,
    }
}

/// The line without the seven bytes of `SOURCE ` at its front.
fn after_keyword(line: &[u8]) -> &[u8]
    ensures { result.now ≡ drop 7 line.now }
{
    if line.len() < 7 { &[] } else { &line[7..] }
}

/// The source with this password, if the mountpoint is one.
fn source_of(alloc: Global, password: &[u8], mount: &[u8]) -> Result<Request, HeadError>
    requires { length password.now ≤ 8192 }
    ensures { Gives result (source_of password.now mount.now) }
{
    let mount = mount_name(alloc, without_slash(mount))?;
    let password = text(alloc, password)?;
    Ok(Request::Source {
        version: Version::One,
        mount,
        password,
        chunked: false,
    })
}

/// What the first line of a source's head says.
fn source_in(alloc: Global, line: &[u8]) -> Result<Request, HeadError>
    requires { length line.now ≤ 8192 }
    ensures { Gives result (source_in line.now) }
{
    let (password, mount) = cut_by(b' ', after_keyword(line));
    source_of(alloc, password, mount)
}

/// What the head of a source asks for.
pub fn read_source(alloc: Global, bytes: &[u8]) -> Result<Request, HeadError>
    requires { length bytes.now ≤ 8192 }
    ensures { UnlessMemory result (SourceAnswer bytes.now) }
{
    let (line, fields) = cut_by(b'\n', bytes);
    if !is_header_block(fields) {
        return Err(HeadError::Refused(HeadFault::Bad));
    }
    source_in(alloc, without_return(line))
}
