//! The reading of a head.

ghost use Rattle.std.specs.Prelude.{◌≤◌, length};
ghost use Rattle.ntrip_head.specs.Answer.{HeadAnswer};
ghost use Rattle.ntrip_head.specs.Outcome.{UnlessMemory};

use crate::fault::HeadError;
use crate::http_head::read_http;
use crate::request::Request;
use crate::source_head::{is_source, read_source};
use std::alloc::Global;

/// What a head asks for, from its first byte to the end of its empty line. A head that begins with
/// `SOURCE ` is that of a source of NTRIP 1.0 (RTCM 10410.0), every other one an HTTP request
/// (RFC 9112) of NTRIP 1.0 or NTRIP 2.0 (RTCM 10410.1).
///
/// # Errors
/// The first that applies, in this order. `Bad`: the bytes are, as a whole, no such head with at
/// most 32 header lines. `Method`: the method of an HTTP request is neither `GET` nor `POST`.
/// `Bad`: its target is neither `/` of a `GET` nor `/` and the name of a mountpoint. `Coding`: the
/// `Transfer-Encoding` of a `POST` is not `chunked`. `Memory` comes at any time.
pub fn read_head(alloc: Global, bytes: &[u8]) -> Result<Request, HeadError>
    requires { length bytes.now ≤ 8192 }
    ensures { UnlessMemory result (HeadAnswer bytes.now) }
{
    if is_source(bytes) {
        read_source(alloc, bytes)
    } else {
        read_http(alloc, bytes)
    }
}
