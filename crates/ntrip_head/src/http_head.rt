//! HTTP request heads.

ghost use Rattle.std.specs.Prelude.{◌≡◌, ◌≤◌, length, IfSome, IfNone};
ghost use Rattle.httparse.specs.Grammar.{RequestHead};
ghost use Rattle.httparse.specs.Spans.{IsRequestAt, IsRequestWithin};
ghost use Rattle.ntrip_head.specs.Answer.{IsWholeRequest, IsNoRequest, HttpAnswer};
ghost use Rattle.ntrip_head.specs.Answer.{begins_in_line};
ghost use Rattle.ntrip_head.specs.Outcome.{UnlessMemory};

use crate::fault::{HeadError, HeadFault};
use crate::judge::request_of;
use crate::request::Request;
use httparse::Status;
use httparse::spans::{EMPTY_HEADER_SPAN, HeaderSpan, RequestSpans, parse_request};
use std::alloc::Global;

/// The most header lines of a head.
pub const MAX_HEADER_LINES: usize = 32;

/// Whether there is a first byte, and it is not that of a line end.
pub fn begins_in_line(bytes: &[u8]) -> bool
    ensures { result ≡ begins_in_line bytes.now }
{
    match bytes {
        [] | [b'\r', ..] | [b'\n', ..] => false,
        _ => true,
    }
}

/// The parts of a request head that is the whole of the bytes.
fn whole_request(bytes: &[u8], headers: &mut [HeaderSpan]) -> Option<RequestSpans>
    requires { length headers.old ≡ 32 }
    ensures found { IfSome result (λ spans. (h : RequestHead) × IsWholeRequest bytes.now h
        × IsRequestAt bytes.now headers.new spans h) }
    ensures within { IfSome result (IsRequestWithin bytes.now headers.new) }
    ensures none { IfNone result (IsNoRequest bytes.now) }
{
    if !begins_in_line(bytes) {
        return None;
    }
    let Ok(Status::Complete(spans)) = parse_request(bytes, headers) else {
        return None;
    };
    if spans.len < bytes.len() {
        return None;
    }
    Some(spans)
}

/// What an HTTP request head asks for.
pub fn read_http(alloc: Global, bytes: &[u8]) -> Result<Request, HeadError>
    requires { length bytes.now ≤ 8192 }
    ensures { UnlessMemory result (HttpAnswer bytes.now) }
{
    let mut headers = [EMPTY_HEADER_SPAN; MAX_HEADER_LINES];
    let Some(spans) = whole_request(bytes, &mut headers) else {
        return Err(HeadError::Refused(HeadFault::Bad));
    };
    let method = spans.method.of(bytes);
    let target = spans.path.of(bytes);
    request_of(alloc, method, target, bytes, &headers[..spans.headers])
}
