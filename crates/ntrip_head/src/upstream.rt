//! The head with which an upstream caster answers.

ghost use Rattle.std.specs.Prelude.{◌≡◌, length, IfSome, IfNone};
ghost use Rattle.httparse.specs.Grammar.{ResponseHead};
ghost use Rattle.httparse.specs.Spans.{IsResponseAt, IsResponseWithin};
ghost use Rattle.ntrip_head.specs.Fields.{fields_at, AreWithin};
ghost use Rattle.ntrip_head.specs.Upstream.{IsWholeResponse, IsNoResponse, upstream_of, UpstreamAnswer};

use crate::fault::HeadFault;
use crate::fields::{is_other_coding, is_word, value_in};
use crate::http_head::{MAX_HEADER_LINES, begins_in_line};
use httparse::Status;
use httparse::spans::{EMPTY_HEADER_SPAN, HeaderSpan, ResponseSpans, parse_response};

/// What an upstream caster answers.
#[derive(Clone, Copy, Debug, PartialEq, Eq)]
pub struct Upstream {
    /// The status code of HTTP, three digits.
    pub status: u16,
    /// Whether the body comes in the transfer coding `chunked`.
    pub chunked: bool,
}

/// The parts of a response head that is the whole of the bytes.
fn whole_response(bytes: &[u8], headers: &mut [HeaderSpan]) -> Option<ResponseSpans>
    requires { length headers.old ≡ 32 }
    ensures found { IfSome result (λ spans. (h : ResponseHead) × IsWholeResponse bytes.now h
        × IsResponseAt bytes.now headers.new spans h) }
    ensures within { IfSome result (IsResponseWithin bytes.now headers.new) }
    ensures none { IfNone result (IsNoResponse bytes.now) }
{
    if !begins_in_line(bytes) {
        return None;
    }
    let Ok(Status::Complete(spans)) = parse_response(bytes, headers) else {
        return None;
    };
    if spans.len < bytes.len() {
        return None;
    }
    Some(spans)
}

/// What a status and headers say.
fn upstream_of(status: u16, bytes: &[u8], headers: &[HeaderSpan]) -> Result<Upstream, HeadFault>
    requires { AreWithin bytes.now headers.now }
    ensures { result ≡ upstream_of status (fields_at bytes.now headers.now) }
{
    let coding = value_in(b"Transfer-Encoding", bytes, headers);
    if status == 200 && is_other_coding(coding) {
        return Err(HeadFault::Coding);
    }
    let chunked = is_word(b"chunked", coding);
    Ok(Upstream { status, chunked })
}

/// What the head of an upstream caster's answer says, from its first byte to the end of its empty
/// line.
///
/// # Errors
/// `Bad` exactly where the bytes are, as a whole, no response head with at most 32 header lines by
/// the grammar of `httparse`. It is that of HTTP/1.0 and HTTP/1.1 (RFC 9112, section 4), and wider:
/// it also takes a status line that ends behind its status, as `HTTP/1.0 200`. Then `Coding`
/// exactly where the status is 200 and `Transfer-Encoding` is there and is not `chunked`.
pub fn read_upstream(bytes: &[u8]) -> Result<Upstream, HeadFault>
    ensures { UpstreamAnswer bytes.now result }
{
    let mut headers = [EMPTY_HEADER_SPAN; MAX_HEADER_LINES];
    let Some(spans) = whole_response(bytes, &mut headers) else {
        return Err(HeadFault::Bad);
    };
    upstream_of(spans.code, bytes, &headers[..spans.headers])
}
