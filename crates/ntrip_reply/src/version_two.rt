//! The replies of NTRIP 2.0 (RTCM 10410.1).

ghost use Rattle.std.specs.Prelude.{◌≡◌, ◌+◌, ◌≤◌, ◌++◌, length, take, vec_len, IsOk, OnOk, OnErr};
ghost use Rattle.std.specs.Vec.{vec_capacity};
ghost use Rattle.ntrip_reply.specs.Text.{text_of_two};

use crate::kind::Reply;
use crate::lines::{CLOSE, EMPTY, push_lines, push_message};
use crate::text::{CHALLENGE, SERVER};
use std::alloc::AllocError;

/// The start line of an answer that grants what was asked for.
const GRANTED: &[u8] = b"HTTP/1.1 200 OK";

/// The header line of the version.
const VERSION: &[u8] = b"Ntrip-Version: Ntrip/2.0";

/// Appends the text of a reply. A refusal may leave some of it.
pub(crate) fn push_two(r: Reply, table: &[u8], out: &mut Vec<u8>) -> Result<(), AllocError>
    ensures ok { OnOk result (out.new.items ≡ out.old.items ++ text_of_two r table.now) }
    ensures kept { OnErr result (take (vec_len out.old) out.new.items ≡ out.old.items) }
    ensures room { vec_len out.old + length (text_of_two r table.now) ≤ vec_capacity out.old
        → IsOk result }
    ensures capacity { vec_capacity out.old ≤ vec_capacity out.new }
{
    match r {
        Reply::RoverOk => push_lines(
            &[
                GRANTED,
                VERSION,
                SERVER,
                b"Content-Type: gnss/data",
                b"Transfer-Encoding: chunked",
                CLOSE,
                EMPTY,
            ],
            out,
        ),
        Reply::SourceOk => push_lines(&[GRANTED, VERSION, SERVER, CLOSE, EMPTY], out),
        Reply::Table => push_message(
            &[GRANTED, VERSION, SERVER, b"Content-Type: gnss/sourcetable"],
            table,
            out,
        ),
        Reply::BadHead => push_message(&[b"HTTP/1.1 400 Bad Request", SERVER], &[], out),
        Reply::Method | Reply::Coding => {
            push_message(&[b"HTTP/1.1 501 Not Implemented", SERVER], &[], out)
        }
        Reply::RoverNoMount | Reply::SourceNoMount => {
            push_message(&[b"HTTP/1.1 404 Not Found", VERSION, SERVER], &[], out)
        }
        Reply::Unauthorized | Reply::SourcePassword => push_message(
            &[b"HTTP/1.1 401 Unauthorized", VERSION, SERVER, CHALLENGE],
            &[],
            out,
        ),
        Reply::Denied => push_message(&[b"HTTP/1.1 403 Forbidden", VERSION, SERVER], &[], out),
        Reply::Full => push_message(
            &[b"HTTP/1.1 503 Service Unavailable", VERSION, SERVER],
            &[],
            out,
        ),
        Reply::Taken => push_message(&[b"HTTP/1.1 409 Conflict", VERSION, SERVER], &[], out),
    }
}
