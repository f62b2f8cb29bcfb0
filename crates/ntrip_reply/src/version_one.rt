//! The replies of NTRIP 1.0 (RTCM 10410.0).

ghost use Rattle.std.specs.Prelude.{◌≡◌, ◌+◌, ◌≤◌, ◌++◌, length, take, vec_len, IsOk, OnOk, OnErr};
ghost use Rattle.std.specs.Vec.{vec_capacity};
ghost use Rattle.ntrip_reply.specs.Text.{text_of_one};

use crate::kind::Reply;
use crate::lines::{EMPTY, push_lines, push_message};
use crate::text::{CHALLENGE, SERVER};
use std::alloc::AllocError;

/// Appends the text of a reply. A refusal may leave some of it.
pub(crate) fn push_one(r: Reply, table: &[u8], out: &mut Vec<u8>) -> Result<(), AllocError>
    ensures ok { OnOk result (out.new.items ≡ out.old.items ++ text_of_one r table.now) }
    ensures kept { OnErr result (take (vec_len out.old) out.new.items ≡ out.old.items) }
    ensures room { vec_len out.old + length (text_of_one r table.now) ≤ vec_capacity out.old
        → IsOk result }
    ensures capacity { vec_capacity out.old ≤ vec_capacity out.new }
{
    match r {
        Reply::RoverOk | Reply::SourceOk => push_lines(&[b"ICY 200 OK", EMPTY], out),
        Reply::Table | Reply::RoverNoMount => push_message(
            &[b"SOURCETABLE 200 OK", SERVER, b"Content-Type: text/plain"],
            table,
            out,
        ),
        Reply::BadHead => push_message(&[b"HTTP/1.1 400 Bad Request", SERVER], &[], out),
        Reply::Method | Reply::Coding => {
            push_message(&[b"HTTP/1.1 501 Not Implemented", SERVER], &[], out)
        }
        Reply::Unauthorized => push_message(
            &[b"HTTP/1.0 401 Unauthorized", SERVER, CHALLENGE],
            &[],
            out,
        ),
        Reply::Denied => push_message(&[b"HTTP/1.0 403 Forbidden", SERVER], &[], out),
        Reply::Full => push_message(&[b"HTTP/1.0 503 Service Unavailable", SERVER], &[], out),
        Reply::SourcePassword => push_lines(&[b"ERROR - Bad Password"], out),
        Reply::SourceNoMount | Reply::Taken => {
            push_lines(&[b"ERROR - Mount Point Taken or Invalid"], out)
        }
    }
}
