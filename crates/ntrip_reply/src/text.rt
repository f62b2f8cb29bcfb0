//! The text of a reply.

ghost use Rattle.std.specs.Prelude.{◌≡◌, ◌+◌, ◌≤◌, ◌++◌, length, take, vec_len, IsOk, OnOk, OnErr};
ghost use Rattle.std.specs.Vec.{vec_capacity};
ghost use Rattle.ntrip_reply.specs.Text.{reply_text};

use crate::kind::Reply;
use crate::version_one::push_one;
use crate::version_two::push_two;
use ntrip_head::Version;
use std::alloc::AllocError;

/// The header line that names this caster.
pub(crate) const SERVER: &[u8] = b"Server: NTRIP lapcast/1.0";

/// The header line that asks for credentials of the scheme `Basic` (RFC 7617, section 2).
pub(crate) const CHALLENGE: &[u8] = b"WWW-Authenticate: Basic realm=\"caster\"";

/// Appends the text of a reply in this version. A refusal may leave some of it.
fn push_reply(
    version: Version,
    r: &Reply,
    table: &[u8],
    out: &mut Vec<u8>,
) -> Result<(), AllocError>
    ensures ok { OnOk result (out.new.items ≡ out.old.items ++ reply_text version r.now table.now) }
    ensures kept { OnErr result (take (vec_len out.old) out.new.items ≡ out.old.items) }
    ensures room { vec_len out.old + length (reply_text version r.now table.now)
        ≤ vec_capacity out.old → IsOk result }
    ensures capacity { vec_capacity out.old ≤ vec_capacity out.new }
{
    match version {
        Version::One => push_one(*r, table, out),
        Version::Two => push_two(*r, table, out),
    }
}

/// Appends the text of a reply in this version of NTRIP, in bytes as they are sent. `table` is the
/// text of the sourcetable, which follows the head of `Table`, and in version 1 of `RoverNoMount`.
///
/// # Errors
/// For want of memory, and never where room for the text was reserved. Then `out` is as it was.
pub fn reply(version: Version, r: &Reply, table: &[u8], out: &mut Vec<u8>) -> Result<(), AllocError>
    ensures ok { OnOk result (out.new.items ≡ out.old.items ++ reply_text version r.now table.now) }
    ensures err { OnErr result (out.new.items ≡ out.old.items) }
    ensures room { vec_len out.old + length (reply_text version r.now table.now)
        ≤ vec_capacity out.old → IsOk result }
    ensures capacity { vec_capacity out.old ≤ vec_capacity out.new }
{
    let before = out.len();
    let appended = push_reply(version, r, table, out);
    if appended.is_err() {
        out.truncate(before);
    }
    appended
}
