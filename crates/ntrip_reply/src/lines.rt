//! Lines, and the messages that are made of them.

ghost use Rattle.std.specs.Prelude.{◌≡◌, ◌+◌, ◌≤◌, ◌++◌, length, take, vec_len, IsOk, OnOk, OnErr};
ghost use Rattle.std.specs.Vec.{vec_capacity};
ghost use Rattle.ntrip_reply.specs.Message.{line, lines, message, texts_in};

use cast_text::push_decimal;
use std::alloc::AllocError;

/// The connection is closed after the message.
pub(crate) const CLOSE: &[u8] = b"Connection: close";

/// The text of an empty line.
pub(crate) const EMPTY: &[u8] = b"";

/// Appends a line. A refusal may leave its beginning.
fn push_line(text: &[u8], out: &mut Vec<u8>) -> Result<(), AllocError>
    ensures ok { OnOk result (out.new.items ≡ out.old.items ++ line text.now) }
    ensures kept { OnErr result (take (vec_len out.old) out.new.items ≡ out.old.items) }
    ensures room { vec_len out.old + length (line text.now) ≤ vec_capacity out.old → IsOk result }
    ensures capacity { vec_capacity out.old ≤ vec_capacity out.new }
{
    out.extend_from_slice(text)?;
    out.extend_from_slice(b"\r\n")
}

/// Appends lines. A refusal may leave some of them.
pub(crate) fn push_lines(texts: &[&[u8]], out: &mut Vec<u8>) -> Result<(), AllocError>
    ensures ok { OnOk result (out.new.items ≡ out.old.items ++ lines (texts_in texts.now)) }
    ensures kept { OnErr result (take (vec_len out.old) out.new.items ≡ out.old.items) }
    ensures room { vec_len out.old + length (lines (texts_in texts.now)) ≤ vec_capacity out.old
        → IsOk result }
    ensures capacity { vec_capacity out.old ≤ vec_capacity out.new }
{
    for text in texts {
        push_line(text, out)?;
    }
    Ok(())
}

/// Appends a message: these lines first, then the header lines that each message has, an empty
/// line and the body. A refusal may leave some of it.
pub(crate) fn push_message(
    first: &[&[u8]],
    body: &[u8],
    out: &mut Vec<u8>,
) -> Result<(), AllocError>
    ensures ok { OnOk result (out.new.items
        ≡ out.old.items ++ message (texts_in first.now) body.now) }
    ensures kept { OnErr result (take (vec_len out.old) out.new.items ≡ out.old.items) }
    ensures room { vec_len out.old + length (message (texts_in first.now) body.now)
        ≤ vec_capacity out.old → IsOk result }
    ensures capacity { vec_capacity out.old ≤ vec_capacity out.new }
{
    push_lines(first, out)?;
    out.extend_from_slice(b"Content-Length: ")?;
    push_decimal(out, body.len() as u128)?;
    push_lines(&[EMPTY, CLOSE, EMPTY], out)?;
    out.extend_from_slice(body)
}
