//! Writing a frame as a chunk.
ghost use Rattle.std.specs.Prelude.{◌≡◌, ◌+◌, ◌≤◌, ◌++◌, length, vec_len, IsOk, OnOk, OnErr};
ghost use Rattle.std.specs.Vec.{vec_capacity};
ghost use Rattle.chunk_body.specs.Written.{chunk_of};

use cast_text::push_hex;
use rtcm_frame::Frame;
use std::alloc::AllocError;

/// The most bytes of a frame's chunk beyond those of the frame: three digits and two line ends.
const OVERHEAD: usize = 7;

/// Appends the frame as one chunk (RFC 9112, section 7.1). A refusal leaves `out` as it was, and
/// none comes where room for the frame and 7 bytes more was reserved.
pub fn chunk(frame: &Frame, out: &mut Vec<u8>) -> Result<(), AllocError>
    ensures ok { OnOk result (out.new.items ≡ out.old.items ++ chunk_of frame.now) }
    ensures err { OnErr result (out.new.items ≡ out.old.items) }
    ensures room { vec_len out.old + length frame.now + 7 ≤ vec_capacity out.old → IsOk result }
    ensures capacity { vec_capacity out.old ≤ vec_capacity out.new }
{
    let bytes = frame.bytes();
    out.reserve(bytes.len() + OVERHEAD)?;
    if append(out, bytes).is_err() {
        unreachable!();
    }
    Ok(())
}

// Appends these bytes as a chunk.
fn append(out: &mut Vec<u8>, bytes: &[u8]) -> Result<(), AllocError>
    ensures ok { OnOk result (out.new.items ≡ out.old.items ++ chunk_of bytes.now) }
    ensures room { vec_len out.old + length (chunk_of bytes.now) ≤ vec_capacity out.old
        → IsOk result }
    ensures capacity { vec_capacity out.old ≤ vec_capacity out.new }
{
    push_hex(out, bytes.len() as u64)?;
    out.extend_from_slice(b"\r\n")?;
    out.extend_from_slice(bytes)?;
    out.extend_from_slice(b"\r\n")
}
