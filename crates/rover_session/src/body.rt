//! The bytes that a rover is sent.
ghost use Rattle.std.specs.Prelude.{◌≡◌, ◌+◌, ◌*◌, ◌≤◌, ◌++◌, length, All, IsOk, IsTrue, OnOk, vec_len};
ghost use Rattle.rtcm_frame.specs.Transport.{is_frame};
ghost use Rattle.std.specs.Vec.{vec_capacity};
ghost use Rattle.rover_session.specs.Body.{frame_sent, body_of};

use chunk_body::chunk;
use mount_ring::MAX_BUDGET;
use ntrip_head::Version;
use rtcm_frame::Frame;
use std::alloc::AllocError;

/// The most bytes that one frame takes: 1,029 of its own, and 7 of a chunk's size and line ends.
const MAX_CHUNK_BYTES: usize = 1_036;

/// The most bytes of one turn: those of as many frames as one read takes.
pub(crate) const MAX_TURN_BYTES: usize = MAX_BUDGET as usize * MAX_CHUNK_BYTES;

/// Appends a frame as it is (RTCM 10410.0), or as one chunk (RFC 9112, section 7.1). No refusal
/// comes where room for the largest frame was reserved.
fn push_frame(version: Version, frame: &Frame, out: &mut Vec<u8>) -> Result<(), AllocError>
    ensures ok { OnOk result (out.new.items ≡ out.old.items ++ frame_sent version frame.now) }
    ensures len { OnOk result (vec_len out.new ≤ vec_len out.old + MAX_CHUNK_BYTES) }
    ensures room { vec_len out.old + MAX_CHUNK_BYTES ≤ vec_capacity out.old → IsOk result }
    ensures capacity { vec_capacity out.old ≤ vec_capacity out.new }
    ensures valid { IsTrue (is_frame frame.now) }
{
    let bytes = frame.bytes();
    match version {
        Version::One => out.extend_from_slice(bytes),
        Version::Two => chunk(frame, out),
    }
}

/// Appends the frames as they are, or one chunk each. No refusal comes where room for as many of
/// the largest frames was reserved.
pub fn push_frames(version: Version, frames: &[Frame], out: &mut Vec<u8>) -> Result<(), AllocError>
    ensures ok { OnOk result (out.new.items ≡ out.old.items ++ body_of version frames.now) }
    ensures room { vec_len out.old + 1036 * length frames.now ≤ vec_capacity out.old
        → IsOk result }
    ensures valid { OnOk result (All (λ frame. IsTrue (is_frame frame)) frames.now) }
{
    for frame in frames {
        push_frame(version, frame, out)?;
    }
    Ok(())
}

/// Appends the frames as they are, or one chunk each. There is room for them.
pub(crate) fn append_frames(version: Version, frames: &[Frame], out: &mut Vec<u8>)
    requires room { vec_len out.old + MAX_CHUNK_BYTES * length frames.now ≤ vec_capacity out.old }
    ensures items { out.new.items ≡ out.old.items ++ body_of version frames.now }
    ensures valid { All (λ frame. IsTrue (is_frame frame)) frames.now }
{
    let Ok(()) = push_frames(version, frames, out) else {
        unreachable!();
    };
}
