//! The frame of a round, from its draws.

ghost use Rattle.std.specs.Prelude.{◌≡◌, ◌+◌, ◌<◌, ◌≤◌, length, IfOk, OnOk};
ghost use Rattle.rtcm_frame.specs.Transport.{framed};
ghost use Rattle.session_make.specs.Draws.{state_after};
ghost use Rattle.session_make.specs.Rounds.{filling, payload_of};

use crate::draws::Draws;
use rtcm_frame::crc24q;
use std::alloc::{AllocError, Global};

/// The first byte of every frame.
const PREAMBLE: u8 = 0xD3;

/// The payload of the round that starts here: its message number, 1001 to 1229, and then 0 to 98
/// random bytes.
pub(crate) fn draw_payload(alloc: Global, draws: &mut Draws) -> Result<Vec<u8>, AllocError>
    ensures bytes { IfOk result (λ payload. payload.items ≡ payload_of draws.old.state) }
    ensures length { IfOk result (λ payload. length payload.items ≤ 100) }
    ensures state { OnOk result
        (draws.new.state ≡ state_after (filling draws.old.state + 2) draws.old.state) }
{
    let filling = draws.draw(99) as usize;
    let number = 1001 + draws.draw(229);
    let mut payload = Vec::with_capacity(alloc, filling + 2)?;
    payload.push((number / 16) as u8)?;
    payload.push((number % 16 * 16) as u8)?;
    for _ in 0..filling {
        let byte = draws.draw(256) as u8;
        payload.push(byte)?;
    }
    Ok(payload)
}

/// The whole frame of a payload of fewer than 1,024 bytes, with reserved bits of zero.
pub(crate) fn frame_of(alloc: Global, payload: &[u8]) -> Result<Vec<u8>, AllocError>
    requires { length payload.now < 1024 }
    ensures { IfOk result (λ frame. frame.items ≡ framed 0 payload.now) }
{
    let n = payload.len();
    let mut frame = Vec::with_capacity(alloc, n + 6)?;
    frame.extend_from_slice(&[PREAMBLE, (n / 256) as u8, (n % 256) as u8])?;
    frame.extend_from_slice(payload)?;
    let crc = crc24q(&frame);
    let checksum = [
        (crc / 65_536) as u8,
        (crc / 256 % 256) as u8,
        (crc % 256) as u8,
    ];
    frame.extend_from_slice(&checksum)?;
    Ok(frame)
}
