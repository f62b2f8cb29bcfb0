//! Frames of which a byte was changed on their way. What is expected was counted by the rules of
//! the transport layer (RTCM 10403.3).

use crate::caster::{FRAME_A, FRAME_B, ICY, ROVER, SOURCE, Wanted, ends, expect_two};
use crate::{Act, Who};
use session_core::Ending;
use std::alloc::Global;
use std::process::Abort;
use std::test::Fail;

/// What a rover is sent that is let in: its reply, and the frame of the number 1077.
const ICY_B: &[u8] = b"ICY 200 OK\r\n\r\n\xd3\x00\x02\x43\x50\x06\xa2\x7e";

/// What a rover and a source come to, of which the rover is sent this and so many frames, and the
/// source had so many bytes of junk.
fn both(sent: &[u8], frames: u64, junk: u64) -> (Wanted, Wanted) {
    let rover = Wanted {
        entered: true,
        frames,
        ..ends(Ending::RoverEnd, sent)
    };
    let source = Wanted {
        junk,
        ..ends(Ending::SourceEnd { claim: 1 }, ICY)
    };
    (rover, source)
}

/// A source sends two frames, and of the byte at this place of the first one these bits are
/// changed. The changed bytes are junk, or the second frame is taken for a part of the first.
fn expect_changed(
    rt: &impl Abort,
    alloc: Global,
    place: usize,
    bits: u8,
    is_longer: bool,
) -> Result<(), Fail> {
    let mut changed = FRAME_A.to_vec(alloc)?;
    if let Some(byte) = changed.get_mut(place) {
        *byte ^= bits;
    }
    let script = [
        (Who::First, Act::In(ROVER)),
        (Who::Second, Act::In(SOURCE)),
        (Who::Second, Act::In(&changed)),
        (Who::Second, Act::In(FRAME_B)),
        (Who::First, Act::Turn(16)),
    ];
    let (rover, source) = if is_longer {
        both(ICY, 0, 0)
    } else {
        both(ICY_B, 1, 8)
    };
    expect_two(rt, alloc, &script, rover, source)
}

// The lengths that are changed are 258 and 130 in place of 2.
#[test]
fn a_frame_with_a_changed_byte_is_not_published(rt: HostRuntime) -> Result<(), Fail> {
    for place in 0..FRAME_A.len() {
        expect_changed(&rt, rt.alloc(), place, 0x01, place == 1)?;
        expect_changed(&rt, rt.alloc(), place, 0x80, place == 2)?;
    }
    Ok(())
}
