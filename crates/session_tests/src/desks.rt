//! What the tests share: desks of rings, and frames.
ghost use Rattle.std.specs.Prelude.{◌<◌, length, IfOk};
ghost use Rattle.turn_log.specs.Desks.{desk_shape};

use mount_ring::{Cursor, Outbox, Ring, RingCall};
use rtcm_frame::Frame;
use std::alloc::Global;
use std::fmt::Debug;
use std::process::Abort;
use std::test::Fail;
use turn_log::{Desk, Turns};
use type_filter::{Filter, Filters};

/// The shortest frame.
pub(crate) const FRAME_Z: [u8; 6] = [0xD3, 0x00, 0x00, 0x47, 0xEA, 0x4B];

/// A frame whose payload is the number 1005 alone.
pub(crate) const FRAME_A: [u8; 8] = [0xD3, 0x00, 0x02, 0x3E, 0xD0, 0xA4, 0xE0, 0x00];

/// A frame whose payload is the number 1077 alone.
pub(crate) const FRAME_B: [u8; 8] = [0xD3, 0x00, 0x02, 0x43, 0x50, 0x06, 0xA2, 0x7E];

/// What was found is what was wanted. It is proved once for all types, and so costs a test less
/// than an assertion of its own.
pub(crate) fn expect_eq<T: Copy + Debug + PartialEq>(rt: &impl Abort, found: T, wanted: T) {
    assert_eq!(rt; found, wanted);
}

/// The frames of these names: `a` has the number 1005 and `b` the number 1077, and each other name
/// is the shortest frame, which has none.
pub(crate) fn frames_of(alloc: Global, names: &str) -> Result<Vec<Frame>, Fail> {
    let mut frames = Vec::new(alloc);
    for name in names.bytes() {
        let bytes = match name {
            b'a' => FRAME_A.as_slice(),
            b'b' => FRAME_B.as_slice(),
            _ => FRAME_Z.as_slice(),
        };
        frames.push(Frame::of(bytes).ok_or("no frame")?)?;
    }
    Ok(frames)
}

/// A desk of a new ring of four frames that permits every frame.
pub(crate) fn ring_desk(alloc: Global) -> Result<Desk<Ring>, Fail>
    ensures { IfOk result (λ desk. 0 < length (desk_shape desk).filters) }
{
    let mut list = Vec::new(alloc);
    list.push(Filter::all())?;
    Ok(Desk::new(Ring::new(alloc, 4, &Filters::new(list))?))
}

/// The frames that were published at a desk, at most 16.
pub(crate) fn frames_at(alloc: Global, desk: &mut Desk<Ring>) -> Result<Vec<Frame>, Fail>
    requires { 0 < length (desk_shape desk.old).filters }
{
    let mut out = Outbox::new();
    let cursor = Cursor {
        next: 0,
        passed: 0,
        filter: 0,
    };
    desk.turn(2, RingCall::Read { cursor, budget: 16 }, &mut out)?;
    Ok(Vec::from_slice(alloc, out.frames())?)
}
