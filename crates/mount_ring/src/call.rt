use crate::cursor::{Cursor, ReadReport};
use rtcm_frame::Frame;

/// A call that a connection makes on a mountpoint's ring.
#[derive(Clone, Copy, Debug, PartialEq, Eq)]
pub enum RingCall {
    /// Asks to be the one source of the mountpoint.
    Claim,
    /// Gives the claim of this number back.
    Release(u64),
    /// Publishes a frame under the claim of this number.
    Publish(u64, Frame),
    /// Begins to read, through the filter of this number, behind the frames that were published so
    /// far.
    Join(u32),
    /// Asks whether the mountpoint is held.
    Look,
    /// Reads from the cursor on. A budget of more than 16 frames counts as 16.
    Read { cursor: Cursor, budget: u32 },
}

/// What a ring answers to a call.
#[derive(Clone, Copy, Debug, PartialEq, Eq)]
pub enum RingAnswer {
    /// The claim was given, and has this number. Claims are numbered from 1.
    Given(u64),
    /// The mountpoint is held already, by this caller, who may be the one that asked, under this
    /// claim.
    Taken { caller: u32, claim: u64 },
    /// The claim was given back.
    Released,
    /// The frame was published at this place.
    At(u64),
    /// The reader joined, and stands here.
    Joined(Cursor),
    /// The claim under which the mountpoint is held; `None` where nobody holds it.
    Looked(Option<u64>),
    /// What a read found. The frames are in the outbox.
    Read(ReadReport),
}

/// The caller that holds a mountpoint, and the number of its claim.
#[derive(Clone, Copy, Debug, PartialEq, Eq)]
pub struct Holder {
    pub caller: u32,
    pub claim: u64,
}
