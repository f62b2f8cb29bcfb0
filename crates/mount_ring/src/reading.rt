ghost use Rattle.std.specs.Prelude.{◌≡◌, ◌-◌, ◌<◌, ◌≤◌, length, take, drop};
ghost use Rattle.std.specs.List.{filter as permitted_of};
ghost use Rattle.type_filter.specs.Permitted.{permits};
ghost use Rattle.mount_ring.specs.Reads.{looked, most_taken};

use crate::cursor::{Cursor, Lap};
use crate::outbox::Outbox;
use circular_buffer::HeapCircularBuffer;
use rtcm_frame::Frame;
use type_filter::Filter;

/// Where a read begins: the place of the first frame to look at, how many permitted frames stand
/// before it, and the lap where the cursor was lapped.
#[derive(Clone, Copy)]
pub(crate) struct ReadStart {
    pub(crate) place: u64,
    pub(crate) passed: u64,
    pub(crate) lapped: Option<Lap>,
}

impl ReadStart {
    ghost use Rattle.mount_ring.specs.Starts.{start_found};

    /// The start of a read from a cursor, where the ring keeps the frames from `kept_from` on and
    /// dropped so many permitted ones before it.
    pub(crate) fn find(cursor: Cursor, dropped: u64, kept_from: u64, published: u64) -> ReadStart
        requires { cursor.next < kept_from → cursor.passed ≤ dropped }
        ensures { result ≡ start_found cursor dropped kept_from published }
    {
        if cursor.next < kept_from {
            ReadStart {
                place: kept_from,
                passed: dropped,
                lapped: Some(Lap {
                    from: cursor.next,
                    to: kept_from,
                    published,
                    overrun: dropped - cursor.passed,
                }),
            }
        } else {
            ReadStart {
                place: cursor.next,
                passed: cursor.passed,
                lapped: None,
            }
        }
    }
}

/// Takes the first permitted frames from an index on, at most the budget, and gives how many frames
/// it looked at.
pub(crate) fn take_frames(
    frames: &HeapCircularBuffer<Frame>,
    from: usize,
    filter: &Filter,
    budget: usize,
    out: &mut Outbox,
) -> usize
    requires few { budget ≤ most_taken }
    requires within { from ≤ length frames.now.items }
    ensures looked { result ≡ looked (permits filter.now) budget (drop from frames.now.items) }
    ensures out { out.new
        ≡ take budget (permitted_of (permits filter.now) (drop from frames.now.items)) }
{
    out.clear();
    let mut left = budget;
    let mut index = from;
    while left > 0 && index < frames.len() {
        let Some(frame) = frames.get(index) else {
            unreachable!();
        };
        if filter.permits(frame) {
            out.push(frame);
            left -= 1;
        }
        index += 1;
    }
    index - from
}
