//! What links, doors and streets have in common: the count of faults, the errors that say "nothing
//! yet", and how they wait.
ghost use Rattle.std.specs.Prelude.{◌≡◌, ◌≤◌, ◌↔◌, ◌/◌, ◌-◌, ◌^◌, [], ◌∷◌, max, min, pos, IsTrue};
ghost use Rattle.std.specs.Duration.{as_nanos};
ghost use Rattle.cast_io.specs.Causes.{Rose};
ghost use Rattle.caster_net.specs.Honest.{WouldWait};

use libc::net::{POLLOUT, poll};
use libc::types::pollfd;
use std::io::ErrorKind;
use std::os::fd::RawFd;
use std::time::Duration;

/// A short rest, in milliseconds.
pub(crate) const SHORT: u64 = 20;

/// The longest rest of a link, in milliseconds, and how long a write waits between two tries.
pub(crate) const MAX_REST: u64 = 500;

/// The longest rest of a gate and of its links, in milliseconds: each of them sees twice a second
/// or more often whether it is to stop.
pub(crate) const MAX_KEPT_REST: u64 = 250;

/// Counts a failure, and gives this answer.
pub(crate) fn count_fault<X>(faults: &mut u64, answer: X) -> X
    ensures later { faults.old ≤ faults.new }
    ensures rose { Rose faults.old faults.new }
    ensures answer { result ≡ answer }
{
    *faults = faults.saturating_add(1);
    answer
}

/// The call would have to wait, or was interrupted before it did anything.
pub(crate) fn would_wait(kind: ErrorKind) -> bool
    ensures { IsTrue result ↔ WouldWait kind }
{
    matches!(kind, ErrorKind::WouldBlock | ErrorKind::Interrupted)
}

/// This descriptor, as `poll` is asked for it.
pub(crate) fn asked_of(fd: RawFd, wanted: i16) -> [pollfd; 1]
    ensures { result ≡ record { fd = fd; events = wanted; revents = pos 0 } ∷ [] }
{
    [pollfd {
        fd,
        events: wanted,
        revents: 0,
    }]
}

/// Waits so many milliseconds at most until there is room at this socket, or its connection has
/// failed or ended. Whether that is so.
// Untied: whether there is room.
pub(crate) fn has_room(socket: RawFd, limit: i32) -> bool {
    poll(&mut asked_of(socket, POLLOUT), limit) > 0
}

/// So long as `poll` counts it, in milliseconds: it waits, and never for ever, as it would at a
/// number below 0.
pub(crate) fn poll_millis(limit: Duration) -> i32
    ensures { result ≡ pos (max 1 (min (as_nanos limit / 1_000_000) (2 ^ 31 - 1))) }
{
    i32::try_from(limit.as_millis()).unwrap_or(i32::MAX).max(1)
}
