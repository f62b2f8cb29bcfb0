//! How a peer takes what it is sent.
ghost use Rattle.std.specs.Prelude.{◌≡◌, ◌-◌, ◌≤◌, ◌↔◌, ◌&&◌, Some, IsSome, IfSome, if◌then◌else◌, is_some, sum, take, unwrap_or};
ghost use Rattle.send_room.specs.Flows.{IsStuck, closed_since, is_asked, is_caught_up, is_try_due, lately, later, new_flow, second_at, size_to_set, timeout_at, timeout_to_set, wanted_at, with_taken};

use crate::stuck::Stuck;

// How many half seconds are looked back at.
const HALVES: usize = 8;

// One of them, in milliseconds.
const HALF: u64 = 500;

// The least and the largest size of the buffer, and that of a peer that was just caught up, in
// bytes.
const LEAST: u32 = 4_096;

const MOST: u32 = 262_144;

const FIRST: u32 = 16_384;

// For how long a peer counts as caught up after it was found so, in milliseconds.
const CAUGHT_UP: u64 = 2_000;

// After how many milliseconds a peer is gone that acknowledges nothing, where it was caught up.
const UNACKNOWLEDGED: u32 = 90_000;

// After how many milliseconds it is tried again if there is room at the least size.
const TRY_EVERY: u64 = 250;

/// How a peer takes what it is sent, and what was made of that: the size of the socket's buffer, so
/// that what waits for a slow peer waits in its ring; for how long the system waits for its
/// acknowledgement; and since when there is no room.
///
/// Times are milliseconds since the connection began. Where one is before an earlier one, it counts
/// as that.
#[derive(Drop)]
pub struct Flow {
    // How many bytes were taken in each of the last eight half seconds, the latest first.
    taken: [u32; HALVES],
    // Which half second the latest of them is.
    half: u64,
    // The size that is set, but during a try.
    size: u32,
    // The system's wait for an acknowledgement that is set; 0 is for ever, and stays.
    timeout: u32,
    // Since when no look found room.
    closed: Option<u64>,
    // When the peer was caught up last; at first, the beginning.
    caught: u64,
    // When it was tried last if there is room at the least size.
    tried: u64,
    // Whether nothing was taken since a try that found room.
    is_idle: bool,
}

impl Flow {
    /// That of a connection that begins, at which these are set: a buffer of 16,384 bytes, and 90
    /// seconds without an acknowledgement.
    pub fn new() -> Flow
        ensures { result ≡ new_flow }
    {
        Flow {
            taken: [0; HALVES],
            half: 0,
            size: FIRST,
            timeout: UNACKNOWLEDGED,
            closed: None,
            caught: 0,
            tried: 0,
            is_idle: false,
        }
    }

    /// The size of the buffer with which the connection begins, in bytes.
    pub fn size(&self) -> u32
        ensures { result ≡ self.now.size }
    {
        self.size
    }

    /// The peer took so many bytes.
    pub fn take(&mut self, now: u64, count: u64)
        ensures { self.new ≡ with_taken now count self.old }
    {
        self.taken = self.lately(now);
        let latest = u64::from(self.taken[0]).saturating_add(count);
        self.taken[0] = u32::try_from(latest).unwrap_or(u32::MAX);
        self.half = self.half.max(now / HALF);
        self.closed = None;
        self.is_idle = false;
    }

    /// The size that the buffer is to have.
    pub fn wanted(&self, now: u64) -> u32
        ensures { result ≡ wanted_at now self.now }
    {
        let least = if self.is_caught_up(now) { FIRST } else { LEAST };
        let second = u32::try_from(self.second(now)).unwrap_or(MOST);
        least.max(second.min(MOST))
    }

    /// The size that is to be set now, where it differs by a quarter of the one that is set.
    pub fn resize(&mut self, now: u64) -> Option<u32>
        ensures size { result ≡ size_to_set now self.old }
        ensures set { self.new ≡ record self.old { size = unwrap_or result self.old.size } }
    {
        let wanted = self.wanted(now);
        let (old, new) = (u64::from(self.size), u64::from(wanted));
        if 5 * old > 4 * new && 4 * new > 3 * old {
            return None;
        }
        self.size = wanted;
        Some(wanted)
    }

    /// The system's wait for an acknowledgement that is to be set now, where it is not set. Of a
    /// peer that was behind once it is 0 from then on, which is for ever.
    pub fn retime(&mut self, now: u64) -> Option<u32>
        ensures timeout { result ≡ timeout_to_set now self.old }
        ensures set { self.new ≡ record self.old { timeout = timeout_at now self.old } }
    {
        let timeout = if self.timeout > 0 && self.is_caught_up(now) {
            UNACKNOWLEDGED
        } else {
            0
        };
        if timeout == self.timeout {
            return None;
        }
        self.timeout = timeout;
        Some(timeout)
    }

    /// A look found room.
    pub fn find_room(&mut self)
        ensures { self.new ≡ record self.old { closed = None } }
    {
        self.closed = None;
    }

    /// A look found no room. What shows that it is so for 90 seconds, if it is.
    pub fn find_none(&mut self, now: u64) -> Option<Stuck>
        ensures closed { self.new ≡ record self.old { closed = Some (closed_since now self.old) } }
        ensures stuck { IsSome result ↔ (90000 ≤ now - closed_since now self.old) }
        ensures shown { IfSome result IsStuck }
        ensures from { IfSome result (λ stuck. stuck.since ≡ closed_since now self.old) }
    {
        let since = self.closed.unwrap_or(now);
        self.closed = Some(since);
        Stuck::since(since, now)
    }

    /// Whether nothing was taken since a try found room: then there is room at any size.
    pub fn is_idle(&self) -> bool
        ensures { result ≡ self.now.is_idle }
    {
        self.is_idle
    }

    /// Whether the system is asked now if there is room at the least size. If so, that is the size
    /// for as long, and `end_try` is to follow. Where nothing was taken since there was room, the
    /// peer is caught up still, and the system is not asked.
    pub fn begin_try(&mut self, now: u64) -> Option<u32>
        ensures due { is_some result ≡ is_asked now self.old }
        ensures least { IfSome result (λ size. size ≡ 4096) }
        ensures set { self.new ≡ record self.old {
          caught = if is_try_due now self.old && self.old.is_idle then now else self.old.caught;
          tried = if is_try_due now self.old then now else self.old.tried;
        } }
    {
        if now.saturating_sub(self.tried) < TRY_EVERY {
            return None;
        }
        self.tried = now;
        if self.is_idle {
            self.caught = now;
            return None;
        }
        Some(LEAST)
    }

    /// A try ends that found room or did not, with nothing left to send: where there is room at the
    /// least size, the peer is caught up. The size that is to be set again.
    pub fn end_try(&mut self, now: u64, has_room: bool) -> u32
        ensures again { result ≡ self.old.size }
        ensures caught { self.new ≡ record self.old {
          caught = if has_room then now else self.old.caught;
          is_idle = has_room;
        } }
    {
        self.is_idle = has_room;
        if has_room {
            self.caught = now;
        }
        self.size
    }

    // Whether the peer was caught up less than two seconds ago.
    fn is_caught_up(&self, now: u64) -> bool
        ensures { result ≡ is_caught_up now self.now }
    {
        now.saturating_sub(self.caught) < CAUGHT_UP
    }

    // What was taken in each of the eight half seconds up to now, the latest first.
    fn lately(&self, now: u64) -> [u32; HALVES]
        ensures { result ≡ lately now self.now }
    {
        later(&self.taken, (now / HALF).saturating_sub(self.half))
    }

    // How many bytes were taken in a second: in half of the last two where the peer was just caught
    // up, so that the size follows one that takes more and more, and in a quarter of the last four.
    fn second(&self, now: u64) -> u64
        ensures { result ≡ second_at now self.now }
    {
        if self.is_caught_up(now) {
            self.taken_lately(now, HALVES / 2) / 2
        } else {
            self.taken_lately(now, HALVES) / 4
        }
    }

    // How many bytes were taken in so many half seconds up to now.
    fn taken_lately(&self, now: u64, halves: usize) -> u64
        requires eight { halves ≤ 8 }
        ensures { result ≡ sum (take halves (lately now self.now)) }
    {
        let taken = self.lately(now);
        let mut sum = 0;
        for count in &taken[..halves] {
            sum += u64::from(*count);
        }
        sum
    }
}

// What was taken in each of the last eight half seconds, so many half seconds later.
fn later(taken: &[u32; HALVES], halves: u64) -> [u32; HALVES]
    ensures { result ≡ later halves taken.now }
{
    let gone = halves.min(8) as usize;
    let mut later = [0; HALVES];
    later[gone..].copy_from_slice(&taken[..HALVES - gone]);
    later
}
