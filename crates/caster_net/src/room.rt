//! The room that a socket has for what its peer is sent.
ghost use Rattle.std.specs.Prelude.{◌≡◌, ℕ, Bool, Some, IfOk, IfSome, IsTrue};
ghost use Rattle.send_room.specs.Flows.{IsStuck, new_flow, with_taken, with_try};
ghost use Rattle.caster_net.specs.Rooms.{IsShut, found, tuned};

use crate::options::{set_buffer, set_user_timeout};
use crate::waiting::has_room;
use send_room::{Flow, Stuck};
use std::io;
use std::marker::Model;
use std::os::fd::RawFd;
use std::time::Instant;

/// How the peer of a socket takes what it is sent, by the clock. Contracts see what is decided of
/// that, and not the clock.
#[derive(Drop)]
pub(crate) struct Room {
    begun: Instant,
    // What the clock showed last, in milliseconds since then.
    last: u64,
    flow: Flow,
}

impl Model for Room {
    ghost use Rattle.send_room.specs.declared.flow.Flow.{Flow};

    ghost Value = { Flow };

    ghost view = { λ r. r.flow };
}

impl Room {
    /// That of a connection that begins now, whose buffer it sets.
    pub(crate) fn from_now(rt: &HostRuntime, fd: RawFd) -> io::Result<Room>
        ensures new { IfOk result (λ room. room ≡ new_flow) }
    {
        let begun = Instant::now(rt)?;
        let flow = Flow::new();
        set_buffer(fd, flow.size());
        Ok(Room {
            begun,
            last: 0,
            flow,
        })
    }

    /// The peer took so many bytes.
    pub(crate) fn take(&mut self, rt: &HostRuntime, count: usize)
        ensures taken { (now : ℕ) × (self.new ≡ with_taken now count self.old) }
    {
        let now = self.now(rt);
        self.flow.take(now, count as u64);
    }

    /// Sets what the peer's taking asks for.
    pub(crate) fn tune(&mut self, rt: &HostRuntime, fd: RawFd)
        ensures tuned { (now : ℕ) × (self.new ≡ tuned now self.old) }
    {
        let now = self.now(rt);
        if let Some(size) = self.flow.resize(now) {
            set_buffer(fd, size);
        }
        if let Some(timeout) = self.flow.retime(now) {
            set_user_timeout(fd, timeout);
        }
    }

    /// Waits so many milliseconds for room at most. Whether there is some, or the connection has
    /// failed or ended: the next call of the socket tells.
    pub(crate) fn wait(&mut self, fd: RawFd, limit: i32) -> bool
        ensures { self.new ≡ found result self.old }
    {
        let has_room = has_room(fd, limit);
        if has_room {
            self.flow.find_room();
        }
        has_room
    }

    /// Whether a look finds room, or the connection has failed or ended. Where the peer is idle there
    /// is room, and the system is not asked.
    pub(crate) fn look(&mut self, fd: RawFd) -> bool
        ensures found { self.new ≡ found result self.old }
        ensures idle { IsTrue self.old.is_idle → IsTrue result }
    {
        if self.flow.is_idle() {
            self.flow.find_room();
            return true;
        }
        self.wait(fd, 0)
    }

    /// There was no room at a look. What shows that it is so for 90 seconds, if it is.
    pub(crate) fn find_none(&mut self, rt: &HostRuntime) -> Option<Stuck>
        ensures stuck { IfSome result IsStuck }
        ensures since { IfSome result (λ stuck. self.new.closed ≡ Some stuck.since) }
        ensures shut { IsShut self.new }
        ensures same { self.new ≡ record self.old { closed = self.new.closed } }
    {
        let now = self.now(rt);
        self.flow.find_none(now)
    }

    /// With nothing left to send, tries whether there is room at the least size, where that is due.
    pub(crate) fn try_least(&mut self, rt: &HostRuntime, fd: RawFd)
        ensures tried { (now : ℕ) × (has_room : Bool)
            × (self.new ≡ with_try now has_room self.old) }
    {
        let now = self.now(rt);
        if let Some(size) = self.flow.begin_try(now) {
            set_buffer(fd, size);
            let size = self.flow.end_try(now, has_room(fd, 0));
            set_buffer(fd, size);
        }
    }

    // How many milliseconds ago the connection began; where the clock fails, as it showed last.
    // Untied: what the clock shows.
    fn now(&mut self, rt: &HostRuntime) -> u64
        ensures { self.new ≡ self.old }
    {
        if let Ok(since) = self.begun.elapsed(rt) {
            self.last = u64::try_from(since.as_millis()).unwrap_or(u64::MAX);
        }
        self.last
    }
}
