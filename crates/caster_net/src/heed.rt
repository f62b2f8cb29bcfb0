//! What a link heeds beside its peer's bytes: the stop and QUIET, and the room at its socket.
ghost use Rattle.std.specs.Prelude.{◌≡◌, None, Some, IfSome, IsFalse, IsSome, IsSomeAnd, IsTrue, option_map};
ghost use Rattle.caster_net.specs.declared.heed.Awaited.TheVariants as awaits;
ghost use Rattle.caster_net.specs.declared.keep.Cut.TheVariants as cuts;
ghost use Rattle.caster_net.specs.Rooms.{IsLooked, IsOpen, IsShut, IsStuckAt, IsTold, IsTried, measured, new_heed};
ghost use Rattle.caster_net.specs.Silence.{IsTooLong, keep_but_found, keep_given, keep_taken};

use crate::keep::{Cut, Keep};
use crate::room::Room;
use crate::waiting::{MAX_KEPT_REST, MAX_REST, has_room, poll_millis};
use send_room::Haste;
use std::io;
use std::marker::Model;
use std::os::fd::RawFd;
use std::time::{Duration, Instant};

// How often a read looks for room at most: longer than 90 seconds, a quarter of a second each.
const MAX_LOOKS: u32 = 400;

/// What a read that waited for room comes to.
#[derive(Drop)]
pub(crate) enum Awaited<'a> {
    /// There is room, and the peer may be read.
    Room,
    /// There was none, and nothing is read.
    Nothing,
    /// The link is read no more, as this shows.
    Cut(Cut<'a>),
}

/// One wait of a write for room.
#[derive(Drop)]
pub(crate) struct Wait {
    begun: Instant,
    haste: Haste,
}

/// What a link heeds. Contracts see what it heeds of a stop and of QUIET, and how its peer takes
/// what it is sent, where its reads wait for room.
#[derive(Drop)]
pub(crate) struct Heed<'a> {
    pub(crate) rt: &'a HostRuntime,
    // Of a link of a gate.
    keep: Option<Keep<'a>>,
    // Of a link whose reads wait for room.
    room: Option<Room>,
}

impl<'a> Model for Heed<'a> {
    ghost use Rattle.caster_net.specs.Rooms.{HeedState};

    ghost Value = { HeedState };

    ghost view = { λ h. record { keep = h.keep; room = h.room } };
}

impl<'a> Heed<'a> {
    /// That of a link which heeds nothing.
    pub(crate) fn nothing(rt: &'a HostRuntime) -> Self
        ensures { result ≡ new_heed }
    {
        Heed {
            rt,
            keep: None,
            room: None,
        }
    }

    /// From now on the stop and QUIET are heeded.
    pub(crate) fn set_keep(&mut self, keep: Keep<'a>)
        ensures { self.new ≡ record self.old { keep = Some keep.entry } }
    {
        self.keep = Some(keep);
    }

    /// From now on the room at this socket is heeded, of a connection that begins now.
    pub(crate) fn set_room(&mut self, room: Room)
        ensures { self.new ≡ record self.old { room = Some room } }
    {
        self.room = Some(room);
    }

    /// How long the longest rest of the link is.
    pub(crate) fn longest(&self) -> Duration {
        Duration::from_millis(match self.keep {
            Some(_) => MAX_KEPT_REST,
            None => MAX_REST,
        })
    }

    /// What a read comes to at this socket, which waits for room at it where the link heeds that.
    pub(crate) fn await_room(&mut self, fd: RawFd) -> Awaited<'a>
        ensures keep { self.new.keep ≡ self.old.keep }
        ensures open { result ≡ awaits.Room → IfSome self.new.room IsOpen }
        ensures shut { result ≡ awaits.Nothing → IsSomeAnd self.new.room IsShut }
        ensures stopped { (asked : _) → result ≡ awaits.Cut (cuts.Stopped asked)
            → IsSomeAnd self.old.keep (λ keep. asked.of ≡ keep.stop) }
        ensures quiet { (silence : _) → result ≡ awaits.Cut (cuts.Quiet silence)
            → IsSomeAnd self.old.keep (λ keep. IsSomeAnd keep.quiet
            (λ quiet. IsTooLong quiet.limit silence)) }
        ensures stuck { (stuck : _) → result ≡ awaits.Cut (cuts.Stuck stuck)
            → IsSomeAnd self.new.room (IsStuckAt stuck) }
    {
        if let Some(cut) = self.cut() {
            return Awaited::Cut(cut);
        }
        for _ in 0..MAX_LOOKS {
            match self.look(fd) {
                Awaited::Nothing => self.wait(fd, MAX_KEPT_REST),
                known => return known,
            }
        }
        self.look(fd)
    }

    // What one look for room at this socket comes to.
    fn look(&mut self, fd: RawFd) -> Awaited<'a>
        ensures keep { self.new.keep ≡ self.old.keep }
        ensures open { result ≡ awaits.Room → IfSome self.new.room IsOpen }
        ensures shut { result ≡ awaits.Nothing → IsSomeAnd self.new.room IsShut }
        ensures stopped { (asked : _) → result ≡ awaits.Cut (cuts.Stopped asked)
            → IsSomeAnd self.old.keep (λ keep. asked.of ≡ keep.stop) }
        ensures quiet { (silence : _) → result ≡ awaits.Cut (cuts.Quiet silence)
            → IsSomeAnd self.old.keep (λ keep. IsSomeAnd keep.quiet
            (λ quiet. IsTooLong quiet.limit silence)) }
        ensures stuck { (stuck : _) → result ≡ awaits.Cut (cuts.Stuck stuck)
            → IsSomeAnd self.new.room (IsStuckAt stuck) }
    {
        if self.has_room(fd) {
            return Awaited::Room;
        }
        match self.cut_in_wait() {
            Some(cut) => Awaited::Cut(cut),
            None => Awaited::Nothing,
        }
    }

    // Whether there is room at this socket, or none is asked for. First what the peer's taking asks
    // for is set.
    fn has_room(&mut self, fd: RawFd) -> bool
        ensures keep { self.new.keep ≡ self.old.keep }
        ensures open { IsTrue result → IfSome self.new.room IsOpen }
        ensures heeded { IsFalse result → IsSome self.new.room }
        ensures looked { IsLooked self.old.room self.new.room }
    {
        match &mut self.room {
            Some(room) => {
                room.tune(self.rt, fd);
                room.look(fd)
            }
            None => true,
        }
    }

    // Whether the link is read no more, and why.
    fn cut(&self) -> Option<Cut<'a>>
        ensures stopped { (asked : _) → result ≡ Some (cuts.Stopped asked)
            → IsSomeAnd self.now.keep (λ keep. asked.of ≡ keep.stop) }
        ensures quiet { (silence : _) → result ≡ Some (cuts.Quiet silence)
            → IsSomeAnd self.now.keep (λ keep. IsSomeAnd keep.quiet
            (λ quiet. IsTooLong quiet.limit silence)) }
        ensures not_stuck { (stuck : _) → result ≡ Some (cuts.Stuck stuck) → ⊥ }
    {
        self.keep.as_ref()?.cut()
    }

    // Whether a link whose look found no room is read no more, and why.
    fn cut_in_wait(&mut self) -> Option<Cut<'a>>
        ensures keep { self.new.keep ≡ self.old.keep }
        ensures same_kind { IsSome self.old.room → IsSome self.new.room }
        ensures shut { result ≡ None → IfSome self.new.room IsShut }
        ensures stopped { (asked : _) → result ≡ Some (cuts.Stopped asked)
            → IsSomeAnd self.old.keep (λ keep. asked.of ≡ keep.stop) }
        ensures quiet { (silence : _) → result ≡ Some (cuts.Quiet silence)
            → IsSomeAnd self.old.keep (λ keep. IsSomeAnd keep.quiet
            (λ quiet. IsTooLong quiet.limit silence)) }
        ensures stuck { (stuck : _) → result ≡ Some (cuts.Stuck stuck)
            → IsSomeAnd self.new.room (IsStuckAt stuck) }
    {
        if let Some(keep) = &self.keep
            && let Some(cut) = keep.cut_in_wait()
        {
            return Some(cut);
        }
        let stuck = self.room.as_mut()?.find_none(self.rt)?;
        Some(Cut::Stuck(stuck))
    }

    /// Waits so many milliseconds for room at this socket at most.
    pub(crate) fn wait(&mut self, fd: RawFd, limit: u64)
        ensures keep { self.new.keep ≡ self.old.keep }
        ensures room { option_map measured self.new.room ≡ option_map measured self.old.room }
    {
        let limit = poll_millis(Duration::from_millis(limit));
        match &mut self.room {
            Some(room) => {
                room.wait(fd, limit);
            }
            None => {
                has_room(fd, limit);
            }
        }
    }

    /// With nothing left to send, finds out whether the peer is caught up.
    pub(crate) fn catch_up(&mut self, fd: RawFd)
        ensures keep { self.new.keep ≡ self.old.keep }
        ensures tried { IsTried self.old.room self.new.room }
    {
        if let Some(room) = &mut self.room {
            room.try_least(self.rt, fd);
        }
    }

    /// A write begins to wait for room.
    pub(crate) fn begin_wait(&self) -> io::Result<Wait> {
        Ok(Wait {
            begun: Instant::now(self.rt)?,
            haste: Haste::new(),
        })
    }

    /// Whether a write gives up that has found no room in this wait: after 90 seconds without room,
    /// and behind the stop after ten. Where the reads of the link do not wait for room, one thread
    /// has many such links, and ten are all.
    // Untied: when a write that waits for room gives up.
    pub(crate) fn gives_up(&mut self, wait: &mut Wait) -> bool
        ensures keep { self.new.keep ≡ self.old.keep }
        ensures room { option_map measured self.new.room ≡ option_map measured self.old.room }
    {
        let hurries = match &self.keep {
            Some(keep) => keep.is_stopped(),
            None => self.room.is_none(),
        };
        let is_stuck = match &mut self.room {
            Some(room) => room.find_none(self.rt).is_some(),
            None => false,
        };
        is_stuck || wait.is_over(self.rt, hurries)
    }

    /// The link gave bytes.
    pub(crate) fn give(&mut self)
        ensures given { self.new ≡ record self.old { keep = option_map keep_given self.old.keep } }
    {
        if let Some(keep) = &mut self.keep {
            keep.give();
        }
    }

    /// A read found nothing.
    pub(crate) fn find_nothing(&mut self)
        ensures rest { option_map keep_but_found self.new.keep
            ≡ option_map keep_but_found self.old.keep }
        ensures room { self.new.room ≡ self.old.room }
    {
        if let Some(keep) = &mut self.keep {
            keep.find_nothing();
        }
    }

    /// The link took all of a piece.
    pub(crate) fn take(&mut self)
        ensures taken { self.new ≡ record self.old { keep = option_map keep_taken self.old.keep } }
    {
        if let Some(keep) = &mut self.keep {
            keep.take();
        }
    }

    /// The peer took so many bytes of a piece.
    pub(crate) fn take_part(&mut self, count: usize)
        ensures keep { self.new.keep ≡ self.old.keep }
        ensures told { IsTold count self.old.room self.new.room }
    {
        if let Some(room) = &mut self.room {
            room.take(self.rt, count);
        }
    }
}

impl Wait {
    // Whether it is over now, at which it hurries or does not.
    // Untied: when a write that waits for room gives up.
    fn is_over(&mut self, rt: &HostRuntime, hurries: bool) -> bool {
        match self.begun.elapsed(rt) {
            Ok(waited) => self.haste.is_over(
                u64::try_from(waited.as_millis()).unwrap_or(u64::MAX),
                hurries,
            ),
            Err(_) => true,
        }
    }
}
