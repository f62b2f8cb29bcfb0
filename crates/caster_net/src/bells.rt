//! The bells that end the rests of links, as frames may have been published, and what a link has to
//! do with them.
ghost use Rattle.std.specs.Prelude.{◌≡◌, ◌≤◌, ◌&&◌, false, not, is_none, is_some, vec_len, IfOk, Some};
ghost use Rattle.caster_net.specs.Rests.{heard, silent, waits_for_bell};

use std::io::{ErrorKind, Read, Write};
use std::marker::Model;
use std::os::fd::{AsRawFd, RawFd};
use std::os::unix::net::UnixStream;
use std::sync::OnceLock;
use std::sync::atomic::{AtomicBool, Ordering};
use std::time::Duration;
use std::{io, thread};

// The first byte of every frame, which no head and no report has.
const PREAMBLE: u8 = 0xD3;

// How many bells there are. Where there are more mountpoints, some share one.
const BELLS: u32 = 64;

// How often a link looks for a bell that another one is making, with a millisecond between two
// looks.
const LOOKS: u32 = 20;

/// The bells that all links of a street share, one for each mountpoint. It is made when a link
/// first is to wait for it. Where it cannot be made, rests are short.
#[derive(Drop)]
pub struct Bells {
    // Fewer where memory lacks.
    bells: Vec<OnceLock<Bell>>,
    // The last accept found no descriptor for a connection.
    is_short: AtomicBool,
}

// What is written to its rope comes to its ear, where links wait for it at their rests. Nobody
// takes what has come, as each byte more wakes them anew.
#[derive(Drop)]
struct Bell {
    rope: UnixStream,
    ear: UnixStream,
}

impl Bells {
    /// Bells of which none was made yet.
    pub fn new(rt: &HostRuntime) -> Bells
        ensures most { vec_len result.bells ≤ BELLS }
    {
        let mut bells = Vec::new(rt.alloc());
        for _ in 0..BELLS {
            let _ = bells.push(OnceLock::new());
        }
        Bells {
            bells,
            is_short: AtomicBool::new(false),
        }
    }

    /// Notes, for links that wait, whether an accept that gave this found no descriptor for a
    /// connection; and gives it.
    pub(crate) fn note_accept<X>(&self, came: io::Result<X>) -> io::Result<X>
        ensures same { result ≡ came }
    {
        let is_short = match &came {
            Ok(_) => false,
            Err(fault) => fault.raw_os_error() == Some(libc::EMFILE),
        };
        self.is_short.store(is_short, Ordering::SeqCst);
        came
    }

    // Where the bell of this mountpoint is.
    fn place(&self, mount: u32) -> Option<&OnceLock<Bell>> {
        self.bells.get((mount % BELLS) as usize)
    }

    // Ends the rests of all links that wait for the bell of this mountpoint.
    fn ring(&self, mount: u32) {
        if let Some(place) = self.place(mount) {
            ring_at(place);
        }
    }

    // Ends the rests of all links that wait for a bell.
    fn ring_all(&self) {
        for place in &self.bells {
            ring_at(place);
        }
    }

    // The descriptor at which the bell of this mountpoint is heard.
    fn ear(&self, rt: &HostRuntime, mount: u32) -> io::Result<RawFd> {
        let Some(place) = self.place(mount) else {
            return Err(io::Error::from(ErrorKind::OutOfMemory));
        };
        if place.get().is_none() {
            // Of two that are made at once the second is let go.
            let _ = place.try_set(Bell::new(rt)?);
        }
        ear_at(rt, place)
    }
}

impl Bell {
    // A bell that was rung once: who comes to wait for it looks once more. So nothing is missed
    // that happened while nobody could ring it yet.
    fn new(rt: &HostRuntime) -> io::Result<Bell> {
        let (rope, ear) = UnixStream::pair(rt)?;
        rope.set_nonblocking(true)?;
        ear.set_nonblocking(true)?;
        let bell = Bell { rope, ear };
        bell.ring();
        Ok(bell)
    }

    // Where the ear is full it is emptied first.
    fn ring(&self) {
        let mut rope = &self.rope;
        if rope.write(&[1]).is_err() {
            let mut ear = &self.ear;
            let _ = ear.read(&mut [0u8; 4096]);
            let _ = rope.write(&[1]);
        }
    }
}

/// What one link has to do with the bells.
///
/// A link that gave the first byte of a frame is a source: it waits for no bell at its rests, and
/// rings that of its mountpoint where frames that it gave may have been published. Any other link
/// waits for the bell of the mountpoint that it was told last, and while it was told none, for no
/// bell.
#[derive(Drop)]
pub(crate) struct Ringer<'a> {
    bells: &'a Bells,
    is_source: bool,
    // The mountpoint that the link was told last.
    mount: Option<u32>,
    // It gave bytes, and no bell was rung for them yet.
    gave: bool,
}

impl<'a> Model for Ringer<'a> {
    ghost use Rattle.caster_net.specs.Rests.{RingerState};

    ghost Value = { RingerState };

    ghost view = { λ r. record { is_source = r.is_source; mount = r.mount; gave = r.gave } };
}

impl<'a> Ringer<'a> {
    /// That of a link that gave no byte yet.
    pub(crate) fn over(bells: &'a Bells) -> Self
        ensures { result ≡ silent }
    {
        Ringer {
            bells,
            is_source: false,
            mount: None,
            gave: false,
        }
    }

    /// The link gave these bytes. Whether it is a source since then.
    pub(crate) fn hear(&mut self, bytes: &[u8]) -> bool
        ensures heard { self.new ≡ heard bytes.now self.old }
        ensures began { result ≡ (self.new.is_source && not self.old.is_source) }
    {
        let begins = !self.is_source && bytes.contains(&PREAMBLE);
        self.is_source = self.is_source || begins;
        self.gave = self.is_source;
        begins
    }

    /// The link was told this mountpoint.
    pub(crate) fn set_mount(&mut self, mount: u32)
        ensures { self.new ≡ record self.old { mount = Some mount } }
    {
        self.mount = Some(mount);
    }

    /// Rings the bell of its mountpoint where the link gave frames since it last did. Before it was
    /// told one it has published none.
    pub(crate) fn tell(&mut self)
        ensures { self.new ≡ record self.old { gave = self.old.gave && is_none self.old.mount } }
    {
        if self.gave
            && let Some(mount) = self.mount
        {
            self.gave = false;
            self.bells.ring(mount);
        }
    }

    /// Rings for what the link gave since it last did, as it ends. Where it was told no mountpoint,
    /// as one that came to its end with its first bytes, it rings all bells.
    pub(crate) fn tell_last(&mut self)
        ensures { self.new ≡ record self.old { gave = false } }
    {
        self.tell();
        if self.gave {
            self.gave = false;
            self.bells.ring_all();
        }
    }

    /// Where the bell is heard that the link waits for, if it does for one. It fails where an
    /// accept had no descriptor: the link is to need none then.
    pub(crate) fn ear(&self, rt: &HostRuntime) -> io::Result<Option<RawFd>>
        ensures { IfOk result (λ ear. is_some ear ≡ waits_for_bell self.now) }
    {
        if self.bells.is_short.load(Ordering::SeqCst) {
            return Err(io::Error::from_raw_os_error(libc::EMFILE));
        }
        match self.mount {
            Some(mount) if !self.is_source => Ok(Some(self.bells.ear(rt, mount)?)),
            _ => Ok(None),
        }
    }
}

// Rings the bell at this place. Where none is made, nobody waits for it.
fn ring_at(place: &OnceLock<Bell>) {
    if let Some(bell) = place.get() {
        bell.ring();
    }
}

// Where the bell at this place is heard, which may just be put there.
fn ear_at(rt: &HostRuntime, place: &OnceLock<Bell>) -> io::Result<RawFd> {
    for _ in 0..LOOKS {
        if let Some(bell) = place.get() {
            return Ok(bell.ear.as_raw_fd());
        }
        thread::sleep(rt, Duration::from_millis(1));
    }
    Err(io::Error::from(ErrorKind::TimedOut))
}
