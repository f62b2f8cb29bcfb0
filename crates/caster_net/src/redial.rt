//! A peer that is dialled again and again.
ghost use Rattle.std.specs.Prelude.{◌≡◌, ◌<◌, ◌⊎◌, IfOk, IfSome, IsNone, IsSome, IsTrue, string_bytes};
ghost use Rattle.caster_net.specs.Gates.{put_off, rested};

use crate::halt::Halt;
use crate::waiting::{MAX_KEPT_REST, asked_of, poll_millis};
use cast_io::Journal;
use libc::net::{POLLOUT, poll};
use mio::net;
use std::io;
use std::io::ErrorKind;
use std::marker::Model;
use std::net::{SocketAddr, TcpStream, ToSocketAddrs};
use std::os::fd::AsRawFd;
use std::time::{Duration, Instant};

/// How long a dial may take, all addresses of a name together, in seconds.
pub(crate) const MAX_DIAL: u64 = 5;

// How long the shortest pause before a dial is, in seconds.
const MIN_PAUSE: u64 = 5;

// How long the longest one is.
const MAX_PAUSE: u64 = 80;

// How long a link lives after which the pause is the shortest one again, in seconds.
const LONG_LIFE: u64 = 60;

/// A connection to a peer, and for contracts alone the address that was dialled.
#[derive(Drop)]
pub(crate) struct Reached {
    pub(crate) stream: TcpStream,
    pub(crate) addr: Journal<u8>,
}

/// A peer, and when it may be dialled. The first dial may be made at once. After a link ended, or a
/// dial failed, the next one is made after a pause, which is doubled each time, and is the shortest
/// again after a link that lived long. Contracts see its address, for how long it is not dialled
/// since it was put off last, and the next pause.
#[derive(Drop)]
pub(crate) struct Redial {
    addr: String,
    // The next pause, in seconds.
    pause: u64,
    // When the last link began.
    begun: Option<Instant>,
    // When it was put off last, and for how many seconds from then.
    put_off: Option<Instant>,
    wait: u64,
}

impl Model for Redial {
    ghost use Rattle.std.specs.Prelude.{string_bytes};
    ghost use Rattle.caster_net.specs.Gates.{RedialState};

    ghost Value = { RedialState };

    ghost view = { λ r. record { addr = string_bytes r.addr; wait = r.wait; pause = r.pause } };
}

impl Redial {
    /// The peer at this address, which was not dialled yet.
    pub(crate) fn of(addr: String) -> Redial
        ensures { result ≡ record { addr = string_bytes addr; wait = 0; pause = MIN_PAUSE } }
    {
        Redial {
            addr,
            pause: MIN_PAUSE,
            begun: None,
            put_off: None,
            wait: 0,
        }
    }

    /// It may not be dialled yet: it was put off, and the clock says that its pause is not over.
    // Untied: when a peer is dialled again.
    pub(crate) fn is_early(&self, rt: &HostRuntime) -> bool
        ensures put_off { IsTrue result → 0 < self.now.wait }
    {
        match self.put_off.map(|put_off| put_off.elapsed(rt)) {
            Some(Ok(waited)) => self.wait > 0 && waited < Duration::from_secs(self.wait),
            _ => false,
        }
    }

    /// Dials the peer, and puts it off where it was not reached.
    pub(crate) fn dial(&mut self, rt: &HostRuntime, halt: &Halt) -> Option<Reached>
        ensures there { IfSome result (λ reached. reached.addr ≡ self.old.addr) }
        ensures reached { IsSome result → self.new ≡ self.old }
        ensures put_off { IsNone result → self.new ≡ put_off self.old }
    {
        let Ok(reached) = connect(rt, halt, &self.addr) else {
            self.put_off(rt);
            return None;
        };
        self.begun = Instant::now(rt).ok();
        Some(reached)
    }

    /// The last link has ended.
    pub(crate) fn end(&mut self, rt: &HostRuntime)
        ensures { (self.new ≡ put_off self.old) ⊎ (self.new ≡ put_off (rested self.old)) }
    {
        if self.has_lived(rt) {
            self.pause = MIN_PAUSE;
        }
        self.put_off(rt);
    }

    /// The next dial is made after a pause from now on.
    pub(crate) fn put_off(&mut self, rt: &HostRuntime)
        ensures { self.new ≡ put_off self.old }
    {
        // Untied line: from when on a pause is waited for.
        self.put_off = Instant::now(rt).ok();
        self.wait = self.pause;
        self.pause = self.pause.saturating_mul(2).min(MAX_PAUSE);
    }

    // The last link lived long.
    // Untied: which pause follows a connection.
    fn has_lived(&self, rt: &HostRuntime) -> bool {
        match self.begun.map(|begun| begun.elapsed(rt)) {
            Some(Ok(life)) => life >= Duration::from_secs(LONG_LIFE),
            _ => false,
        }
    }
}

// Connects to this address, one address of its name after the other, unless the stop is asked for.
// Untied: which address of a name is dialled, and for how long.
fn connect(rt: &HostRuntime, halt: &Halt, addr: &str) -> io::Result<Reached>
    ensures there { IfOk result (λ reached. reached.addr ≡ addr.now) }
{
    let begun = Instant::now(rt)?;
    for each in addr.to_socket_addrs(rt)? {
        if let Ok(stream) = connected_at(rt, halt, each, &begun) {
            return Ok(Reached {
                stream,
                addr: Journal::of_bytes(addr.as_bytes()),
            });
        }
    }
    Err(io::Error::from(ErrorKind::TimedOut))
}

// Connects to this one address, in what is left of the time for a dial that began then.
// Untied: which address of a name is dialled, and for how long.
fn connected_at(
    rt: &HostRuntime,
    halt: &Halt,
    addr: SocketAddr,
    begun: &Instant,
) -> io::Result<TcpStream> {
    let stream = net::TcpStream::connect(rt, addr)?;
    wait_connected(rt, halt, &stream, begun)?;
    Ok(TcpStream::from(stream))
}

// Waits until a connection that is being made is there, and looks now and then whether the stop is
// asked for.
// Untied: which address of a name is dialled, and for how long.
fn wait_connected(
    rt: &HostRuntime,
    halt: &Halt,
    stream: &net::TcpStream,
    begun: &Instant,
) -> io::Result<()> {
    let limit = Duration::from_secs(MAX_DIAL);
    let slice = Duration::from_millis(MAX_KEPT_REST);
    for _ in 0..u64::MAX {
        let left = limit.saturating_sub(begun.elapsed(rt)?);
        if left.is_zero() || halt.look(rt).is_some() {
            break;
        }
        poll(
            &mut asked_of(stream.as_raw_fd(), POLLOUT),
            poll_millis(left.min(slice)),
        );
        if is_connected(stream)? {
            return Ok(());
        }
    }
    Err(io::Error::from(ErrorKind::TimedOut))
}

// Whether the connection is there, and the error where it cannot be made.
// Untied: when a dial has come about.
fn is_connected(stream: &net::TcpStream) -> io::Result<bool> {
    match stream.take_error()? {
        Some(fault) => Err(fault),
        None => Ok(stream.peer_addr().is_ok()),
    }
}
