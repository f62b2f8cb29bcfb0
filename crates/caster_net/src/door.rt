//! A listener as a door.
ghost use Rattle.std.specs.Prelude.{◌≡◌, ◌<◌, ◌↔◌, if◌then◌else◌, IfErr, IfOk, IsTrue};
ghost use Rattle.std.specs.Arc.{arc_value};
ghost use Rattle.std.specs.IoError.{raw_os_error};
ghost use Rattle.cast_io.specs.Logged.{door_logged};
ghost use Rattle.caster_net.specs.Dead.{IsDead};
ghost use Rattle.caster_net.specs.Told.{new_door, new_link, new_patient_link, new_wire};

use crate::bells::Bells;
use crate::link::TcpLink;
use crate::options::LimitAccepts;
use crate::waiting::{SHORT, count_fault};
use crate::watch::Watch;
use crate::wire::Wire;
use cast_io::{Arrived, Door, Journal, StreetFault};
use std::alloc::Global;
use std::io::ErrorKind;
use std::marker::Model;
use std::net::{TcpListener, TcpStream};
use std::os::fd::AsRawFd;
use std::snapshot::Snapshot;
use std::sync::Arc;
use std::time::{Duration, Instant};
use std::{io, thread};

// How long the end of one connection may take, in milliseconds.
pub(crate) const MAX_END: u64 = 500;

// How long the ends of all connections together may take that come one after another, with no
// connection accepted between them, in milliseconds.
const MAX_ENDS: u64 = 2_000;

/// What the doors at one address share.
#[derive(Drop)]
pub(crate) struct Porch {
    pub(crate) listener: TcpListener,
    // For contracts alone: the address that it was bound at.
    pub(crate) addr: Snapshot<Journal<u8>>,
    // A rest waits for a connection and nothing else: of several doors the system wakes one for
    // each. One door alone rests for a short while, since its worker may have more to do.
    waits: bool,
}

impl Porch {
    /// The place of so many doors at a listener that is bound at this address.
    pub(crate) fn bind(rt: &HostRuntime, addr: &str, doors: u32) -> io::Result<Porch>
        ensures place { IfOk result (λ porch. porch.addr.value ≡ addr.now) }
        ensures waits { IfOk result (λ porch. IsTrue porch.waits ↔ (1 < doors)) }
    {
        let waits = doors > 1;
        // Untied line: which address is bound.
        let listener = TcpListener::bind(rt, addr)?;
        listener.set_nonblocking(!waits)?;
        Ok(Porch {
            listener,
            addr: Snapshot::of(&Journal::of_bytes(addr.as_bytes())),
            waits,
        })
    }

    /// The place of gates at a listener that is bound at this address. Each of them waits for a
    /// connection for so many milliseconds at most, and of several the system wakes one for each.
    pub(crate) fn bind_gates(rt: &HostRuntime, addr: &str, limit: u64) -> io::Result<Porch>
        ensures place { IfOk result (λ porch. porch.addr.value ≡ addr.now) }
        ensures waits { IfOk result (λ porch. IsTrue porch.waits) }
    {
        // Untied line: which address is bound.
        let listener = TcpListener::bind(rt, addr)?;
        listener.limit_accepts(limit)?;
        Ok(Porch {
            listener,
            addr: Snapshot::of(&Journal::of_bytes(addr.as_bytes())),
            waits: true,
        })
    }
}

/// This place, for all of its doors.
pub(crate) fn share_porch(rt: &HostRuntime, porch: Porch) -> Result<Arc<Porch, Global>, StreetFault>
    ensures shared { IfOk result (λ shared. arc_value shared ≡ porch) }
    ensures memory { IfErr result (λ fault. fault ≡ StreetFault.Memory) }
{
    match Arc::new(rt.alloc(), porch) {
        Ok(porch) => Ok(porch),
        Err(_) => Err(StreetFault::Memory),
    }
}

/// One of the doors at an address, and how often an accept of it failed for good. For contracts
/// alone it has a record of the links that came back to it.
#[derive(Drop)]
pub struct TcpDoor<'a> {
    rt: &'a HostRuntime,
    bells: &'a Bells,
    pub(crate) porch: Arc<Porch, Global>,
    // Of one door alone: what comes to the listener and to its links. None where descriptors lack.
    watch: Option<Watch>,
    // What ended a rest, for the next accept.
    came: Option<io::Result<TcpStream>>,
    patience: Duration,
    back: Journal<Wire<TcpStream>>,
    faults: u64,
}

impl<'a> Model for TcpDoor<'a> {
    ghost use Rattle.std.specs.Prelude.{map};
    ghost use Rattle.cast_io.specs.Logged.{DoorLog};
    ghost use Rattle.caster_net.specs.Told.{wire_log};

    ghost Value = { DoorLog };

    ghost view = { λ d. record { back = map wire_log d.back; faults = d.faults } };
}

impl<'a> TcpDoor<'a> {
    /// A door at this place, which is at this address.
    pub(crate) fn over(
        rt: &'a HostRuntime,
        bells: &'a Bells,
        porch: Arc<Porch, Global>,
        addr: &str,
    ) -> Self
        requires at { (arc_value porch).addr.value ≡ addr.now }
        ensures { result ≡ new_door }
    {
        TcpDoor {
            rt,
            bells,
            watch: alone_at(rt, &porch),
            porch,
            came: None,
            patience: Duration::from_millis(MAX_ENDS),
            back: Journal::new(),
            faults: 0,
        }
    }

    /// How often an accept failed for good.
    pub(crate) fn faults(&self) -> u64
        ensures { result ≡ self.now.faults }
    {
        self.faults
    }

    // The next connection at the listener.
    // Untied: which connection comes.
    fn take(&self) -> io::Result<TcpStream> {
        let (stream, _) = self.bells.note_accept(self.porch.listener.accept())?;
        Ok(stream)
    }

    // A link over this connection, for whose bytes one door alone waits too.
    fn welcome(&mut self, stream: TcpStream) -> io::Result<TcpLink<'a>>
        ensures link { IfOk result (λ link. link.wire ≡ new_wire stream) }
        ensures same { self.new ≡ self.old }
    {
        if let Some(watch) = &mut self.watch {
            let _ = watch.join(stream.as_raw_fd());
        }
        link_at(&self.porch, self.rt, self.bells, stream)
    }

    // Waits a short while for a connection and for bytes of the links.
    fn look(&mut self)
        ensures { self.new ≡ self.old }
    {
        if let Some(watch) = &mut self.watch
            && watch.wait(Duration::from_millis(SHORT)).is_ok()
        {
            return;
        }
        thread::sleep(self.rt, Duration::from_millis(SHORT));
    }

    // What ended the last rest. Where rests are short, what is at the listener.
    fn next(&mut self) -> io::Result<TcpStream>
        ensures { self.new ≡ self.old }
    {
        match self.came.take() {
            Some(came) => came,
            None if self.porch.waits => Err(io::Error::from(ErrorKind::WouldBlock)),
            None => self.take(),
        }
    }
}

impl<'a> Door for TcpDoor<'a> {
    type Link = TcpLink<'a>;

    ghost told = { door_logged };

    // An accept that fails is one that found nothing, but where the listener itself is gone: a
    // connection that ended before it was accepted, a network that is down, or descriptors or
    // memory that ran out are no fault of the door (accept(2) says to try again).
    fn accept(&mut self) -> Arrived<TcpLink<'a>> {
        match self.next() {
            Ok(stream) => {
                self.patience = Duration::from_millis(MAX_ENDS);
                match self.welcome(stream) {
                    Ok(link) => Arrived::Link(link),
                    Err(_) => Arrived::Idle,
                }
            }
            // Untied line: which error is a failure of the door.
            Err(fault) if is_dead(&fault) => count_fault(&mut self.faults, Arrived::Failed),
            Err(_) => Arrived::Idle,
        }
    }

    // A connection that comes ends it. An accept that failed for a while, as where no descriptor is
    // left, may do so again at once: so it is tried again after a short rest.
    fn rest(&mut self)
        ensures { self.new ≡ self.old }
    {
        if !self.porch.waits {
            self.look();
        } else if self.came.is_none() {
            match self.take() {
                Err(fault) if !is_dead(&fault) => {
                    thread::sleep(self.rt, Duration::from_millis(SHORT));
                }
                came => self.came = Some(came),
            }
        }
    }

    fn hang_up(&mut self, link: TcpLink<'a>) {
        let limit = self.patience.min(Duration::from_millis(MAX_END));
        let begun = Instant::now(self.rt);
        link.come_back(&mut self.back, limit);
        let taken = match begun {
            Ok(begun) => begun.elapsed(self.rt).unwrap_or(limit),
            Err(_) => limit,
        };
        self.patience = self.patience.saturating_sub(taken);
    }
}

// A link over this connection of this place. Of several doors each serves one link at a time, whose
// reads wait for room. Those of one door alone do not: its worker may have other links to serve.
fn link_at<'a>(
    porch: &Porch,
    rt: &'a HostRuntime,
    bells: &'a Bells,
    stream: TcpStream,
) -> io::Result<TcpLink<'a>>
    ensures { IfOk result (λ link.
        link ≡ (if porch.now.waits then new_patient_link stream else new_link stream)) }
{
    if porch.waits {
        TcpLink::patient(rt, bells, stream)
    } else {
        TcpLink::over(rt, bells, stream)
    }
}

// What one door alone waits for.
fn alone_at(rt: &HostRuntime, porch: &Porch) -> Option<Watch> {
    if porch.waits {
        return None;
    }
    Watch::over(rt, porch.listener.as_raw_fd()).ok()
}

/// The listener is no listener any more.
pub(crate) fn is_dead(fault: &io::Error) -> bool
    ensures dead { IsTrue result ↔ IsDead (raw_os_error fault.now) }
{
    matches!(
        fault.raw_os_error(),
        Some(libc::EBADF | libc::EINVAL | libc::ENOTSOCK)
    )
}
