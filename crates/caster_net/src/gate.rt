//! A gate over sockets: at a listener, or one that dials its peer.
ghost use Rattle.std.specs.Prelude.{◌≡◌, IfOk, IfSome, IsSomeAnd};
ghost use Rattle.std.specs.Arc.{arc_value};
ghost use Rattle.cast_io.specs.Doors.{HasAccepted, HasHungUp};
ghost use Rattle.cast_io.specs.Logged.{door_logged};
ghost use Rattle.caster_net.specs.Gates.{new_gate, quiet_of};
ghost use Rattle.caster_net.specs.Silence.{new_keep, quiet_for};
ghost use Rattle.caster_net.specs.Told.{link_told, new_kept_link};

use crate::bells::Bells;
use crate::door::{MAX_END, Porch, is_dead};
use crate::halt::{Asked, Halt};
use crate::keep::Keep;
use crate::link::TcpLink;
use crate::redial::{Reached, Redial};
use crate::waiting::{MAX_KEPT_REST, SHORT, count_fault, would_wait};
use crate::wire::Wire;
use cast_io::{Arrived, Door, Gate, Journal, Origin, PeerAddr};
use std::alloc::Global;
use std::fmt::InlineText;
use std::io::ErrorKind;
use std::marker::Model;
use std::net::{SocketAddr, TcpStream};
use std::snapshot::Snapshot;
use std::sync::Arc;
use std::sync::atomic::Ordering;
use std::time::Duration;
use std::{io, thread};

/// What the gates of a street share.
#[derive(Clone, Copy)]
pub(crate) struct Ground<'a> {
    pub(crate) rt: &'a HostRuntime,
    pub(crate) bells: &'a Bells,
    pub(crate) halt: &'a Halt,
}

impl<'a> Ground<'a> {
    // What shows that the stop of these gates was asked for, if it was.
    fn stop(&self) -> Option<Asked<'a>>
        ensures of_this { IfSome result (λ asked. asked.of ≡ self.now.halt.now.asked.id) }
    {
        self.halt.look(self.rt)
    }
}

// Where the links of a gate come from.
#[derive(Drop)]
enum Way {
    // They arrive here, where other gates wait for some too.
    Porch(Arc<Porch, Global>),
    // This peer is dialled.
    Peer(Redial),
}

/// A gate at an address, or one that dials the peer there, and how often an accept of it failed for
/// good. It is over once the stop was asked for, and so are its links. For contracts alone it has a
/// record of the links that came back to it.
#[derive(Drop)]
pub struct TcpGate<'a> {
    ground: Ground<'a>,
    way: Way,
    standing: Standing,
    origin: Snapshot<Origin>,
    // Of a link its wire alone: what has more parts is not found to cross threads.
    back: Journal<Wire<TcpStream>>,
}

// How a gate stands. It is a struct of its own since a gate whose every part is looked at is not
// found to cross threads.
#[derive(Drop)]
struct Standing {
    // For how many seconds a link may be quiet; 0 is for ever.
    quiet: u32,
    // What ended a rest at the porch, for the next accept.
    came: Option<io::Result<(TcpStream, SocketAddr)>>,
    peer: PeerAddr,
    // Whether it was asked already whether it is over: so somebody serves here.
    is_asked: bool,
    is_over: bool,
    faults: u64,
}

impl<'a> Model for TcpGate<'a> {
    ghost use Rattle.std.specs.Prelude.{map};
    ghost use Rattle.caster_net.specs.Gates.{GateLog};
    ghost use Rattle.caster_net.specs.Told.{wire_log};

    ghost Value = { GateLog };

    ghost view = { λ g. record {
      door = record { back = map wire_log g.back; faults = g.standing.faults };
      over = g.standing.is_over;
      peer = g.standing.peer;
      origin = g.origin.value;
      quiet = g.standing.quiet;
    } };
}

impl<'a> TcpGate<'a> {
    ghost use Rattle.cast_io.specs.declared.yard_asked.YardAsked.TheVariants as asked;

    /// One of so many gates at this place, which is at this address.
    pub(crate) fn over_porch(
        ground: Ground<'a>,
        porch: Arc<Porch, Global>,
        addr: &str,
        gates: u32,
        quiet: u32,
    ) -> Self
        requires at { (arc_value porch).addr.value ≡ addr.now }
        ensures { result ≡ new_gate (asked.OpenGates addr.now gates quiet) }
    {
        TcpGate::over(
            ground,
            Way::Porch(porch),
            Origin::of_open_gates(addr, gates, quiet),
            quiet,
        )
    }

    /// A gate that dials this peer, which is at this address.
    pub(crate) fn to_peer(ground: Ground<'a>, peer: Redial, addr: &str, quiet: u32) -> Self
        requires at { peer.addr ≡ addr.now }
        ensures { result ≡ new_gate (asked.Reach addr.now quiet) }
    {
        TcpGate::over(
            ground,
            Way::Peer(peer),
            Origin::of_reach(addr, quiet),
            quiet,
        )
    }

    // A gate that was made for this, of which it is a part for how many seconds its links may be
    // quiet.
    fn over(ground: Ground<'a>, way: Way, origin: Origin, seconds: u32) -> Self
        requires { seconds ≡ quiet_of origin }
        ensures { result ≡ new_gate origin }
    {
        let _ = ground.halt.unasked.fetch_add(1, Ordering::SeqCst);
        TcpGate {
            ground,
            way,
            standing: Standing {
                quiet: seconds,
                came: None,
                peer: PeerAddr::unknown(),
                is_asked: false,
                is_over: false,
                faults: 0,
            },
            origin: Snapshot::of(&origin),
            back: Journal::new(),
        }
    }

    /// How often an accept failed for good.
    pub(crate) fn faults(&self) -> u64
        ensures { result ≡ self.now.door.faults }
    {
        self.standing.faults
    }

    // The connection that ended the last rest, or one to the peer where it may be dialled now, and
    // the address of the peer.
    fn next(&mut self) -> io::Result<(TcpStream, SocketAddr)>
        ensures { self.new ≡ self.old }
    {
        match &mut self.way {
            Way::Porch(_) => match self.standing.came.take() {
                Some(came) => came,
                None => Err(nothing_yet()),
            },
            Way::Peer(peer) => dial_peer(self.ground, peer),
        }
    }

    // Somebody serves here.
    fn begin_gate(&mut self)
        ensures { self.new ≡ self.old }
    {
        if !self.standing.is_asked {
            self.standing.is_asked = true;
            let _ = self.ground.halt.unasked.fetch_sub(1, Ordering::SeqCst);
        }
    }

    // A link came of a connection: where it came to the porch, a worker has it.
    // Untied: which workers count as busy.
    fn begin(&self) {
        if let Way::Porch(_) = &self.way {
            let _ = self.ground.halt.busy.fetch_add(1, Ordering::SeqCst);
        }
    }

    // No link came of a connection: the peer, where it is dialled, is not at once again.
    fn put_off(&mut self)
        ensures { self.new ≡ self.old }
    {
        if let Way::Peer(peer) = &mut self.way {
            peer.put_off(self.ground.rt);
        }
    }
}

impl<'a> Door for TcpGate<'a> {
    type Link = TcpLink<'a>;

    ghost told = { λ g. door_logged g.door };

    // An accept that fails is one that found nothing, but where the listener itself is gone, as at
    // a door. A dial that fails is one too.
    fn accept(&mut self) -> Arrived<TcpLink<'a>>
        ensures accepted { HasAccepted link_told
            (door_logged self.old.door) (door_logged self.new.door) result }
        ensures heeds { (link : _) → result ≡ Arrived.Link link
            → IsSomeAnd link.keep (λ keep. keep.quiet ≡ quiet_for self.old.quiet) }
        ensures same { self.new ≡ record self.old { door = self.new.door; peer = self.new.peer } }
    {
        match self.next() {
            Ok((stream, peer)) => match welcome(self.ground, self.standing.quiet, stream) {
                Ok(link) => {
                    self.standing.peer = word_of(peer);
                    self.begin();
                    Arrived::Link(link)
                }
                Err(_) => {
                    self.put_off();
                    Arrived::Idle
                }
            },
            // Untied line: which error is a failure of the gate.
            Err(fault) if is_dead(&fault) => count_fault(
                &mut self.standing.faults,
                Arrived::Failed,
            ),
            Err(_) => Arrived::Idle,
        }
    }

    // At a porch it ends with a connection, and so late at most that a stop is seen in time.
    fn rest(&mut self)
        ensures { self.new ≡ self.old }
    {
        if self.standing.came.is_none() {
            self.standing.came = what_comes(self.ground, &self.way);
        }
    }

    fn hang_up(&mut self, link: TcpLink<'a>)
        ensures left { HasHungUp (link_told link.entry)
            (door_logged self.old.door) (door_logged self.new.door) }
        ensures same { self.new ≡ record self.old { door = self.new.door } }
    {
        link.come_back(&mut self.back, Duration::from_millis(MAX_END));
        match &mut self.way {
            Way::Porch(_) => {
                // Untied line: which workers count as busy.
                let _ = self.ground.halt.busy.fetch_sub(1, Ordering::SeqCst);
            }
            Way::Peer(peer) => peer.end(self.ground.rt),
        }
    }
}

impl Gate for TcpGate<'_> {
    ghost over = { λ g. g.over };

    ghost peer = { λ g. g.peer };

    ghost origin = { λ g. g.origin };

    fn is_over(&mut self) -> bool
        ensures over { result ≡ self.new.over }
        ensures same { self.new ≡ record self.old { over = self.new.over } }
    {
        self.begin_gate();
        // Untied line: that the gate is over only where this is there.
        self.standing.is_over = self.ground.stop().is_some();
        self.standing.is_over
    }

    fn peer(&self) -> &PeerAddr
        ensures { result.now ≡ self.now.peer }
    {
        &self.standing.peer
    }
}

// A link over this connection at a gate of this QUIET, which heeds that and the stop.
fn welcome<'a>(ground: Ground<'a>, quiet: u32, stream: TcpStream) -> io::Result<TcpLink<'a>>
    ensures { IfOk result (λ link.
        link ≡ new_kept_link stream (new_keep quiet ground.entry.halt.now.asked.id)) }
{
    let Ground { rt, bells, halt } = ground;
    let keep = Keep::from_now(rt, halt, quiet)?;
    TcpLink::of_gate(rt, bells, stream, keep)
}

// What comes in a while, if anything does. Where the peer is dialled, nothing comes.
// Untied: which connection is the next one.
fn what_comes(ground: Ground<'_>, way: &Way) -> Option<io::Result<(TcpStream, SocketAddr)>> {
    match way {
        Way::Porch(porch) => accept_at(ground, porch),
        Way::Peer(_) => {
            thread::sleep(ground.rt, Duration::from_millis(MAX_KEPT_REST));
            None
        }
    }
}

// What comes to the porch in a while, if anything does. An accept that failed for a while may do so
// again at once: so it is tried again after a short rest.
// Untied: which connection is the next one.
fn accept_at(ground: Ground<'_>, porch: &Porch) -> Option<io::Result<(TcpStream, SocketAddr)>> {
    match ground.bells.note_accept(porch.listener.accept()) {
        Err(fault) if would_wait(fault.kind()) => None,
        Err(fault) if !is_dead(&fault) => {
            thread::sleep(ground.rt, Duration::from_millis(SHORT));
            None
        }
        came => Some(came),
    }
}

// A connection to this peer and its address, where it may be dialled now and could be.
// Untied: which connection is the next one, and how its peer is named.
fn dial_peer(ground: Ground<'_>, peer: &mut Redial) -> io::Result<(TcpStream, SocketAddr)> {
    if peer.is_early(ground.rt) {
        return Err(nothing_yet());
    }
    let Some(Reached { stream, .. }) = peer.dial(ground.rt, ground.halt) else {
        return Err(nothing_yet());
    };
    let Ok(addr) = stream.peer_addr() else {
        peer.put_off(ground.rt);
        return Err(nothing_yet());
    };
    Ok((stream, addr))
}

// The error of a call that would have to wait.
fn nothing_yet() -> io::Error {
    io::Error::from(ErrorKind::WouldBlock)
}

// The word for the peer at this address.
// Untied: how a peer is named.
fn word_of(peer: SocketAddr) -> PeerAddr {
    let text = InlineText::<64>::of(peer);
    PeerAddr::new(text.as_str().as_bytes())
}
