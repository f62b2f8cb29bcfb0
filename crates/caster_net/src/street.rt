//! The network as a street.
ghost use Rattle.std.specs.Prelude.{◌≡◌, ◌≤◌, [], vec_len, vec_capacity, IfOk, OnOk};
ghost use Rattle.std.specs.Arc.{arc_value};
ghost use Rattle.std.specs.List.{All};
ghost use Rattle.cast_io.specs.Logged.{street_logged};
ghost use Rattle.caster_net.specs.Gates.{new_net};
ghost use Rattle.caster_net.specs.Told.{IsUnused, new_door};

use crate::bells::Bells;
use crate::door::{Porch, TcpDoor, share_porch};
use crate::gate::{Ground, TcpGate};
use crate::halt::Halt;
use crate::link::TcpLink;
use crate::note_out::NoteOut;
use crate::note_sink::NoteSink;
use crate::notes::{AskedNote, CallNote};
use crate::redial::MAX_DIAL;
use crate::waiting::count_fault;
use crate::wire::Wire;
use cast_io::{Journal, Street, StreetFault};
use std::alloc::{AllocError, Global};
use std::io;
use std::io::ErrorKind;
use std::marker::Model;
use std::net::{SocketAddr, TcpStream, ToSocketAddrs};
use std::sync::Arc;
use std::time::{Duration, Instant};

/// The network, how often it failed, and how many links were hung up after a fault; and the same as
/// a yard, with how many places for notes came back after a fault. For contracts alone it has a
/// record of what it was asked, and of the doors, the links, the gates and the notes that came back
/// to it.
#[derive(Drop)]
pub struct TcpStreet<'a> {
    // What its gates share.
    pub(crate) ground: Ground<'a>,
    asked: Journal<AskedNote>,
    doors: Journal<TcpDoor<'a>>,
    links: Journal<Wire<TcpStream>>,
    faults: u64,
    link_faults: u64,
    // What it was asked as a yard, and what came back.
    pub(crate) calls: Journal<CallNote>,
    pub(crate) gates: Journal<TcpGate<'a>>,
    pub(crate) notes: Journal<NoteSink<'a, NoteOut>>,
    pub(crate) yard_faults: u64,
    pub(crate) note_faults: u64,
}

impl<'a> Model for TcpStreet<'a> {
    ghost use Rattle.std.specs.Prelude.{map};
    ghost use Rattle.caster_net.specs.Notes.{asked_noted};
    ghost use Rattle.caster_net.specs.Gates.{NetLog, call_noted, notes_logged};
    ghost use Rattle.caster_net.specs.Told.{wire_log};

    ghost Value = { NetLog };

    ghost view = { λ s. record {
      street = record {
        asked = map asked_noted s.asked;
        doors = s.doors;
        links = map wire_log s.links;
        faults = s.faults;
        link_faults = s.link_faults;
      };
      yard = record {
        asked = map call_noted s.calls;
        gates = s.gates;
        notes = map notes_logged s.notes;
        faults = s.yard_faults;
        note_faults = s.note_faults;
      };
    } };
}

impl<'a> TcpStreet<'a> {
    /// The network, which has not failed yet, with the bells that its links ring and wait for, and
    /// the stop that its gates and their links heed.
    pub fn new(rt: &'a HostRuntime, bells: &'a Bells, halt: &'a Halt) -> Self
        ensures { result ≡ new_net }
    {
        TcpStreet {
            ground: Ground { rt, bells, halt },
            asked: Journal::new(),
            doors: Journal::new(),
            links: Journal::new(),
            faults: 0,
            link_faults: 0,
            calls: Journal::new(),
            gates: Journal::new(),
            notes: Journal::new(),
            yard_faults: 0,
            note_faults: 0,
        }
    }
}

impl<'a> Street for TcpStreet<'a> {
    type Link = TcpLink<'a>;

    type Door = TcpDoor<'a>;

    ghost told = { λ s. street_logged s.street };

    fn open(&mut self, addr: &str, doors: u32) -> Result<Vec<TcpDoor<'a>>, StreetFault> {
        self.asked.add(&AskedNote::Open(Journal::of_bytes(addr.as_bytes()), doors));
        match opened_at(self.ground.rt, self.ground.bells, addr, doors) {
            Err(StreetFault::Failed) => count_fault(&mut self.faults, Err(StreetFault::Failed)),
            answer => answer,
        }
    }

    fn dial(&mut self, addr: &str) -> Result<TcpLink<'a>, StreetFault> {
        self.asked
            .add(&AskedNote::Dial(Journal::of_bytes(addr.as_bytes())));
        match link_to(self.ground.rt, self.ground.bells, addr) {
            Ok(link) => Ok(link),
            Err(_) => count_fault(&mut self.faults, Err(StreetFault::Failed)),
        }
    }

    fn hang_up(&mut self, mut link: TcpLink<'a>) {
        link.tell_last();
        self.links.add(link.wire());
        self.link_faults = self.link_faults.saturating_add(link.faults().min(1));
    }

    fn shut(&mut self, door: TcpDoor<'a>) {
        self.doors.add(&door);
        self.faults = self.faults.saturating_add(door.faults().min(1));
    }
}

// So many doors at this address.
fn opened_at<'a>(
    rt: &'a HostRuntime,
    bells: &'a Bells,
    addr: &str,
    doors: u32,
) -> Result<Vec<TcpDoor<'a>>, StreetFault>
    ensures count { IfOk result (λ given. vec_len given ≡ doors) }
    ensures each { IfOk result (λ given. All (λ door. door ≡ new_door) given.items) }
{
    let Ok(mut opened) = Vec::with_capacity(rt.alloc(), doors as usize) else {
        return Err(StreetFault::Memory);
    };
    let porch = porch_at(rt, addr, doors)?;
    match open_all(rt, bells, &porch, addr, doors, &mut opened) {
        Ok(()) => Ok(opened),
        Err(AllocError) => Err(StreetFault::Memory),
    }
}

// A place for so many doors at this address, which they share.
fn porch_at(rt: &HostRuntime, addr: &str, doors: u32) -> Result<Arc<Porch, Global>, StreetFault>
    ensures { IfOk result (λ porch. (arc_value porch).addr.value ≡ addr.now) }
{
    match Porch::bind(rt, addr, doors) {
        Ok(porch) => share_porch(rt, porch),
        Err(_) => Err(StreetFault::Failed),
    }
}

// Opens so many doors at this place, into a list with room for them.
fn open_all<'a>(
    rt: &'a HostRuntime,
    bells: &'a Bells,
    porch: &Arc<Porch, Global>,
    addr: &str,
    doors: u32,
    opened: &mut Vec<TcpDoor<'a>>,
) -> Result<(), AllocError>
    requires empty { opened.old.items ≡ [] }
    requires room { doors ≤ vec_capacity opened.old }
    requires at { (arc_value porch.now).addr.value ≡ addr.now }
    ensures count { OnOk result (vec_len opened.new ≡ doors) }
    ensures each { OnOk result (All (λ door. door ≡ new_door) opened.new.items) }
{
    for _ in 0..doors {
        opened.push_reserved(TcpDoor::over(rt, bells, porch.clone()?, addr));
    }
    Ok(())
}

// A link over a connection to this address.
fn link_to<'a>(rt: &'a HostRuntime, bells: &'a Bells, addr: &str) -> io::Result<TcpLink<'a>>
    ensures { IfOk result IsUnused }
{
    TcpLink::over(rt, bells, connect_to(rt, addr)?)
}

// Connects to this address, one address of its name after the other.
// Untied: which address of a name is dialled.
fn connect_to(rt: &HostRuntime, addr: &str) -> io::Result<TcpStream> {
    let begun = Instant::now(rt)?;
    for addr in addr.to_socket_addrs(rt)? {
        if let Ok(stream) = reached_at(rt, &addr, &begun) {
            return Ok(stream);
        }
    }
    Err(io::Error::from(ErrorKind::TimedOut))
}

// Connects to this one address, in what is left of the time for a dial that began then.
// Untied: which address is dialled.
fn reached_at(rt: &HostRuntime, addr: &SocketAddr, begun: &Instant) -> io::Result<TcpStream> {
    let limit = Duration::from_secs(MAX_DIAL);
    TcpStream::connect_timeout(rt, addr, limit.saturating_sub(begun.elapsed(rt)?))
}
