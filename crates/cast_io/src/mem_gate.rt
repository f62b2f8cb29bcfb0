//! A gate in memory: a door in memory that is over when it is told to be.
ghost use Rattle.std.specs.Prelude.{◌≡◌, drop};
ghost use Rattle.cast_io.specs.Causes.{next_count};
ghost use Rattle.cast_io.specs.Fakes.{fails_next};
ghost use Rattle.cast_io.specs.FakeLinks.{link_told};
ghost use Rattle.cast_io.specs.FakeDoors.{door_told};

use crate::door::{Arrived, Door};
use crate::gate::Gate;
use crate::gate_end::GateEnd;
use crate::mem_door::MemDoor;
use crate::mem_link::MemLink;
use crate::origin::Origin;
use crate::peer::PeerAddr;
use std::collections::VecDeque;
use std::marker::Model;

/// A gate in memory.
#[derive(Drop)]
pub struct MemGate {
    door: MemDoor,
    peers: VecDeque<PeerAddr>,
    peer: PeerAddr,
    end: GateEnd,
    asks: u64,
    origin: Origin,
}

impl Model for MemGate {
    ghost use Rattle.cast_io.specs.FakeGates.{GateState};

    ghost Value = { GateState };

    ghost view = { λ g. record {
      door = g.door;
      peers = g.peers.items;
      peer = g.peer;
      end = g.end;
      asks = g.asks;
      origin = g.origin;
    } };
}

impl MemGate {
    ghost use Rattle.cast_io.specs.FakeGates.{IsGateOf, first_peer, gate_over, made_for};
    ghost use Rattle.cast_io.specs.declared.yard_asked.YardAsked.TheVariants as asked;

    /// A gate at which the links of this door arrive, and which is over then. `peers` are the peers
    /// of its links, in order; of a link past the last of them the peer is not told.
    pub fn new(door: MemDoor, peers: Vec<PeerAddr>, end: GateEnd) -> Self
        ensures made { IsGateOf result door peers.items end }
    {
        MemGate {
            door,
            peers: VecDeque::from(peers),
            peer: PeerAddr::unknown(),
            end,
            asks: 0,
            origin: Origin::of_reach("", 0),
        }
    }

    /// The door of the gate, as it is now.
    pub fn door(&self) -> &MemDoor
        ensures { result.now ≡ self.now.door }
    {
        &self.door
    }

    /// Whether the gate is over now. It is not counted as asked.
    pub fn has_ended(&self) -> bool
        ensures { result ≡ gate_over self.now }
    {
        match self.end {
            GateEnd::UsedUp => self.door.is_used_up(),
            GateEnd::Asked(most) => most <= self.asks,
        }
    }

    /// How often the door of the gate failed so far.
    pub fn faults(&self) -> u64
        ensures { result ≡ self.now.door.faults }
    {
        self.door.faults()
    }

    // A yard gives it as one of so many gates at this address.
    pub(crate) fn be_opened(&mut self, addr: &str, gates: u32, quiet: u32)
        ensures { self.new ≡ made_for (asked.OpenGates addr.now gates quiet) self.old }
    {
        self.origin = Origin::of_open_gates(addr, gates, quiet);
    }

    // A yard gives it as one that dials this address.
    pub(crate) fn be_reached(&mut self, addr: &str, quiet: u32)
        ensures { self.new ≡ made_for (asked.Reach addr.now quiet) self.old }
    {
        self.origin = Origin::of_reach(addr, quiet);
    }

    // The peer of the next link is that of the last one now.
    fn name_next(&mut self)
        ensures { self.new ≡ record self.old {
          peers = drop 1 self.old.peers;
          peer = first_peer self.old.peers;
        } }
    {
        self.peer = match self.peers.pop_front() {
            Some(peer) => peer,
            None => PeerAddr::unknown(),
        };
    }
}

impl Door for MemGate {
    ghost use Rattle.cast_io.specs.Doors.{HasAccepted, HasHungUp, accept_failed};
    ghost use Rattle.cast_io.specs.FakeDoors.{IsAccepted, IsLinkBack};
    ghost use Rattle.cast_io.specs.FakeGates.{peers_after, peer_after};

    type Link = MemLink;

    ghost told = { λ g. door_told g.door };

    fn accept(&mut self) -> Arrived<MemLink>
        ensures accepted { HasAccepted link_told
            (door_told self.old.door) (door_told self.new.door) result }
        ensures exact { accept_failed result
            ≡ fails_next self.old.door.calls self.old.door.fails }
        ensures door { IsAccepted self.old.door self.new.door result }
        ensures same { self.new ≡ record self.old {
          door = self.new.door;
          peers = peers_after result self.old.peers;
          peer = peer_after result self.old.peers self.old.peer;
        } }
    {
        match self.door.accept() {
            Arrived::Link(link) => {
                self.name_next();
                Arrived::Link(link)
            }
            Arrived::Idle => Arrived::Idle,
            Arrived::Failed => Arrived::Failed,
        }
    }

    fn rest(&mut self)
        ensures { self.new ≡ self.old }
    {}

    // A link more than it gave is not kept, and the list is told no longer.
    fn hang_up(&mut self, link: MemLink)
        ensures left { HasHungUp (link_told link)
            (door_told self.old.door) (door_told self.new.door) }
        ensures kept { IsLinkBack self.old.door self.new.door link }
        ensures same { self.new ≡ record self.old { door = self.new.door } }
    {
        self.door.hang_up(link);
    }
}

impl Gate for MemGate {
    ghost use Rattle.cast_io.specs.FakeGates.{gate_over};

    ghost over = { gate_over };

    ghost peer = { λ g. g.peer };

    ghost origin = { λ g. g.origin };

    fn is_over(&mut self) -> bool
        ensures over { result ≡ gate_over self.new }
        ensures same { self.new ≡ record self.old { asks = next_count self.old.asks } }
    {
        self.asks = self.asks.saturating_add(1);
        self.has_ended()
    }

    fn peer(&self) -> &PeerAddr
        ensures { result.now ≡ self.now.peer }
    {
        &self.peer
    }
}
