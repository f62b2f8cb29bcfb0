//! A door in memory at which links arrive in order, and that fails at the calls that it is told to.
ghost use Rattle.std.specs.Prelude.{◌≡◌, ◌==◌, length, IsTrue, IfOk, option_map};
ghost use Rattle.std.specs.List.{list_all};
ghost use Rattle.cast_io.specs.Fakes.{fails_next};
ghost use Rattle.cast_io.specs.FakeLinks.{link_told};
ghost use Rattle.cast_io.specs.FakeDoors.{door_told, is_new_arrival};

use crate::calls::is_told;
use crate::door::{Arrived, Door};
use crate::mem_link::MemLink;
use crate::returned::Returned;
use std::alloc::{AllocError, Global};
use std::collections::VecDeque;
use std::marker::Model;

/// A door in memory.
#[derive(Drop)]
pub struct MemDoor {
    left: VecDeque<Option<MemLink>>,
    back: Returned<MemLink>,
    fails: Vec<u64>,
    calls: u64,
    faults: u64,
}

impl Model for MemDoor {
    ghost use Rattle.std.specs.Prelude.{◌≤◌, IsTrue, length};
    ghost use Rattle.std.specs.List.{list_all};
    ghost use Rattle.cast_io.specs.FakeDoors.{DoorState, is_new_arrival};

    ghost Value = { DoorState };

    ghost view = { λ d. record {
      left = d.left.items;
      back = d.back.items;
      owed = d.back.owed;
      fails = d.fails.items;
      calls = d.calls;
      faults = d.faults;
    } };

    ghost invariant = { λ d. IsTrue (list_all is_new_arrival d.left.items)
        × (length d.left.items ≤ d.back.spare) };
}

impl MemDoor {
    ghost use Rattle.cast_io.specs.FakeDoors.{IsDoorOf};

    /// A door to which these come in order: links as they were made, and `None` where nothing has
    /// arrived yet. `fails` holds the numbers, from 1, of the accepts that are to fail.
    pub fn new(
        alloc: Global,
        arrivals: Vec<Option<MemLink>>,
        fails: Vec<u64>,
    ) -> Result<Self, AllocError>
        requires { IsTrue (list_all is_new_arrival arrivals.items) }
        ensures made { IfOk result (λ door. IsDoorOf door arrivals.items fails.items) }
    {
        Ok(MemDoor {
            back: Returned::with_room(alloc, arrivals.len())?,
            left: VecDeque::from(arrivals),
            fails,
            calls: 0,
            faults: 0,
        })
    }

    /// The links that came back so far, in order, as they were then. `None` once the door was
    /// handed more links than it gave.
    pub fn back(&self) -> Option<&[MemLink]>
        ensures { option_map (λ links. links.now) result ≡ self.now.back }
    {
        self.back.items()
    }

    /// Whether nothing more is to arrive.
    pub fn is_used_up(&self) -> bool
        ensures { result ≡ (length self.now.left == 0) }
    {
        self.left.is_empty()
    }

    /// How often the door failed so far.
    pub fn faults(&self) -> u64
        ensures { result ≡ self.now.faults }
    {
        self.faults
    }
}

impl Door for MemDoor {
    ghost use Rattle.cast_io.specs.Doors.{HasAccepted, HasHungUp, accept_failed};
    ghost use Rattle.cast_io.specs.FakeDoors.{IsAccepted, IsLinkBack};

    type Link = MemLink;

    ghost told = { door_told };

    fn accept(&mut self) -> Arrived<MemLink>
        ensures accepted { HasAccepted link_told (door_told self.old) (door_told self.new) result }
        ensures exact { accept_failed result ≡ fails_next self.old.calls self.old.fails }
        ensures same { IsAccepted self.old self.new result }
    {
        self.calls = self.calls.saturating_add(1);
        if is_told(&self.fails, self.calls) {
            self.faults = self.faults.saturating_add(1);
            return Arrived::Failed;
        }
        match self.left.pop_front() {
            Some(Some(link)) => {
                self.back.give(1);
                Arrived::Link(link)
            }
            Some(None) | None => Arrived::Idle,
        }
    }

    fn rest(&mut self)
        ensures { self.new ≡ self.old }
    {}

    // A link more than it gave is not kept, and the list is told no longer.
    fn hang_up(&mut self, link: MemLink)
        ensures left { HasHungUp (link_told link) (door_told self.old) (door_told self.new) }
        ensures kept { IsLinkBack self.old self.new link }
    {
        self.back.take_back(link);
    }
}
