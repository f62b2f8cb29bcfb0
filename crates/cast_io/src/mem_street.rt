//! A street in memory that gives its doors and links in order, and fails at the calls that it is
//! told to. Its gates and notes stand in a yard of their own.
ghost use Rattle.std.specs.Prelude.{◌≡◌, ◌≤◌, ◌<◌, ◌+◌, ◌-◌, ◌↔◌, [], ◌∷◌, length, take, drop, vec_len, Some, if◌then◌else◌, is_ok, option_map, IsTrue, IsSome, IsErr, IsErrOf, IfOk};
ghost use Rattle.std.specs.List.{All, list_all};
ghost use Rattle.cast_io.specs.Causes.{Rose, next_count};
ghost use Rattle.cast_io.specs.Fakes.{fails_next};
ghost use Rattle.cast_io.specs.Returns.{with_return};
ghost use Rattle.cast_io.specs.Streets.{RisesWith};
ghost use Rattle.cast_io.specs.FakeLinks.{link_told, is_new_link};
ghost use Rattle.cast_io.specs.FakeDoors.{door_told, is_new_door};
ghost use Rattle.cast_io.specs.FakeStreets.{street_told, open_fails, dial_fails, faults_after_ask};

use crate::bytes::ByteString;
use crate::calls::is_told;
use crate::mem_door::MemDoor;
use crate::mem_gate::MemGate;
use crate::mem_link::MemLink;
use crate::mem_sink::MemSink;
use crate::mem_yard::MemYard;
use crate::notes::Notes;
use crate::returned::Returned;
use crate::steps::Asked;
use crate::street::{Street, StreetFault};
use crate::yard::Yard;
use std::alloc::{AllocError, Global};
use std::collections::VecDeque;
use std::marker::Model;
use std::mem;

/// A street in memory.
#[derive(Drop)]
pub struct MemStreet {
    alloc: Global,
    doors: VecDeque<MemDoor>,
    links: VecDeque<MemLink>,
    asked: Notes<Asked>,
    doors_back: Returned<MemDoor>,
    links_back: Returned<MemLink>,
    fails: Vec<u64>,
    calls: u64,
    faults: u64,
    link_faults: u64,
    yard: MemYard,
}

impl Model for MemStreet {
    ghost use Rattle.std.specs.Prelude.{◌≤◌, IsTrue, length};
    ghost use Rattle.std.specs.List.{list_all};
    ghost use Rattle.cast_io.specs.FakeLinks.{is_new_link};
    ghost use Rattle.cast_io.specs.FakeDoors.{is_new_door};
    ghost use Rattle.cast_io.specs.FakeStreets.{StreetState};

    ghost Value = { StreetState };

    ghost view = { λ s. record {
      doors = s.doors.items;
      links = s.links.items;
      asked = s.asked;
      doors_back = s.doors_back.items;
      doors_owed = s.doors_back.owed;
      links_back = s.links_back.items;
      links_owed = s.links_back.owed;
      fails = s.fails.items;
      calls = s.calls;
      faults = s.faults;
      link_faults = s.link_faults;
      yard = s.yard;
    } };

    ghost invariant = { λ s. IsTrue (list_all is_new_door s.doors.items)
        × IsTrue (list_all is_new_link s.links.items)
        × (length s.doors.items ≤ s.doors_back.spare)
        × (length s.links.items ≤ s.links_back.spare) };
}

impl MemStreet {
    ghost use Rattle.cast_io.specs.FakeStreets.{IsStreetOf};
    ghost use Rattle.cast_io.specs.Told.{Grew};
    ghost use Rattle.cast_io.specs.declared.steps.Asked.{Asked};

    /// A street whose `open` gives the next of these doors, and whose `dial` the next of these
    /// links, each as it was made. `fails` lists which calls fail, by their numbers from 1 over
    /// `open` and `dial` alike. It has no gates and no notes to give.
    pub fn new(
        alloc: Global,
        doors: Vec<MemDoor>,
        links: Vec<MemLink>,
        fails: Vec<u64>,
    ) -> Result<Self, AllocError>
        requires doors { IsTrue (list_all is_new_door doors.items) }
        requires links { IsTrue (list_all is_new_link links.items) }
        ensures made { IfOk result
            (λ street. IsStreetOf street doors.items links.items fails.items) }
    {
        Ok(MemStreet {
            alloc,
            doors_back: Returned::with_room(alloc, doors.len())?,
            links_back: Returned::with_room(alloc, links.len())?,
            doors: VecDeque::from(doors),
            links: VecDeque::from(links),
            asked: Notes::new(alloc),
            fails,
            calls: 0,
            faults: 0,
            link_faults: 0,
            yard: MemYard::new(alloc, Vec::new(alloc), Vec::new(alloc), Vec::new(alloc))?,
        })
    }

    /// This street with the gates and the notes of this yard.
    pub fn with_yard(mut self, yard: MemYard) -> Self
        ensures { result ≡ record self { yard = yard } }
    {
        self.yard = yard;
        self
    }

    /// The gates and the notes of the street: what it was asked for, and what came back.
    pub fn yard(&self) -> &MemYard
        ensures { result.now ≡ self.now.yard }
    {
        &self.yard
    }

    /// What the street was asked for, refused calls too, while there was memory for it.
    pub fn asked(&self) -> Option<&[Asked]>
        ensures { option_map (λ asked. asked.now) result ≡ self.now.asked }
    {
        self.asked.items()
    }

    /// The doors that came back so far, in order, as they were then. `None` once the street was
    /// handed more doors than it gave.
    pub fn doors_back(&self) -> Option<&[MemDoor]>
        ensures { option_map (λ doors. doors.now) result ≡ self.now.doors_back }
    {
        self.doors_back.items()
    }

    /// The links that came back so far, in order, as they were then. `None` once the street was
    /// handed more links than it gave.
    pub fn links_back(&self) -> Option<&[MemLink]>
        ensures { option_map (λ links. links.now) result ≡ self.now.links_back }
    {
        self.links_back.items()
    }

    /// How often the street failed so far, with the doors that came back with faults.
    pub fn faults(&self) -> u64
        ensures { result ≡ self.now.faults }
    {
        self.faults
    }

    /// How many links came back with faults.
    pub fn link_faults(&self) -> u64
        ensures { result ≡ self.now.link_faults }
    {
        self.link_faults
    }

    // Adds to what was asked. Where there was no memory for it, that is a fault.
    fn note(&mut self, asked: Result<Asked, AllocError>)
        ensures grew { (wanted : Asked) → IfOk asked (λ a. a ≡ wanted)
            → Grew self.old.asked self.new.asked (wanted ∷ []) }
        ensures kept { IsSome self.new.asked → self.new.faults ≡ self.old.faults }
        ensures later { self.old.faults ≤ self.new.faults }
        ensures same { self.new ≡
            record self.old { asked = self.new.asked; faults = self.new.faults } }
    {
        let Ok(asked) = asked else {
            self.asked.lose();
            self.faults = self.faults.saturating_add(1);
            return;
        };
        let Ok(()) = self.asked.add(asked) else {
            self.faults = self.faults.saturating_add(1);
            return;
        };
    }

    // Counts a call, and answers whether it is to fail.
    fn count_call(&mut self) -> bool
        ensures told { result ≡ fails_next self.old.calls self.old.fails }
        ensures same { self.new ≡ record self.old { calls = next_count self.old.calls } }
    {
        self.calls = self.calls.saturating_add(1);
        is_told(&self.fails, self.calls)
    }

    // Counts a fault.
    fn count_fault(&mut self)
        ensures { self.new ≡ record self.old { faults = next_count self.old.faults } }
    {
        self.faults = self.faults.saturating_add(1);
    }

    // Counts a link that came back after so many faults of its own.
    fn count_link_faults(&mut self, faults: u64)
        ensures rises { RisesWith faults self.old.link_faults self.new.link_faults }
        ensures counted { 0 < faults → self.new.link_faults ≡ next_count self.old.link_faults }
        ensures same { self.new ≡ record self.old { link_faults = self.new.link_faults } }
    {
        if faults > 0 {
            self.link_faults = self.link_faults.saturating_add(1);
        }
    }

    // Counts a door that came back after so many faults of its own: that is a fault of the street.
    fn count_door_faults(&mut self, faults: u64)
        ensures rises { RisesWith faults self.old.faults self.new.faults }
        ensures counted { 0 < faults → self.new.faults ≡ next_count self.old.faults }
        ensures same { self.new ≡ record self.old { faults = self.new.faults } }
    {
        if faults > 0 {
            self.faults = self.faults.saturating_add(1);
        }
    }

    // Gives the next doors, where there are so many.
    #[tactic(auto, using(crate::proofs::ListLemmas::all_take, crate::proofs::ListLemmas::all_drop))]
    fn give_doors(&mut self, count: usize) -> Result<Vec<MemDoor>, StreetFault>
        ensures given { IfOk result (λ given. given.items ≡ take count self.old.doors) }
        ensures size { IfOk result (λ given. vec_len given ≡ count) }
        ensures fresh { IfOk result (λ given. IsTrue (list_all is_new_door given.items)) }
        ensures exact { IsErrOf result StreetFault.Failed ↔ (length self.old.doors < count) }
        ensures faults { self.new.faults ≡ faults_after_ask result self.old.faults }
        ensures same { self.new ≡ record self.old {
          doors = if is_ok result then drop count self.old.doors else self.old.doors;
          doors_owed = if is_ok result then self.old.doors_owed + count else self.old.doors_owed;
          faults = self.new.faults;
        } }
    {
        if count > self.doors.len() {
            self.faults = self.faults.saturating_add(1);
            return Err(StreetFault::Failed);
        }
        let Ok(rest) = self.doors.split_off(count) else {
            return Err(StreetFault::Memory);
        };
        self.doors_back.give(count);
        Ok(Vec::from(mem::replace(&mut self.doors, rest)))
    }

    // Gives the next link, where there is one.
    fn give_link(&mut self) -> Result<MemLink, StreetFault>
        ensures given { IfOk result (λ link. self.old.links ≡ link ∷ self.new.links) }
        ensures fresh { IfOk result (λ link. IsTrue (is_new_link link)) }
        ensures exact { IsErrOf result StreetFault.Failed ↔ (length self.old.links < 1) }
        ensures err { IsErr result → IsErrOf result StreetFault.Failed }
        ensures faults { self.new.faults ≡ faults_after_ask result self.old.faults }
        ensures same { self.new ≡ record self.old {
          links = drop 1 self.old.links;
          links_owed = if is_ok result then self.old.links_owed + 1 else self.old.links_owed;
          faults = self.new.faults;
        } }
    {
        let Some(link) = self.links.pop_front() else {
            self.faults = self.faults.saturating_add(1);
            return Err(StreetFault::Failed);
        };
        self.links_back.give(1);
        Ok(link)
    }
}

impl Street for MemStreet {
    ghost use Rattle.cast_io.specs.FakeStreets.{GaveDoors, GaveLink, IsStreetCall};
    ghost use Rattle.cast_io.specs.Streets.{HasAsked, HasLeft, HasShut};
    ghost use Rattle.cast_io.specs.Links.{IsNewLink};
    ghost use Rattle.cast_io.specs.Doors.{IsNewDoor};
    ghost use Rattle.cast_io.specs.declared.steps.Asked.TheVariants as asked;

    type Link = MemLink;

    type Door = MemDoor;

    ghost told = { street_told };

    fn open(&mut self, addr: &str, doors: u32) -> Result<Vec<MemDoor>, StreetFault>
        ensures wanted { HasAsked (asked.Open addr.now doors)
            (street_told self.old) (street_told self.new) }
        ensures count { IfOk result (λ given. vec_len given ≡ doors) }
        ensures each { IfOk result (λ given. All (λ door. IsNewDoor (door_told door)) given.items) }
        ensures cause { IsErrOf result StreetFault.Failed → Rose self.old.faults self.new.faults }
        ensures fake { IsStreetCall (open_fails self.old doors) self.old self.new result }
        ensures given { IfOk result (λ given. given.items ≡ take doors self.old.doors) }
        ensures gave { GaveDoors (is_ok result) doors self.old self.new }
    {
        self.note(an_open(self.alloc, addr, doors));
        if self.count_call() {
            self.count_fault();
            return Err(StreetFault::Failed);
        }
        self.give_doors(doors as usize)
    }

    fn dial(&mut self, addr: &str) -> Result<MemLink, StreetFault>
        ensures wanted { HasAsked (asked.Dial addr.now)
            (street_told self.old) (street_told self.new) }
        ensures each { IfOk result (λ link. IsNewLink (link_told link)) }
        ensures cause { IsErrOf result StreetFault.Failed → Rose self.old.faults self.new.faults }
        ensures fake { IsStreetCall (dial_fails self.old) self.old self.new result }
        ensures err { IsErr result → IsErrOf result StreetFault.Failed }
        ensures given { IfOk result (λ link. self.old.links ≡ link ∷ self.new.links) }
        ensures gave { GaveLink (is_ok result) self.old self.new }
    {
        self.note(a_dial(self.alloc, addr));
        if self.count_call() {
            self.count_fault();
            return Err(StreetFault::Failed);
        }
        self.give_link()
    }

    // A link more than it gave is not kept, and the list is told no longer.
    fn hang_up(&mut self, link: MemLink)
        ensures left { HasLeft (link_told link) (street_told self.old) (street_told self.new) }
        ensures kept { self.new ≡ record self.old {
          links_back = with_return self.old.links_owed self.old.links_back link;
          links_owed = self.old.links_owed - 1;
          link_faults = self.new.link_faults;
        } }
        ensures counted { 0 < link.faults → self.new.link_faults ≡ next_count self.old.link_faults }
    {
        self.count_link_faults(link.faults());
        self.links_back.take_back(link);
    }

    // A door more than it gave is not kept, and the list is told no longer.
    fn shut(&mut self, door: MemDoor)
        ensures shut { HasShut (door_told door) (street_told self.old) (street_told self.new) }
        ensures kept { self.new ≡ record self.old {
          doors_back = with_return self.old.doors_owed self.old.doors_back door;
          doors_owed = self.old.doors_owed - 1;
          faults = self.new.faults;
        } }
        ensures counted { 0 < door.faults → self.new.faults ≡ next_count self.old.faults }
    {
        self.count_door_faults(door.faults());
        self.doors_back.take_back(door);
    }
}

// Each call of the yard leaves all else as it was.
impl Yard for MemStreet {
    ghost use Rattle.cast_io.specs.Doors.{IsNewDoor};
    ghost use Rattle.cast_io.specs.Yards.{AreNewNotes, HasAnswered, HasBeenAsked, HasShutGate, HasTakenNotes};
    ghost use Rattle.cast_io.specs.FakeGates.{gate_told};
    ghost use Rattle.cast_io.specs.FakeYards.{GaveNotes, GivesGates, IsSureYardCall, notes_fail, notes_told, yard_told};
    ghost use Rattle.cast_io.specs.declared.yard_asked.YardAsked.TheVariants as asked;

    type Gate = MemGate;

    type Notes = MemSink;

    ghost kept = { λ s. yard_told s.yard };

    fn open_gates(
        &mut self,
        addr: &str,
        gates: u32,
        quiet: u32,
    ) -> Result<Vec<MemGate>, StreetFault>
        ensures wanted { HasBeenAsked (asked.OpenGates addr.now gates quiet)
            (yard_told self.old.yard) (yard_told self.new.yard) }
        ensures count { IfOk result (λ given. vec_len given ≡ gates) }
        ensures each { IfOk result
            (λ given. All (λ gate. IsNewDoor (door_told gate.door)) given.items) }
        ensures made { IfOk result (λ given. All (λ gate. gate.origin
            ≡ asked.OpenGates addr.now gates quiet) given.items) }
        ensures answered { HasAnswered result
            (yard_told self.old.yard) (yard_told self.new.yard) }
        ensures fake { GivesGates (asked.OpenGates addr.now gates quiet) gates
            (λ given. given.items) self.old.yard self.new.yard result }
        ensures same { self.new ≡ record self.old { yard = self.new.yard } }
    {
        self.yard.open_gates(addr, gates, quiet)
    }

    fn reach(&mut self, addr: &str, quiet: u32) -> Result<MemGate, StreetFault>
        ensures wanted { HasBeenAsked (asked.Reach addr.now quiet)
            (yard_told self.old.yard) (yard_told self.new.yard) }
        ensures each { IfOk result (λ gate. IsNewDoor (door_told gate.door)) }
        ensures made { IfOk result (λ gate. gate.origin ≡ asked.Reach addr.now quiet) }
        ensures answered { HasAnswered result
            (yard_told self.old.yard) (yard_told self.new.yard) }
        ensures err { IsErr result → IsErrOf result StreetFault.Failed }
        ensures fake { GivesGates (asked.Reach addr.now quiet) 1 (λ gate. gate ∷ [])
            self.old.yard self.new.yard result }
        ensures same { self.new ≡ record self.old { yard = self.new.yard } }
    {
        self.yard.reach(addr, quiet)
    }

    fn notes(&mut self) -> Result<MemSink, StreetFault>
        ensures wanted { HasBeenAsked asked.Notes
            (yard_told self.old.yard) (yard_told self.new.yard) }
        ensures each { IfOk result (λ notes. AreNewNotes (notes_told notes)) }
        ensures answered { HasAnswered result
            (yard_told self.old.yard) (yard_told self.new.yard) }
        ensures fake { IsSureYardCall (notes_fail self.old.yard) self.old.yard self.new.yard
            result }
        ensures given { IfOk result (λ notes. self.old.yard.notes ≡ notes ∷ self.new.yard.notes) }
        ensures gave { GaveNotes (is_ok result) self.old.yard self.new.yard }
        ensures same { self.new ≡ record self.old { yard = self.new.yard } }
    {
        self.yard.make_notes()
    }

    // A gate more than it gave is not kept, and the list is told no longer.
    fn shut_gate(&mut self, gate: MemGate)
        ensures shut { HasShutGate (gate_told gate)
            (yard_told self.old.yard) (yard_told self.new.yard) }
        ensures kept { self.new ≡ record self.old {
          yard = record self.old.yard {
            gates_back = with_return self.old.yard.gates_owed self.old.yard.gates_back gate;
            gates_owed = self.old.yard.gates_owed - 1;
            faults = self.new.yard.faults;
          };
        } }
        ensures counted { 0 < gate.door.faults
            → self.new.yard.faults ≡ next_count self.old.yard.faults }
    {
        self.yard.shut_gate(gate);
    }

    // Notes more than it gave are not kept, and the list is told no longer.
    fn take_notes(&mut self, notes: MemSink)
        ensures taken { HasTakenNotes (notes_told notes)
            (yard_told self.old.yard) (yard_told self.new.yard) }
        ensures kept { self.new ≡ record self.old {
          yard = record self.old.yard {
            notes_back = with_return self.old.yard.notes_owed self.old.yard.notes_back notes;
            notes_owed = self.old.yard.notes_owed - 1;
            note_faults = self.new.yard.note_faults;
          };
        } }
        ensures counted { 0 < notes.faults
            → self.new.yard.note_faults ≡ next_count self.old.yard.note_faults }
    {
        self.yard.take_notes(notes);
    }
}

// An open of so many doors at this address.
fn an_open(alloc: Global, addr: &str, doors: u32) -> Result<Asked, AllocError>
    ensures { IfOk result (λ a. a ≡ Asked.Open addr.now doors) }
{
    Ok(Asked::Open {
        addr: ByteString::copy_of(alloc, addr.as_bytes())?,
        doors,
    })
}

// A dial of this address.
fn a_dial(alloc: Global, addr: &str) -> Result<Asked, AllocError>
    ensures { IfOk result (λ a. a ≡ Asked.Dial addr.now) }
{
    Ok(Asked::Dial {
        addr: ByteString::copy_of(alloc, addr.as_bytes())?,
    })
}
