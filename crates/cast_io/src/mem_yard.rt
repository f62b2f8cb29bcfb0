//! The gates and the notes of a street in memory. They are given in order, and calls fail that are
//! told to.
ghost use Rattle.std.specs.Prelude.{◌≡◌, ◌≤◌, ◌<◌, ◌+◌, ◌-◌, ◌↔◌, [], ◌∷◌, length, map, take, drop, vec_len, nat_lt, Some, if◌then◌else◌, is_ok, is_some, option_map, IsTrue, IsErr, IsErrOf, IfOk};
ghost use Rattle.std.specs.List.{All, list_all};
ghost use Rattle.cast_io.specs.Causes.{next_count};
ghost use Rattle.cast_io.specs.Fakes.{fails_next};
ghost use Rattle.cast_io.specs.Returns.{with_return};
ghost use Rattle.cast_io.specs.Streets.{RisesWith};
ghost use Rattle.cast_io.specs.Doors.{IsNewDoor};
ghost use Rattle.cast_io.specs.FakeDoors.{door_told};
ghost use Rattle.cast_io.specs.FakeGates.{made_for};
ghost use Rattle.cast_io.specs.declared.yard_asked.YardAsked.TheVariants as asked;

use crate::bytes::ByteString;
use crate::calls::is_told;
use crate::mem_gate::MemGate;
use crate::mem_sink::MemSink;
use crate::notes::Notes;
use crate::returned::Returned;
use crate::street::StreetFault;
use crate::yard_asked::YardAsked;
use std::alloc::{AllocError, Global};
use std::collections::VecDeque;
use std::marker::Model;
use std::mem;

/// The gates and the notes of a street in memory.
#[derive(Drop)]
pub struct MemYard {
    alloc: Global,
    gates: VecDeque<MemGate>,
    notes: VecDeque<MemSink>,
    asked: Notes<YardAsked>,
    gates_back: Returned<MemGate>,
    notes_back: Returned<MemSink>,
    fails: Vec<u64>,
    calls: u64,
    faults: u64,
    note_faults: u64,
}

impl Model for MemYard {
    ghost use Rattle.std.specs.Prelude.{◌≤◌, IsTrue, length};
    ghost use Rattle.std.specs.List.{list_all};
    ghost use Rattle.cast_io.specs.FakeGates.{is_new_gate};
    ghost use Rattle.cast_io.specs.FakeYards.{YardState, are_new_notes};

    ghost Value = { YardState };

    ghost view = { λ y. record {
      gates = y.gates.items;
      notes = y.notes.items;
      asked = y.asked;
      gates_back = y.gates_back.items;
      gates_owed = y.gates_back.owed;
      notes_back = y.notes_back.items;
      notes_owed = y.notes_back.owed;
      fails = y.fails.items;
      calls = y.calls;
      faults = y.faults;
      note_faults = y.note_faults;
    } };

    ghost invariant = { λ y. IsTrue (list_all is_new_gate y.gates.items)
        × IsTrue (list_all are_new_notes y.notes.items)
        × (length y.gates.items ≤ y.gates_back.spare)
        × (length y.notes.items ≤ y.notes_back.spare) };
}

impl MemYard {
    ghost use Rattle.cast_io.specs.FakeGates.{is_new_gate};
    ghost use Rattle.cast_io.specs.FakeYards.{IsYardOf, are_new_notes};

    /// A yard that gives the next of these gates to each call for gates, and the next of these
    /// notes to each call for notes, all as they were made. `fails` lists which of these calls
    /// fail, by their numbers from 1 over calls for gates and for notes alike.
    pub fn new(
        alloc: Global,
        gates: Vec<MemGate>,
        notes: Vec<MemSink>,
        fails: Vec<u64>,
    ) -> Result<Self, AllocError>
        requires gates { IsTrue (list_all is_new_gate gates.items) }
        requires notes { IsTrue (list_all are_new_notes notes.items) }
        ensures made { IfOk result (λ yard. IsYardOf yard gates.items notes.items fails.items) }
    {
        Ok(MemYard {
            alloc,
            gates_back: Returned::with_room(alloc, gates.len())?,
            notes_back: Returned::with_room(alloc, notes.len())?,
            gates: VecDeque::from(gates),
            notes: VecDeque::from(notes),
            asked: Notes::new(alloc),
            fails,
            calls: 0,
            faults: 0,
            note_faults: 0,
        })
    }

    /// What the yard was asked for, refused calls too, while there was memory for it.
    pub fn asked(&self) -> Option<&[YardAsked]>
        ensures { option_map (λ asked. asked.now) result ≡ self.now.asked }
    {
        self.asked.items()
    }

    /// The gates that came back so far, in order, as they were then. `None` once the yard was
    /// handed more gates than it gave.
    pub fn gates_back(&self) -> Option<&[MemGate]>
        ensures { option_map (λ gates. gates.now) result ≡ self.now.gates_back }
    {
        self.gates_back.items()
    }

    /// The notes that came back so far, in order, as they were then. `None` once the yard was
    /// handed more notes than it gave.
    pub fn notes_back(&self) -> Option<&[MemSink]>
        ensures { option_map (λ notes. notes.now) result ≡ self.now.notes_back }
    {
        self.notes_back.items()
    }

    /// How often the yard failed so far, with the gates that came back with faults.
    pub fn faults(&self) -> u64
        ensures { result ≡ self.now.faults }
    {
        self.faults
    }

    /// How many notes came back with faults.
    pub fn note_faults(&self) -> u64
        ensures { result ≡ self.now.note_faults }
    {
        self.note_faults
    }
}

// Calls for gates and notes.
impl MemYard {
    ghost use Rattle.cast_io.specs.Told.{Grew};
    ghost use Rattle.cast_io.specs.Yards.{AreNewNotes, HasAnswered, HasBeenAsked};
    ghost use Rattle.cast_io.specs.FakeGates.{is_new_gate};
    ghost use Rattle.cast_io.specs.FakeYards.{GaveNotes, GivesGates, IsSureYardCall, are_new_notes, notes_fail, notes_told, yard_told};
    ghost use Rattle.cast_io.specs.declared.yard_asked.YardAsked.{YardAsked};

    // Adds to what was asked. Where that is told no longer since, that is a fault.
    fn note(&mut self, wanted: Result<YardAsked, AllocError>)
        ensures grew { (call : YardAsked) → IfOk wanted (λ w. w ≡ call)
            → Grew self.old.asked self.new.asked (call ∷ []) }
        ensures kept { is_some self.new.asked ≡ is_some self.old.asked
            → self.new.faults ≡ self.old.faults }
        ensures later { self.old.faults ≤ self.new.faults }
        ensures same { self.new ≡
            record self.old { asked = self.new.asked; faults = self.new.faults } }
    {
        if self.asked.note(wanted) {
            self.faults = self.faults.saturating_add(1);
        }
    }

    // Counts a call, and a fault where it is to fail. Answers whether it is.
    fn fails_call(&mut self) -> bool
        ensures told { result ≡ fails_next self.old.calls self.old.fails }
        ensures later { self.old.faults ≤ self.new.faults }
        ensures same { self.new ≡ record self.old {
          calls = next_count self.old.calls;
          faults = if result then next_count self.old.faults else self.old.faults;
        } }
    {
        self.calls = self.calls.saturating_add(1);
        if is_told(&self.fails, self.calls) {
            self.faults = self.faults.saturating_add(1);
            return true;
        }
        false
    }

    // Gives the next gates, where there are so many.
    #[tactic(auto, using(crate::proofs::ListLemmas::all_take, crate::proofs::ListLemmas::all_drop))]
    fn give_gates(&mut self, count: usize) -> Result<Vec<MemGate>, StreetFault>
        ensures given { IfOk result (λ given. given.items ≡ take count self.old.gates) }
        ensures size { IfOk result (λ given. vec_len given ≡ count) }
        ensures fresh { IfOk result (λ given. IsTrue (list_all is_new_gate given.items)) }
        ensures exact { IsErrOf result StreetFault.Failed ↔ (length self.old.gates < count) }
        ensures faults { self.new.faults ≡ (if nat_lt (length self.old.gates) count
            then next_count self.old.faults else self.old.faults) }
        ensures same { self.new ≡ record self.old {
          gates = if is_ok result then drop count self.old.gates else self.old.gates;
          gates_owed = if is_ok result then self.old.gates_owed + count else self.old.gates_owed;
          faults = self.new.faults;
        } }
    {
        if count > self.gates.len() {
            self.faults = self.faults.saturating_add(1);
            return Err(StreetFault::Failed);
        }
        let Ok(rest) = self.gates.split_off(count) else {
            return Err(StreetFault::Memory);
        };
        self.gates_back.give(count);
        Ok(Vec::from(mem::replace(&mut self.gates, rest)))
    }
    // Gives the next gate, where there is one.
    fn give_gate(&mut self) -> Result<MemGate, StreetFault>
        ensures given { IfOk result (λ gate. self.old.gates ≡ gate ∷ self.new.gates) }
        ensures fresh { IfOk result (λ gate. IsTrue (is_new_gate gate)) }
        ensures err { IsErr result → IsErrOf result StreetFault.Failed }
        ensures exact { IsErrOf result StreetFault.Failed ↔ (length self.old.gates < 1) }
        ensures faults { self.new.faults ≡ (if nat_lt (length self.old.gates) 1
            then next_count self.old.faults else self.old.faults) }
        ensures same { self.new ≡ record self.old {
          gates = if is_ok result then drop 1 self.old.gates else self.old.gates;
          gates_owed = if is_ok result then self.old.gates_owed + 1 else self.old.gates_owed;
          faults = self.new.faults;
        } }
    {
        let Some(gate) = self.gates.pop_front() else {
            self.faults = self.faults.saturating_add(1);
            return Err(StreetFault::Failed);
        };
        self.gates_back.give(1);
        Ok(gate)
    }

    // Gives the next notes, where there are some.
    fn give_notes(&mut self) -> Result<MemSink, StreetFault>
        ensures given { IfOk result (λ notes. self.old.notes ≡ notes ∷ self.new.notes) }
        ensures fresh { IfOk result (λ notes. IsTrue (are_new_notes notes)) }
        ensures err { IsErr result → IsErrOf result StreetFault.Failed }
        ensures exact { IsErrOf result StreetFault.Failed ↔ (length self.old.notes < 1) }
        ensures faults { self.new.faults ≡ (if nat_lt (length self.old.notes) 1
            then next_count self.old.faults else self.old.faults) }
        ensures later { self.old.faults ≤ self.new.faults }
        ensures same { self.new ≡ record self.old {
          notes = if is_ok result then drop 1 self.old.notes else self.old.notes;
          notes_owed = if is_ok result then self.old.notes_owed + 1 else self.old.notes_owed;
          faults = self.new.faults;
        } }
    {
        let Some(notes) = self.notes.pop_front() else {
            self.faults = self.faults.saturating_add(1);
            return Err(StreetFault::Failed);
        };
        self.notes_back.give(1);
        Ok(notes)
    }

    // An open of so many gates, as `open_gates` of the street.
    #[tactic(auto, using(crate::proofs::GateLemmas::made_so))]
    pub(crate) fn open_gates(
        &mut self,
        addr: &str,
        gates: u32,
        quiet: u32,
    ) -> Result<Vec<MemGate>, StreetFault>
        ensures wanted { HasBeenAsked (asked.OpenGates addr.now gates quiet)
            (yard_told self.old) (yard_told self.new) }
        ensures count { IfOk result (λ given. vec_len given ≡ gates) }
        ensures each { IfOk result
            (λ given. All (λ gate. IsNewDoor (door_told gate.door)) given.items) }
        ensures made { IfOk result (λ given. All (λ gate. gate.origin
            ≡ asked.OpenGates addr.now gates quiet) given.items) }
        ensures answered { HasAnswered result (yard_told self.old) (yard_told self.new) }
        ensures fake { GivesGates (asked.OpenGates addr.now gates quiet) gates
            (λ given. given.items) self.old self.new result }
    {
        self.note(an_open(self.alloc, addr, gates, quiet));
        if self.fails_call() {
            return Err(StreetFault::Failed);
        }
        let mut given = self.give_gates(gates as usize)?;
        be_opened(&mut given, addr, gates, quiet);
        Ok(given)
    }

    // The making of a gate that dials, as `reach` of the street.
    pub(crate) fn reach(&mut self, addr: &str, quiet: u32) -> Result<MemGate, StreetFault>
        ensures wanted { HasBeenAsked (asked.Reach addr.now quiet)
            (yard_told self.old) (yard_told self.new) }
        ensures each { IfOk result (λ gate. IsNewDoor (door_told gate.door)) }
        ensures made { IfOk result (λ gate. gate.origin ≡ asked.Reach addr.now quiet) }
        ensures answered { HasAnswered result (yard_told self.old) (yard_told self.new) }
        ensures err { IsErr result → IsErrOf result StreetFault.Failed }
        ensures fake { GivesGates (asked.Reach addr.now quiet) 1 (λ gate. gate ∷ [])
            self.old self.new result }
    {
        self.note(a_reach(self.alloc, addr, quiet));
        if self.fails_call() {
            return Err(StreetFault::Failed);
        }
        let mut gate = self.give_gate()?;
        gate.be_reached(addr, quiet);
        Ok(gate)
    }

    // The making of notes, as `notes` of the street.
    pub(crate) fn make_notes(&mut self) -> Result<MemSink, StreetFault>
        ensures wanted { HasBeenAsked asked.Notes (yard_told self.old) (yard_told self.new) }
        ensures each { IfOk result (λ notes. AreNewNotes (notes_told notes)) }
        ensures answered { HasAnswered result (yard_told self.old) (yard_told self.new) }
        ensures fake { IsSureYardCall (notes_fail self.old) self.old self.new result }
        ensures given { IfOk result (λ notes. self.old.notes ≡ notes ∷ self.new.notes) }
        ensures gave { GaveNotes (is_ok result) self.old self.new }
    {
        self.note(Ok(YardAsked::Notes));
        if self.fails_call() {
            return Err(StreetFault::Failed);
        }
        self.give_notes()
    }
}

// Gates and notes come back.
impl MemYard {
    ghost use Rattle.cast_io.specs.Yards.{HasShutGate, HasTakenNotes};
    ghost use Rattle.cast_io.specs.FakeGates.{gate_told};
    ghost use Rattle.cast_io.specs.FakeYards.{notes_told, yard_told};

    // Counts a gate that came back after so many faults of its own: that is a fault of the yard.
    fn count_gate_faults(&mut self, faults: u64)
        ensures rises { RisesWith faults self.old.faults self.new.faults }
        ensures counted { 0 < faults → self.new.faults ≡ next_count self.old.faults }
        ensures same { self.new ≡ record self.old { faults = self.new.faults } }
    {
        if faults > 0 {
            self.faults = self.faults.saturating_add(1);
        }
    }

    // Counts notes that came back after so many faults of their own.
    fn count_note_faults(&mut self, faults: u64)
        ensures rises { RisesWith faults self.old.note_faults self.new.note_faults }
        ensures counted { 0 < faults → self.new.note_faults ≡ next_count self.old.note_faults }
        ensures same { self.new ≡ record self.old { note_faults = self.new.note_faults } }
    {
        if faults > 0 {
            self.note_faults = self.note_faults.saturating_add(1);
        }
    }

    // A gate comes back, as at `shut_gate` of the street.
    pub(crate) fn shut_gate(&mut self, gate: MemGate)
        ensures shut { HasShutGate (gate_told gate) (yard_told self.old) (yard_told self.new) }
        ensures kept { self.new ≡ record self.old {
          gates_back = with_return self.old.gates_owed self.old.gates_back gate;
          gates_owed = self.old.gates_owed - 1;
          faults = self.new.faults;
        } }
        ensures counted { 0 < gate.door.faults → self.new.faults ≡ next_count self.old.faults }
    {
        self.count_gate_faults(gate.faults());
        self.gates_back.take_back(gate);
    }

    // Notes come back, as at `take_notes` of the street.
    pub(crate) fn take_notes(&mut self, notes: MemSink)
        ensures taken { HasTakenNotes (notes_told notes) (yard_told self.old) (yard_told self.new) }
        ensures kept { self.new ≡ record self.old {
          notes_back = with_return self.old.notes_owed self.old.notes_back notes;
          notes_owed = self.old.notes_owed - 1;
          note_faults = self.new.note_faults;
        } }
        ensures counted { 0 < notes.faults
            → self.new.note_faults ≡ next_count self.old.note_faults }
    {
        self.count_note_faults(notes.faults());
        self.notes_back.take_back(notes);
    }
}

// A yard gives these as the gates at this address, of which there are so many.
fn be_opened(given: &mut Vec<MemGate>, addr: &str, gates: u32, quiet: u32)
    ensures { given.new.items
        ≡ map (made_for (asked.OpenGates addr.now gates quiet)) given.old.items }
{
    for gate in given.iter_mut() {
        gate.be_opened(addr, gates, quiet);
    }
}

// An open of so many gates at this address.
fn an_open(alloc: Global, addr: &str, gates: u32, quiet: u32) -> Result<YardAsked, AllocError>
    ensures { IfOk result (λ a. a ≡ YardAsked.OpenGates addr.now gates quiet) }
{
    Ok(YardAsked::OpenGates {
        addr: ByteString::copy_of(alloc, addr.as_bytes())?,
        gates,
        quiet,
    })
}

// The making of a gate that dials this address.
fn a_reach(alloc: Global, addr: &str, quiet: u32) -> Result<YardAsked, AllocError>
    ensures { IfOk result (λ a. a ≡ YardAsked.Reach addr.now quiet) }
{
    Ok(YardAsked::Reach {
        addr: ByteString::copy_of(alloc, addr.as_bytes())?,
        quiet,
    })
}
