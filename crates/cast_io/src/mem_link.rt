//! A link in memory that takes its steps in order, and fails at the calls that it is told to.
ghost use Rattle.std.specs.Prelude.{◌≡◌, ◌<◌, ◌≤◌, ◌+◌, ◌++◌, ◌⊎◌, [], ◌∷◌, length, Some, MatchOption, option_map, drop, IsTrue, IsSome, IfOk};
ghost use Rattle.std.specs.List.{list_all};
ghost use Rattle.cast_io.specs.Causes.{next_count, Rose};
ghost use Rattle.cast_io.specs.Fakes.{fails_next};
ghost use Rattle.cast_io.specs.FakeLinks.{link_told, steps_left, has_bytes, faults_after};
ghost use Rattle.cast_io.specs.Links.{IsGot, has_failed, step_of};
ghost use Rattle.cast_io.specs.declared.steps.Step.TheVariants as took;

use crate::bytes::ByteString;
use crate::calls::{copy_from, is_told, take_bytes, torn_front};
use crate::fault::Failed;
use crate::link::{Got, Link};
use crate::notes::Notes;
use crate::steps::{LinkStep, Step};
use std::alloc::{AllocError, Global};
use std::marker::Model;

/// A link in memory.
#[derive(Drop)]
pub struct MemLink {
    alloc: Global,
    given: Vec<LinkStep>,
    place: usize,
    offset: usize,
    taken: Notes<Step>,
    bytes: Vec<u8>,
    fails: Vec<u64>,
    torn: Vec<(u64, u64)>,
    calls: u64,
    writes: u64,
    faults: u64,
}

impl Model for MemLink {
    ghost use Rattle.std.specs.Prelude.{vec_capacity, IsTrue, drop, ◌≤◌, length};
    ghost use Rattle.std.specs.List.{list_all};
    ghost use Rattle.cast_io.specs.FakeLinks.{LinkState, has_bytes, is_within};

    ghost Value = { LinkState };

    ghost view = { λ l. record {
      given = l.given.items;
      place = l.place;
      offset = l.offset;
      taken = l.taken;
      bytes = l.bytes.items;
      fails = l.fails.items;
      torn = l.torn.items;
      calls = l.calls;
      writes = l.writes;
      faults = l.faults;
      room = vec_capacity l.bytes;
    } };

    ghost invariant = { λ l. IsTrue (list_all has_bytes l.given.items)
        × IsTrue (is_within (drop l.place l.given.items) l.offset) };
}

impl MemLink {
    ghost use Rattle.cast_io.specs.FakeLinks.{IsMadeOf, IsReadOf, IsWriteOf};
    ghost use Rattle.cast_io.specs.Links.{TakesStep};
    ghost use Rattle.cast_io.specs.Told.{Grew};
    ghost use Rattle.cast_io.specs.declared.steps.Step.{Step};

    /// A link whose peer takes these steps, of which those of bytes hold at least one. `fails`
    /// lists which calls fail, by their numbers from 1 over reads and writes alike.
    pub fn new(alloc: Global, steps: Vec<LinkStep>, fails: Vec<u64>) -> Self
        requires { IsTrue (list_all has_bytes steps.items) }
        ensures made { IsMadeOf result steps.items fails.items [] }
    {
        MemLink {
            alloc,
            given: steps,
            place: 0,
            offset: 0,
            taken: Notes::new(alloc),
            bytes: Vec::new(alloc),
            fails,
            torn: Vec::new(alloc),
            calls: 0,
            writes: 0,
            faults: 0,
        }
    }

    /// A link whose peer takes these steps, of which those of bytes hold at least one. `fails`
    /// holds pairs: the number of a write, from 1, that is to fail, and how many bytes of its piece
    /// it takes, at most all. Of two pairs for one write the first counts.
    pub fn torn(alloc: Global, steps: Vec<LinkStep>, fails: Vec<(u64, u64)>) -> Self
        requires { IsTrue (list_all has_bytes steps.items) }
        ensures made { IsMadeOf result steps.items [] fails.items }
    {
        MemLink {
            alloc,
            given: steps,
            place: 0,
            offset: 0,
            taken: Notes::new(alloc),
            bytes: Vec::new(alloc),
            fails: Vec::new(alloc),
            torn: fails,
            calls: 0,
            writes: 0,
            faults: 0,
        }
    }

    /// All bytes that the link took so far.
    pub fn bytes(&self) -> &[u8]
        ensures { result.now ≡ self.now.bytes }
    {
        &self.bytes
    }

    /// The steps that the link took so far, in order: the answer of each read, and each write that
    /// failed. `None` once there was no memory for one.
    pub fn steps(&self) -> Option<&[Step]>
        ensures { option_map (λ steps. steps.now) result ≡ self.now.taken }
    {
        self.taken.items()
    }

    /// How often the link failed so far.
    pub fn faults(&self) -> u64
        ensures { result ≡ self.now.faults }
    {
        self.faults
    }

    // Takes what the next read gives from the steps to come.
    #[tactic(auto, using(crate::proofs::StepLemmas::next_in, crate::proofs::StepLemmas::none_done))]
    fn take_step(&mut self, buf: &mut [u8]) -> Got
        requires { 0 < length buf.old }
        ensures bound { IsGot result (length buf.old) }
        ensures size { length buf.new ≡ length buf.old }
        ensures left { TakesStep result buf.new (steps_left self.old) (steps_left self.new) }
        ensures exact { has_failed result ≡ fails_next self.old.calls self.old.fails }
        ensures faults { self.new.faults ≡ faults_after result self.old.faults }
        ensures rises { (self.old.faults ≤ self.new.faults)
            × (IsTrue (has_failed result) → Rose self.old.faults self.new.faults) }
        ensures same { IsReadOf self.old self.new × (self.new.taken ≡ self.old.taken) }
    {
        self.calls = self.calls.saturating_add(1);
        if is_told(&self.fails, self.calls) {
            self.faults = self.faults.saturating_add(1);
            return Got::Failed;
        }
        let Some(step) = step_at(&self.given, self.place) else {
            return Got::End;
        };
        match step {
            LinkStep::Bytes(bytes) => {
                let bytes = bytes.as_slice();
                let count = copy_from(bytes, self.offset, buf);
                if self.offset + count == bytes.len() {
                    self.place += 1;
                    self.offset = 0;
                    return Got::Bytes(count);
                }
                self.offset += count;
                Got::Bytes(count)
            }
            LinkStep::Idle => {
                self.place += 1;
                self.offset = 0;
                Got::Idle
            }
            LinkStep::End => {
                self.place += 1;
                self.offset = 0;
                Got::End
            }
        }
    }

    // Adds a step to those taken. Where there was no memory for it, that is one fault more.
    fn note(&mut self, step: Result<Step, AllocError>)
        ensures grew { (taken : Step) → IfOk step (λ s. s ≡ taken)
            → Grew self.old.taken self.new.taken (taken ∷ []) }
        ensures kept { IsSome self.new.taken → self.new.faults ≡ self.old.faults }
        ensures later { self.old.faults ≤ self.new.faults }
        ensures same { self.new ≡
            record self.old { taken = self.new.taken; faults = self.new.faults } }
    {
        let Ok(step) = step else {
            self.taken.lose();
            self.faults = self.faults.saturating_add(1);
            return;
        };
        let Ok(()) = self.taken.add(step) else {
            self.faults = self.faults.saturating_add(1);
            return;
        };
    }

    // Counts a write.
    fn count_write(&mut self)
        ensures { self.new ≡ record self.old {
          calls = next_count self.old.calls;
          writes = next_count self.old.writes;
        } }
    {
        self.calls = self.calls.saturating_add(1);
        self.writes = self.writes.saturating_add(1);
    }

    // Counts a fault of a write, and notes it.
    fn note_failed_write(&mut self)
        ensures grew { Grew self.old.taken self.new.taken (took.WriteFailed ∷ []) }
        ensures later { self.old.faults ≤ self.new.faults }
        ensures rose { Rose self.old.faults self.new.faults }
        ensures same { self.new ≡
            record self.old { taken = self.new.taken; faults = self.new.faults } }
    {
        self.faults = self.faults.saturating_add(1);
        self.note(Ok(Step::WriteFailed));
    }

    // A write that is torn: it takes the front alone.
    fn tear(&mut self, front: &[u8]) -> Failed
        ensures counted { IsWriteOf self.old self.new }
        ensures steps { Grew self.old.taken self.new.taken (took.WriteFailed ∷ []) }
        ensures bytes { (self.new.bytes ≡ self.old.bytes)
            ⊎ (self.new.bytes ≡ self.old.bytes ++ front.now) }
        ensures exact { length self.old.bytes + length front.now ≤ self.old.room
            → self.new.bytes ≡ self.old.bytes ++ front.now }
        ensures none { front.now ≡ [] → self.new.bytes ≡ self.old.bytes }
        ensures later { self.old.faults ≤ self.new.faults }
        ensures rose { Rose self.old.faults self.new.faults }
    {
        self.count_write();
        let _ = take_bytes(&mut self.bytes, &mut self.faults, front);
        self.note_failed_write();
        Failed
    }
}

impl Link for MemLink {
    ghost use Rattle.cast_io.specs.Fakes.{IsFakeWrite};
    ghost use Rattle.cast_io.specs.FakeLinks.{IsReadOf, IsWriteOf, link_fails, link_takes};
    ghost use Rattle.cast_io.specs.Links.{IsGot, HasRead, HasWritten};

    ghost told = { link_told };

    fn read(&mut self, buf: &mut [u8]) -> Got
        requires { 0 < length buf.old }
        ensures bound { IsGot result (length buf.old) }
        ensures read { HasRead (link_told self.old) (link_told self.new) result buf.new }
        ensures exact { has_failed result ≡ fails_next self.old.calls self.old.fails }
        ensures unharmed { IsSome self.new.taken
            → self.new.faults ≡ faults_after result self.old.faults }
        ensures same { IsReadOf self.old self.new }
    {
        let got = self.take_step(buf);
        self.note(step_taken(self.alloc, got, buf));
        got
    }

    fn write(&mut self, piece: &[u8]) -> Result<(), Failed>
        ensures written { HasWritten (link_told self.old) (link_told self.new) result piece.now }
        ensures fake { IsFakeWrite (link_fails self.old) self.old.torn
            (link_takes self.old piece.now) piece.now self.old.room self.old.bytes self.new.bytes
            result }
        ensures same { IsWriteOf self.old self.new }
    {
        if let Some(front) = torn_front(&self.fails, &self.torn, self.calls, self.writes, piece) {
            return Err(self.tear(front));
        }
        self.count_write();
        let Ok(()) = take_bytes(&mut self.bytes, &mut self.faults, piece) else {
            self.note_failed_write();
            return Err(Failed);
        };
        Ok(())
    }

    fn rest(&mut self)
        ensures { self.new ≡ self.old }
    {}

    fn set_mount(&mut self, _mount: u32)
        ensures { self.new ≡ self.old }
    {}
}

// The step at this place.
fn step_at(given: &[LinkStep], place: usize) -> Option<&LinkStep>
    ensures { MatchOption result (drop place given.now ≡ [])
        (λ step. (place < length given.now)
        × (drop place given.now ≡ step.now ∷ drop (place + 1) given.now)) }
{
    given.get(place)
}

// The step that a read took, with a copy of the bytes that it gave.
fn step_taken(alloc: Global, got: Got, buf: &[u8]) -> Result<Step, AllocError>
    requires { IsGot got (length buf.now) }
    ensures { IfOk result (λ step. step ≡ step_of got buf.now) }
{
    match got {
        Got::Bytes(count) => Ok(Step::Bytes(ByteString::copy_of(alloc, &buf[..count])?)),
        Got::Idle => Ok(Step::Idle),
        Got::End => Ok(Step::End),
        Got::Failed => Ok(Step::ReadFailed),
    }
}
