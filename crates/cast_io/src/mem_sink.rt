//! A sink in memory that fails at the calls that it is told to.
ghost use Rattle.std.specs.Prelude.{◌≡◌, ◌≤◌, ◌+◌, ◌++◌, ◌⊎◌, [], length, Some, OnOk, OnErr};
ghost use Rattle.cast_io.specs.Causes.{HasCause, Rose, next_count};
ghost use Rattle.cast_io.specs.Pieces.{AppendsPrefix};
ghost use Rattle.cast_io.specs.Fakes.{IsFakeWrite, sink_fails, sink_takes};

use crate::calls::{take_bytes, torn_front};
use crate::fault::Failed;
use crate::sink::Sink;
use std::alloc::Global;
use std::marker::Model;

/// A sink that keeps the bytes in memory.
#[derive(Drop)]
pub struct MemSink {
    bytes: Vec<u8>,
    fails: Vec<u64>,
    torn: Vec<(u64, u64)>,
    calls: u64,
    faults: u64,
}

impl Model for MemSink {
    ghost use Rattle.std.specs.Prelude.{vec_capacity};
    ghost use Rattle.cast_io.specs.Fakes.{SinkState};

    ghost Value = { SinkState };

    ghost view = { λ s. record {
      bytes = s.bytes.items;
      fails = s.fails.items;
      torn = s.torn.items;
      calls = s.calls;
      faults = s.faults;
      room = vec_capacity s.bytes;
    } };
}

impl MemSink {
    ghost use Rattle.cast_io.specs.Fakes.{IsEmptySink};

    /// An empty sink. `fails` holds the numbers, from 1, of the writes that are to fail; such a
    /// write takes no byte.
    pub fn new(alloc: Global, fails: Vec<u64>) -> Self
        ensures made { IsEmptySink result fails.items [] }
    {
        MemSink {
            bytes: Vec::new(alloc),
            fails,
            torn: Vec::new(alloc),
            calls: 0,
            faults: 0,
        }
    }

    /// An empty sink. `fails` holds pairs: the number of a write, from 1, that is to fail, and how
    /// many bytes of its piece it takes, at most all. Of two pairs for one write the first counts.
    pub fn torn(alloc: Global, fails: Vec<(u64, u64)>) -> Self
        ensures made { IsEmptySink result [] fails.items }
    {
        MemSink {
            bytes: Vec::new(alloc),
            fails: Vec::new(alloc),
            torn: fails,
            calls: 0,
            faults: 0,
        }
    }

    /// All bytes written so far.
    pub fn bytes(&self) -> &[u8]
        ensures { result.now ≡ self.now.bytes }
    {
        &self.bytes
    }

    /// How often the sink failed so far.
    pub fn faults(&self) -> u64
        ensures { result ≡ self.now.faults }
    {
        self.faults
    }

    // Counts a write.
    fn count_call(&mut self)
        ensures { self.new ≡ record self.old { calls = next_count self.old.calls } }
    {
        self.calls = self.calls.saturating_add(1);
    }

    // A write that is torn: it takes the front alone.
    fn tear(&mut self, front: &[u8]) -> Failed
        ensures bytes { (self.new.bytes ≡ self.old.bytes)
            ⊎ (self.new.bytes ≡ self.old.bytes ++ front.now) }
        ensures exact { length self.old.bytes + length front.now ≤ self.old.room
            → self.new.bytes ≡ self.old.bytes ++ front.now }
        ensures none { front.now ≡ [] → self.new.bytes ≡ self.old.bytes }
        ensures later { self.old.faults ≤ self.new.faults }
        ensures rose { Rose self.old.faults self.new.faults }
        ensures same { self.new ≡ record self.old {
          bytes = self.new.bytes;
          faults = self.new.faults;
          room = self.new.room;
        } }
    {
        let _ = take_bytes(&mut self.bytes, &mut self.faults, front);
        self.faults = self.faults.saturating_add(1);
        Failed
    }
}

impl Sink for MemSink {
    ghost taken = { λ s. Some s.bytes };

    ghost faults = { λ s. s.faults };

    fn write(&mut self, piece: &[u8]) -> Result<(), Failed>
        ensures whole { OnOk result (self.new.bytes ≡ self.old.bytes ++ piece.now) }
        ensures torn { OnErr result
            (AppendsPrefix (Some self.old.bytes) (Some self.new.bytes) piece.now) }
        ensures cause { HasCause self.old.faults self.new.faults result }
        ensures fake { IsFakeWrite (sink_fails self.old) self.old.torn
            (sink_takes self.old piece.now) piece.now self.old.room self.old.bytes self.new.bytes
            result }
        ensures fails { (self.new.fails ≡ self.old.fails) × (self.new.torn ≡ self.old.torn) }
        ensures calls { self.new.calls ≡ next_count self.old.calls }
        ensures unharmed { OnOk result (self.new.faults ≡ self.old.faults) }
    {
        if let Some(front) = torn_front(&self.fails, &self.torn, self.calls, self.calls, piece) {
            self.count_call();
            return Err(self.tear(front));
        }
        self.count_call();
        take_bytes(&mut self.bytes, &mut self.faults, piece)
    }
}
