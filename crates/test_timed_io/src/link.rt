//! A link whose calls set flags, and wait for flags that calls of other links set.

ghost use Rattle.std.specs.Prelude.{◌≡◌};
ghost use Rattle.test_timed_io.specs.Untold.{counted_link};

use cast_io::{Failed, Got, Link, MemLink};
use std::alloc::Global;
use std::sync::atomic::{AtomicBool, Ordering};
use std::thread;
use std::time::{Clock, Duration};

/// How often a call looks for a flag, with a millisecond between two looks, before it goes on
/// without it.
const LOOKS: u32 = 10_000;

/// What a link does within one of its calls, before the call is answered: it sets a flag and waits
/// for another one. A number without a flag stands for none.
#[derive(Clone, Copy)]
pub struct Stop {
    /// The number of the call, from 1 over reads and writes alike.
    pub call: u64,
    /// The flag that it sets.
    pub sets: usize,
    /// The flag that it waits for.
    pub awaits: usize,
}

/// A link that answers as one in memory, but for its stops. Of each call it notes a letter: `b`
/// where a read gave bytes, `i` where it gave nothing yet, `e` at the end, `f` where it failed, `w`
/// for a write and `r` for a rest.
#[derive(Drop)]
pub struct TimedLink<'a, R: Clock> {
    rt: &'a R,
    flags: &'a [AtomicBool],
    stops: Vec<Stop>,
    notes: Vec<u8>,
    calls: u64,
    faults: u64,
    met: bool,
    link: MemLink,
}

/// Does what stands for this call, and answers whether the flag came that it waited for.
pub(crate) fn stop_at<R: Clock>(rt: &R, flags: &[AtomicBool], stops: &[Stop], call: u64) -> bool {
    let Some(stop) = stops.iter().find(|stop| stop.call == call) else {
        return true;
    };
    if let Some(flag) = flags.get(stop.sets) {
        flag.store(true, Ordering::SeqCst);
    }
    let Some(flag) = flags.get(stop.awaits) else {
        return true;
    };
    for _ in 0..LOOKS {
        if flag.load(Ordering::SeqCst) {
            return true;
        }
        thread::sleep(rt, Duration::from_millis(1));
    }
    false
}

/// The letter of what was read.
fn letter_of(got: Got) -> u8 {
    match got {
        Got::Bytes(_) => b'b',
        Got::Idle => b'i',
        Got::End => b'e',
        Got::Failed => b'f',
    }
}

impl<'a, R: Clock> TimedLink<'a, R> {
    /// A link that answers as this one, with these stops.
    pub fn new(
        rt: &'a R,
        alloc: Global,
        flags: &'a [AtomicBool],
        stops: Vec<Stop>,
        link: MemLink,
    ) -> Self {
        TimedLink {
            rt,
            flags,
            stops,
            notes: Vec::new(alloc),
            calls: 0,
            faults: 0,
            met: true,
            link,
        }
    }

    /// Whether each flag came so far that it waited for.
    pub fn has_met(&self) -> bool {
        self.met
    }

    /// All bytes that it took so far.
    pub fn bytes(&self) -> &[u8] {
        self.link.bytes()
    }

    /// How often it failed so far.
    pub fn faults(&self) -> u64
        ensures { result ≡ self.now.faults }
    {
        self.faults
    }

    // It has not failed yet: it arrives.
    pub(crate) fn begin(&mut self)
        ensures { self.new.faults ≡ 0 }
    {
        self.faults = 0;
    }

    /// The letters of its calls so far, in order. Where memory lacked some are missing.
    pub fn notes(&self) -> &[u8] {
        &self.notes
    }

    // Notes a call.
    fn note(&mut self, letter: u8)
        ensures { self.new.faults ≡ self.old.faults }
    {
        let _ = self.notes.push(letter);
    }

    // Counts a call, and does what stands for it.
    fn stop(&mut self)
        ensures { self.new.faults ≡ self.old.faults }
    {
        self.calls = self.calls.saturating_add(1);
        if !stop_at(self.rt, self.flags, &self.stops, self.calls) {
            self.met = false;
        }
    }
}

impl<'a, R: Clock> Link for TimedLink<'a, R> {
    ghost told = { λ link. counted_link link.faults };

    fn read(&mut self, buf: &mut [u8]) -> Got {
        self.stop();
        let got = self.link.read(buf);
        self.note(letter_of(got));
        if let Got::Failed = got {
            self.faults = self.faults.saturating_add(1);
        }
        got
    }

    fn write(&mut self, piece: &[u8]) -> Result<(), Failed> {
        self.stop();
        self.note(b'w');
        let Ok(()) = self.link.write(piece) else {
            self.faults = self.faults.saturating_add(1);
            return Err(Failed);
        };
        Ok(())
    }

    fn rest(&mut self) {
        self.note(b'r');
    }

    fn set_mount(&mut self, _mount: u32) {}
}
