//! A yard of two gates, at which one timed link arrives each.

ghost use Rattle.std.specs.Prelude.{◌≡◌};
ghost use Rattle.test_timed_io.specs.Untold.{counted_street, counted_yard};

use crate::link::TimedLink;
use crate::street::TimedDoor;
use cast_io::{Arrived, Door, Gate, MemSink, Origin, PeerAddr, Sink, Street, StreetFault, Yard};
use std::alloc::Global;
use std::time::Clock;

/// A gate at which one link arrives. It is over then.
#[derive(Drop)]
pub struct TimedGate<'a, R: Clock> {
    door: TimedDoor<'a, R>,
    peer: PeerAddr,
    origin: Origin,
    is_over: bool,
}

/// A yard that opens two such gates at once and makes one place for lines in memory. It dials
/// nobody, and opens no door.
#[derive(Drop)]
pub struct TimedYard<'a, R: Clock> {
    alloc: Global,
    doors: Option<(TimedDoor<'a, R>, TimedDoor<'a, R>)>,
    back: Vec<TimedGate<'a, R>>,
    notes: Option<MemSink>,
    link_faults: u64,
    note_faults: u64,
}

impl<'a, R: Clock> TimedGate<'a, R> {
    ghost use Rattle.cast_io.specs.declared.yard_asked.YardAsked.TheVariants as asked;

    // One of so many gates at this address, where the link of this door arrives.
    fn at_door(door: TimedDoor<'a, R>, addr: &str, gates: u32, quiet: u32) -> Self
        ensures { result.origin ≡ asked.OpenGates addr.now gates quiet }
    {
        TimedGate {
            door,
            peer: PeerAddr::unknown(),
            origin: Origin::of_open_gates(addr, gates, quiet),
            is_over: false,
        }
    }

    /// The link, where it came back.
    pub fn back(&self) -> Option<&TimedLink<'a, R>> {
        self.door.back()
    }
}

impl<'a, R: Clock> Door for TimedGate<'a, R> {
    type Link = TimedLink<'a, R>;

    ghost told = { λ gate. ⟦<TimedDoor<'a, R> as Door>⟧.told gate.door };

    fn accept(&mut self) -> Arrived<TimedLink<'a, R>> {
        self.door.accept()
    }

    fn rest(&mut self) {}

    fn hang_up(&mut self, link: TimedLink<'a, R>) {
        self.door.hang_up(link);
    }
}

impl<'a, R: Clock> Gate for TimedGate<'a, R> {
    ghost over = { λ gate. gate.is_over };

    ghost peer = { λ gate. gate.peer };

    ghost origin = { λ gate. gate.origin };

    fn is_over(&mut self) -> bool {
        self.is_over = self.door.is_used_up();
        self.is_over
    }

    fn peer(&self) -> &PeerAddr {
        &self.peer
    }
}

impl<'a, R: Clock> TimedYard<'a, R> {
    /// A yard of gates at which the links of these doors arrive, that of the first worker first.
    pub fn new(alloc: Global, first: TimedDoor<'a, R>, second: TimedDoor<'a, R>) -> Self {
        TimedYard {
            alloc,
            doors: Some((first, second)),
            back: Vec::new(alloc),
            notes: None,
            link_faults: 0,
            note_faults: 0,
        }
    }

    /// The gates that were shut, in order.
    pub fn back(&self) -> &[TimedGate<'a, R>] {
        &self.back
    }

    /// The text that was written, once the place for lines came back.
    pub fn text(&self) -> &[u8] {
        match &self.notes {
            Some(notes) => notes.bytes(),
            None => b"",
        }
    }
}

impl<'a, R: Clock> Street for TimedYard<'a, R> {
    type Link = TimedLink<'a, R>;

    type Door = TimedDoor<'a, R>;

    ghost told = { λ yard. counted_street yard.link_faults };

    fn open(&mut self, _addr: &str, _doors: u32) -> Result<Vec<TimedDoor<'a, R>>, StreetFault> {
        Err(StreetFault::Memory)
    }

    fn dial(&mut self, _addr: &str) -> Result<TimedLink<'a, R>, StreetFault> {
        Err(StreetFault::Memory)
    }

    fn hang_up(&mut self, link: TimedLink<'a, R>) {
        if link.faults() > 0 {
            self.link_faults = self.link_faults.saturating_add(1);
        }
    }

    fn shut(&mut self, _door: TimedDoor<'a, R>) {}
}

impl<'a, R: Clock> Yard for TimedYard<'a, R> {
    type Gate = TimedGate<'a, R>;

    type Notes = MemSink;

    ghost kept = { λ yard. counted_yard yard.note_faults };

    fn open_gates(
        &mut self,
        addr: &str,
        gates: u32,
        quiet: u32,
    ) -> Result<Vec<TimedGate<'a, R>>, StreetFault> {
        let (2, Some((first, second))) = (gates, self.doors.take()) else {
            return Err(StreetFault::Memory);
        };
        let opened = [
            TimedGate::at_door(first, addr, gates, quiet),
            TimedGate::at_door(second, addr, gates, quiet),
        ];
        match Vec::from_array(self.alloc, opened) {
            Ok(opened) => Ok(opened),
            Err(_) => Err(StreetFault::Memory),
        }
    }

    fn reach(&mut self, _addr: &str, _quiet: u32) -> Result<TimedGate<'a, R>, StreetFault> {
        Err(StreetFault::Memory)
    }

    fn notes(&mut self) -> Result<MemSink, StreetFault> {
        Ok(MemSink::new(self.alloc, Vec::new(self.alloc)))
    }

    fn shut_gate(&mut self, gate: TimedGate<'a, R>) {
        let _ = self.back.push(gate);
    }

    fn take_notes(&mut self, notes: MemSink) {
        if notes.faults() > 0 {
            self.note_faults = self.note_faults.saturating_add(1);
        }
        self.notes = Some(notes);
    }
}
