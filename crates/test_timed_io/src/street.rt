//! Doors at which one timed link arrives each, and a street of them.

ghost use Rattle.test_timed_io.specs.Untold.{counted_street, untold_door};

use crate::link::TimedLink;
use cast_io::{Arrived, Door, Street, StreetFault};
use std::alloc::Global;
use std::mem;
use std::time::Clock;

/// A door at which one link arrives.
#[derive(Drop)]
pub struct TimedDoor<'a, R: Clock> {
    left: Option<TimedLink<'a, R>>,
    back: Option<TimedLink<'a, R>>,
}

/// A street of such doors, which are all opened at once. It dials nobody.
#[derive(Drop)]
pub struct TimedStreet<'a, R: Clock> {
    alloc: Global,
    doors: Vec<TimedDoor<'a, R>>,
    back: Vec<TimedDoor<'a, R>>,
    link_faults: u64,
}

impl<'a, R: Clock> TimedDoor<'a, R> {
    /// A door at which this link arrives.
    pub fn new(link: TimedLink<'a, R>) -> Self {
        TimedDoor {
            left: Some(link),
            back: None,
        }
    }

    // Its link was given.
    pub(crate) fn is_used_up(&self) -> bool {
        self.left.is_none()
    }

    /// The link, where it came back.
    pub fn back(&self) -> Option<&TimedLink<'a, R>> {
        self.back.as_ref()
    }
}

impl<'a, R: Clock> Door for TimedDoor<'a, R> {
    type Link = TimedLink<'a, R>;

    ghost told = { λ door. untold_door };

    // A link that arrives has not failed yet.
    fn accept(&mut self) -> Arrived<TimedLink<'a, R>> {
        match self.left.take() {
            Some(mut link) => {
                link.begin();
                Arrived::Link(link)
            }
            None => Arrived::Idle,
        }
    }

    fn rest(&mut self) {}

    fn hang_up(&mut self, link: TimedLink<'a, R>) {
        self.back = Some(link);
    }
}

impl<'a, R: Clock> TimedStreet<'a, R> {
    /// A street of these doors.
    pub fn new(alloc: Global, doors: Vec<TimedDoor<'a, R>>) -> Self {
        TimedStreet {
            alloc,
            doors,
            back: Vec::new(alloc),
            link_faults: 0,
        }
    }

    /// The doors that were shut, in order.
    pub fn back(&self) -> &[TimedDoor<'a, R>] {
        &self.back
    }
}

impl<'a, R: Clock> Street for TimedStreet<'a, R> {
    type Link = TimedLink<'a, R>;

    type Door = TimedDoor<'a, R>;

    ghost told = { λ street. counted_street street.link_faults };

    fn open(&mut self, _addr: &str, doors: u32) -> Result<Vec<TimedDoor<'a, R>>, StreetFault> {
        if self.doors.len() != doors as usize {
            return Err(StreetFault::Memory);
        }
        Ok(mem::replace(&mut self.doors, Vec::new(self.alloc)))
    }

    fn dial(&mut self, _addr: &str) -> Result<TimedLink<'a, R>, StreetFault> {
        Err(StreetFault::Memory)
    }

    fn hang_up(&mut self, link: TimedLink<'a, R>) {
        if link.faults() > 0 {
            self.link_faults = self.link_faults.saturating_add(1);
        }
    }

    fn shut(&mut self, door: TimedDoor<'a, R>) {
        let _ = self.back.push(door);
    }
}
