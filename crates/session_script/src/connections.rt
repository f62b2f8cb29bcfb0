//! The connections that a script opened and closed so far.

ghost use Rattle.std.specs.Prelude.{◌≡◌, OnOk};
ghost use Rattle.session_script.specs.Script.{is_relay};

use crate::{Event, ScriptKind};
use std::alloc::{AllocError, Global};
use std::marker::Model;

/// The most connections that a script opens.
const MAX_CONNECTIONS: usize = 256;

/// The numbers of the connections that were opened, and of those that `break` or `end` closed.
#[derive(Drop)]
pub struct Connections {
    opened: Vec<u32>,
    closed: Vec<u32>,
}

impl Model for Connections {
    ghost use Rattle.session_script.specs.Numbers.{Numbers};

    ghost Value = { Numbers };

    ghost view = { λ c. record { opened = c.opened.items; closed = c.closed.items } };
}

impl Connections {
    ghost use Rattle.session_script.specs.Numbers.{Numbers, no_numbers, may_open, may_speak};
    ghost use Rattle.session_script.specs.Script.{may_follow, after_event};

    /// Nothing was opened yet.
    pub fn new(alloc: Global) -> Connections
        ensures { result ≡ no_numbers }
    {
        Connections {
            opened: Vec::new(alloc),
            closed: Vec::new(alloc),
        }
    }

    /// Whether the number is new, and fewer than 256 were opened.
    fn may_open(&self, k: u32) -> bool
        ensures { result ≡ may_open self.now k }
    {
        !self.opened.contains(&k) && self.opened.len() < MAX_CONNECTIONS
    }

    /// Whether the number was opened, and not closed since.
    fn may_speak(&self, k: u32) -> bool
        ensures { result ≡ may_speak self.now k }
    {
        self.opened.contains(&k) && !self.closed.contains(&k)
    }

    /// Whether the event may come now.
    pub fn may_follow(&self, kind: ScriptKind, event: &Event) -> bool
        ensures { result ≡ may_follow kind self.now event.now }
    {
        match event {
            Event::Source(k, _) | Event::Rover(k, _) | Event::Open(k) => self.may_open(*k),
            Event::Relay(k, n) => self.may_open(*k) && is_relay(kind, *n),
            Event::In(k, _) | Event::Turn(k, _) | Event::Break(k) | Event::End(k) => self.may_speak(
                *k,
            ),
        }
    }

    /// Takes note of the event.
    pub fn follow(&mut self, event: &Event) -> Result<(), AllocError>
        ensures { OnOk result (self.new ≡ after_event self.old event.now) }
    {
        match event {
            Event::Source(k, _) | Event::Rover(k, _) | Event::Open(k) | Event::Relay(k, _) => {
                self.opened.push(*k)?;
            }
            Event::Break(k) | Event::End(k) => self.closed.push(*k)?,
            Event::In(..) | Event::Turn(..) => {}
        }
        Ok(())
    }
}

/// Whether the relay with this number from 0 is one of the kind's.
fn is_relay(kind: ScriptKind, n: u32) -> bool
    ensures { result ≡ is_relay kind n }
{
    match kind {
        ScriptKind::Bare => true,
        ScriptKind::Replay { relays } => n < relays,
    }
}
