//! Consoles in memory, at which is wanted what they are told to want.
ghost use Rattle.std.specs.Prelude.{◌≡◌, [], map, false};
ghost use Rattle.cast_console.specs.Fakes.{console_told};

use crate::console::Console;
use crate::lodge::Lodge;
use crate::wanted::Wanted;
use cast_io::Journal;
use std::alloc::Global;
use std::marker::Model;
use std::mem;

/// A console in memory.
#[derive(Drop)]
pub struct MemConsole {
    wanted: Vec<Wanted>,
    at: usize,
    busy: Journal<u32>,
    is_over: bool,
}

impl Model for MemConsole {
    ghost use Rattle.cast_console.specs.Fakes.{MemConsoleState};

    ghost Value = { MemConsoleState };

    ghost view = { λ c. record {
      wanted = c.wanted.items;
      at = c.at;
      busy = c.busy;
      over = c.is_over;
    } };
}

impl MemConsole {
    /// A console at which these are wanted, one behind the other, and then nothing any more.
    pub fn new(wanted: Vec<Wanted>) -> MemConsole
        ensures { result ≡ record { wanted = wanted.items; at = 0; busy = []; over = false } }
    {
        MemConsole {
            wanted,
            at: 0,
            busy: Journal::new(),
            is_over: false,
        }
    }

    // The next of what is wanted.
    fn next(&mut self) -> Wanted
        ensures { self.new ≡ record self.old { at = self.new.at } }
    {
        let Some(wanted) = self.wanted.as_slice().get(self.at) else {
            return Wanted::Over;
        };
        self.at += 1;
        *wanted
    }
}

impl Console for MemConsole {
    ghost use Rattle.cast_console.specs.Consoles.{HasHeard};

    ghost told = { console_told };

    fn hear(&mut self) -> Wanted
        ensures { HasHeard result (console_told self.old) (console_told self.new) }
    {
        let wanted = self.next();
        match wanted {
            Wanted::Status { busy } => self.busy.add(&busy),
            Wanted::Nothing => (),
            Wanted::Over => self.is_over = true,
        }
        wanted
    }

    fn rest(&mut self)
        ensures { self.new ≡ self.old }
    {}
}

/// A lodge in memory, which gives one console at which these are wanted. Each further one is over.
#[derive(Drop)]
pub struct MemLodge {
    alloc: Global,
    wanted: Vec<Wanted>,
    back: Journal<MemConsole>,
}

impl MemLodge {
    /// A lodge that gives a console at which these are wanted.
    pub fn new(alloc: Global, wanted: Vec<Wanted>) -> MemLodge
        ensures { result.back ≡ [] }
    {
        MemLodge {
            alloc,
            wanted,
            back: Journal::new(),
        }
    }
}

impl Lodge for MemLodge {
    type Console = MemConsole;

    ghost back = { λ lodge. map console_told lodge.back };

    fn console(&mut self) -> MemConsole {
        MemConsole::new(mem::replace(&mut self.wanted, Vec::new(self.alloc)))
    }

    fn take_console(&mut self, console: MemConsole) {
        self.back.add(&console);
    }
}
