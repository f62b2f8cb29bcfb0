//! Where it is asked how a caster stands that keeps serving: the input by which it is stopped.
ghost use Rattle.std.specs.Prelude.{◌≡◌, [], map};
ghost use Rattle.cast_console.specs.Consoles.{HasHeard};
ghost use Rattle.caster_net.specs.Consoles.{console_told, heard_behind, new_console, next_line};

use crate::halt::Halt;
use crate::waiting::MAX_KEPT_REST;
use cast_console::{Console, Lodge, Wanted};
use cast_io::Journal;
use std::marker::Model;
use std::sync::atomic::Ordering;
use std::thread;
use std::time::Duration;

// How long the threads of all others may take to begin, in milliseconds.
const LONGEST_BEGIN: u64 = 3000;

/// The lines `status` of the input of a stop, one after the other, until the stop is asked for. It
/// is over too where nobody serves yet at some gate after three seconds: a thread was lacking for
/// that, and the one that waits here is given up for it. For contracts alone it has a record of how
/// many workers it told as busy.
#[derive(Drop)]
pub struct InputConsole<'a> {
    rt: &'a HostRuntime,
    halt: &'a Halt,
    // How many of the lines were heard.
    heard: u64,
    // How often nothing was wanted.
    rests: u64,
    busy: Journal<u32>,
    is_over: bool,
}

impl<'a> Model for InputConsole<'a> {
    ghost use Rattle.caster_net.specs.Consoles.{ConsoleState};

    ghost Value = { ConsoleState };

    ghost view = { λ c. record {
      told = record { busy = c.busy; over = c.is_over };
      heard = c.heard;
    } };
}

impl<'a> InputConsole<'a> {
    // A console at which nothing was heard.
    fn new(rt: &'a HostRuntime, halt: &'a Halt) -> Self
        ensures { result ≡ new_console }
    {
        InputConsole {
            rt,
            halt,
            heard: 0,
            rests: 0,
            busy: Journal::new(),
            is_over: false,
        }
    }

    // Whether the thread that waits here is needed at a gate.
    // Untied: whether the porter is given up.
    fn is_in_the_way(&self) -> bool {
        self.rests > LONGEST_BEGIN / MAX_KEPT_REST && self.halt.unasked.load(Ordering::SeqCst) > 0
    }

    // One line more was heard, while so many workers are busy.
    fn tell(&mut self, busy: u32) -> Wanted
        ensures status { result ≡ Wanted.Status busy }
        ensures heard { HasHeard result self.old.told self.new.told }
        ensures once { self.new.heard ≡ next_line self.old.heard }
    {
        self.heard = self.heard.wrapping_add(1);
        self.busy.add(&busy);
        Wanted::Status { busy }
    }
}

impl Console for InputConsole<'_> {
    ghost told = { console_told };

    // Untied: when the porter is asked, and how many workers are busy.
    fn hear(&mut self) -> Wanted
        ensures heard { HasHeard result self.old.told self.new.told }
        ensures once { self.new.heard ≡ heard_behind result self.old.heard }
    {
        let halt = self.halt;
        if halt.look(self.rt).is_some() || self.is_in_the_way() {
            self.is_over = true;
            return Wanted::Over;
        }
        if halt.statuses.load(Ordering::SeqCst) == self.heard {
            return Wanted::Nothing;
        }
        self.tell(halt.busy.load(Ordering::SeqCst))
    }

    fn rest(&mut self)
        ensures { self.new ≡ self.old }
    {
        self.rests = self.rests.saturating_add(1);
        thread::sleep(self.rt, Duration::from_millis(MAX_KEPT_REST));
    }
}

/// The consoles of a stop. For contracts alone it has a record of those that came back.
#[derive(Drop)]
pub struct InputLodge<'a> {
    rt: &'a HostRuntime,
    halt: &'a Halt,
    back: Journal<InputConsole<'a>>,
}

impl<'a> InputLodge<'a> {
    /// Those at the input of this stop. None came back.
    pub fn new(rt: &'a HostRuntime, halt: &'a Halt) -> Self
        ensures { result.back ≡ [] }
    {
        InputLodge {
            rt,
            halt,
            back: Journal::new(),
        }
    }
}

impl<'a> Lodge for InputLodge<'a> {
    type Console = InputConsole<'a>;

    ghost back = { λ lodge. map console_told lodge.back };

    fn console(&mut self) -> InputConsole<'a> {
        InputConsole::new(self.rt, self.halt)
    }

    fn take_console(&mut self, console: InputConsole<'a>) {
        self.back.add(&console);
    }
}
