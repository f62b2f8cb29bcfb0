//! A console whose calls set a flag, and wait for one.

ghost use Rattle.std.specs.Prelude.{[], false, map};
ghost use Rattle.cast_console.specs.Consoles.{HasHeard};
ghost use Rattle.test_timed_io.specs.Untold.{console_told};

use crate::link::{Stop, stop_at};
use cast_console::{Console, Lodge, Wanted};
use cast_io::Journal;
use std::marker::Model;
use std::sync::atomic::AtomicBool;
use std::time::Clock;

/// A console at which it is wanted once how things stand, with so many workers busy, and then
/// nothing any more. Its first call stops at the first of these stops, and its second, once that is
/// answered, at the second.
#[derive(Drop)]
pub struct TimedConsole<'a, R: Clock> {
    rt: &'a R,
    flags: &'a [AtomicBool],
    stops: [Stop; 2],
    wanted: u32,
    is_asked: bool,
    busy: Journal<u32>,
    is_over: bool,
}

impl<'a, R: Clock> Console for TimedConsole<'a, R> {
    ghost told = { λ console. console_told console.busy console.is_over };

    fn hear(&mut self) -> Wanted
        ensures { HasHeard result (console_told self.old.busy self.old.is_over)
            (console_told self.new.busy self.new.is_over) }
    {
        let call = if self.is_asked { 2 } else { 1 };
        let _ = stop_at(self.rt, self.flags, &self.stops, call);
        if self.is_asked {
            self.is_over = true;
            return Wanted::Over;
        }
        self.is_asked = true;
        let busy = self.wanted;
        self.busy.add(&busy);
        Wanted::Status { busy }
    }

    fn rest(&mut self) {}
}

/// A lodge that gives such consoles.
#[derive(Drop)]
pub struct TimedLodge<'a, R: Clock> {
    rt: &'a R,
    flags: &'a [AtomicBool],
    stops: [Stop; 2],
    wanted: u32,
    back: Journal<TimedConsole<'a, R>>,
}

impl<'a, R: Clock> TimedLodge<'a, R> {
    /// A lodge whose consoles have these stops, and tell so many workers as busy.
    pub fn new(rt: &'a R, flags: &'a [AtomicBool], stops: [Stop; 2], wanted: u32) -> Self {
        TimedLodge {
            rt,
            flags,
            stops,
            wanted,
            back: Journal::new(),
        }
    }
}

impl<'a, R: Clock> Lodge for TimedLodge<'a, R> {
    type Console = TimedConsole<'a, R>;

    ghost back = { λ lodge. map (λ console. console_told console.busy console.is_over) lodge.back };

    fn console(&mut self) -> TimedConsole<'a, R> {
        TimedConsole {
            rt: self.rt,
            flags: self.flags,
            stops: self.stops,
            wanted: self.wanted,
            is_asked: false,
            busy: Journal::new(),
            is_over: false,
        }
    }

    fn take_console(&mut self, console: TimedConsole<'a, R>) {
        self.back.add(&console);
    }
}
