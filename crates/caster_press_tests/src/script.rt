//! A caller that puts lines of a list.
ghost use Rattle.std.specs.Prelude.{◌≡◌, [], take};
ghost use Rattle.caster_press_tests.specs.Scripts.{lines_put};

use caster_press::{AtPress, Line, Writer};
use std::sync::Wait;

/// The work of putting the lines of a list, in order.
#[derive(Drop)]
pub struct Script {
    lines: Vec<Line>,
    put: usize,
}

impl Script {
    /// The work of putting these lines, none of which was put.
    pub fn new(lines: Vec<Line>) -> Script
        ensures { lines_put result ≡ [] }
    {
        Script { lines, put: 0 }
    }

    /// How many lines were put.
    pub fn count(&self) -> usize
        ensures { take result self.now.lines.items ≡ lines_put self.now }
    {
        self.put
    }
}

impl Writer for Script {
    ghost use Rattle.std.specs.Prelude.{⊤};
    ghost use Rattle.caster_press_tests.specs.Scripts.{HasWritten};

    ghost ready = { λ script. ⊤ };

    ghost wrote = { HasWritten };

    fn write<P: AtPress, R: Wait>(&mut self, rt: &R, place: &mut P, me: u32) {
        while self.put < self.lines.len() {
            place.put(rt, me, &self.lines[self.put]);
            self.put += 1;
        }
    }
}
