//! The events that were recorded so far.

ghost use Rattle.std.specs.Prelude.{◌≡◌, ◌+◌, ◌^◌, ◌<◌, [], ◌∷◌, ◌++◌, length, OnOk};
ghost use Rattle.session_script.specs.Line.{line_text};

use session_script::{Event, push_line};
use std::alloc::{AllocError, Global};

/// Events, and how many bytes their lines have.
#[derive(Drop)]
pub(crate) struct Tape {
    pub(crate) events: Vec<Event>,
    pub(crate) size: u64,
}

impl Tape {
    /// No events yet.
    pub(crate) fn new(alloc: Global) -> Tape
        ensures events { result.events.items ≡ [] }
        ensures size { result.size ≡ 0 }
    {
        Tape {
            events: Vec::new(alloc),
            size: 0,
        }
    }

    /// One event more.
    pub(crate) fn push(&mut self, event: Event) -> Result<(), AllocError>
        requires room { self.old.size < 2 ^ 62 }
        ensures events { OnOk result (self.new.events.items ≡ self.old.events.items ++ event ∷ []) }
        ensures size { OnOk result
            (self.new.size ≡ self.old.size + length (line_text event ++ 10 ∷ [])) }
    {
        let mut line = Vec::new(*self.events.allocator());
        push_line(&mut line, &event)?;
        self.events.push(event)?;
        self.size += line.len() as u64;
        Ok(())
    }
}
