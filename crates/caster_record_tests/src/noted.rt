//! A door in memory that notes its calls.

ghost use Rattle.std.specs.Prelude.{◌≡◌};
ghost use Rattle.cast_io.specs.FakeDoors.{door_told};

use cast_io::{Arrived, Door, MemDoor, MemLink};
use std::alloc::Global;

/// A door that answers as one in memory, and notes its accepts and rests, each as a letter: `l`
/// where a link came, `n` where nobody did, `f` where the accept failed, and `r` for a rest.
#[derive(Drop)]
pub(crate) struct NotedDoor {
    door: MemDoor,
    calls: Vec<u8>,
}

impl NotedDoor {
    /// A door that answers as this one.
    pub(crate) fn new(alloc: Global, door: MemDoor) -> Self {
        NotedDoor {
            door,
            calls: Vec::new(alloc),
        }
    }

    /// Its calls so far.
    pub(crate) fn calls(&self) -> &[u8] {
        &self.calls
    }

    // Notes a call.
    fn note(&mut self, call: u8)
        ensures { self.new.door ≡ self.old.door }
    {
        let _ = self.calls.push(call);
    }
}

/// The letter of what came.
fn letter_of(came: &Arrived<MemLink>) -> u8 {
    match came {
        Arrived::Link(_) => b'l',
        Arrived::Idle => b'n',
        Arrived::Failed => b'f',
    }
}

impl Door for NotedDoor {
    type Link = MemLink;

    ghost told = { λ noted. door_told noted.door };

    fn accept(&mut self) -> Arrived<MemLink> {
        let came = self.door.accept();
        self.note(letter_of(&came));
        came
    }

    fn rest(&mut self) {
        self.note(b'r');
    }

    fn hang_up(&mut self, link: MemLink) {
        self.door.hang_up(link);
    }
}
