//! Where the lines of a caster go that serves until it is told to stop.
ghost use Rattle.std.specs.Prelude.{◌≡◌, [], Some, OnOk, OnErr};
ghost use Rattle.std.specs.Io.KnownBytes.{Appends};
ghost use Rattle.cast_io.specs.Causes.{HasCause};
ghost use Rattle.cast_io.specs.Pieces.{AppendsPrefix};
ghost use Rattle.caster_net.specs.Honest.{IsHonestWrite};

use crate::adapters::WriterSink;
use crate::halt::Halt;
use cast_io::{Failed, Sink};
use std::io::Write;
use std::marker::Model;

/// A sink that writes to a writer of std. A write that fails asks for the stop: nobody is to be
/// served of whom nothing can be told.
#[derive(Drop)]
pub struct NoteSink<'a, W> {
    halt: &'a Halt,
    sink: WriterSink<W>,
}

impl<'a, W> Model for NoteSink<'a, W> {
    ghost use Rattle.caster_net.specs.Told.{SinkState};

    ghost Value = { SinkState W };

    ghost view = { λ n. n.sink };
}

impl<'a, W: Write> NoteSink<'a, W> {
    /// A sink that was not written to yet.
    pub fn new(halt: &'a Halt, writer: W) -> Self
        ensures { result ≡ record { writer = writer; taken = []; faults = 0 } }
    {
        NoteSink {
            halt,
            sink: WriterSink::new(writer),
        }
    }
}

impl<W> NoteSink<'_, W> {
    /// How often a write failed.
    pub(crate) fn faults(&self) -> u64
        ensures { result ≡ self.now.faults }
    {
        self.sink.faults()
    }
}

impl<W: Write> Sink for NoteSink<'_, W> {
    ghost taken = { λ n. Some n.taken };

    ghost faults = { λ n. n.faults };

    fn write(&mut self, piece: &[u8]) -> Result<(), Failed>
        ensures whole { OnOk result
            (Appends (Some self.old.taken) (Some self.new.taken) piece.now) }
        ensures torn { OnErr result
            (AppendsPrefix (Some self.old.taken) (Some self.new.taken) piece.now) }
        ensures cause { HasCause self.old.faults self.new.faults result }
        ensures unharmed { OnOk result (self.new.faults ≡ self.old.faults) }

        // What it tells as taken is what the writer took.
        ensures honest { IsHonestWrite (W.contents self.old.writer) (W.contents self.new.writer)
            self.old.taken self.new.taken result piece.now }
    {
        let answer = self.sink.write(piece);
        if answer.is_err() {
            // Untied line: that a line which is not written asks for the stop.
            let _ = self.halt.asked.try_set(());
        }
        answer
    }
}
