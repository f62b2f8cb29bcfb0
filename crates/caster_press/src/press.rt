ghost use Rattle.std.specs.Prelude.{◌≡◌, []};
ghost use Rattle.turn_log.specs.History.{History};
ghost use Rattle.caster_press.specs.declared.line.Line.{Line as LineValue};

use crate::line::Line;
use cast_io::Sink;
use std::collections::LinkedList;
use std::snapshot::Snapshot;
use turn_log::Played;

/// What an output told before the first line. No value of this type is ever made: clauses alone
/// speak of it.
#[derive(Drop)]
pub struct OutputStart {
    /// The bytes that it had taken, where it tells them.
    pub taken: Option<LinkedList<u8>>,
    /// How often it had failed.
    pub faults: u64,
}

/// An output on which callers take turns, each with a line. After the first write that failed
/// nothing more is written.
#[derive(Drop)]
pub struct Press<O: Sink> {
    sink: O,
    start: Snapshot<O>,
    is_torn: bool,
}

impl<O: Sink> Press<O> {
    ghost use Rattle.caster_press.specs.Lines.{text_in};
    ghost use Rattle.caster_press.specs.Written.{IsWritten};

    /// A press that writes to this output, and has written no line yet.
    pub fn new(sink: O) -> Press<O>
        ensures stands { ⟦<Press<O> as Played>⟧.stands result [] }
        ensures taken { (⟦<Press<O> as Played>⟧.shape result).taken ≡ O.taken sink }
        ensures faults { (⟦<Press<O> as Played>⟧.shape result).faults ≡ O.faults sink }
    {
        let start = Snapshot::of(&sink);
        Press {
            sink,
            start,
            is_torn: false,
        }
    }

    /// Gives the output back, and says whether a write to it failed.
    pub fn into_parts(self) -> (O, bool)
        ensures { (h : History LineValue) → ⟦<Press<O> as Played>⟧.stands self h
            → IsWritten result.1 (⟦<Press<O> as Played>⟧.shape self) (O.taken result.0)
            (O.faults result.0) (text_in h) }
    {
        let Press {
            sink,
            start: _,
            is_torn,
        } = self;
        (sink, is_torn)
    }
}

impl<O: Sink> Played for Press<O> {
    ghost use Rattle.std.specs.Prelude.{true, refl};
    ghost use Rattle.caster_press.specs.Lines.{text_in};
    ghost use Rattle.caster_press.specs.Written.{IsWritten, written_once};

    type Call = Line;

    type Answer = ();

    type Room = ();

    type Shape = OutputStart;

    ghost shape = { λ press. record {
      taken = O.taken press.start.value;
      faults = O.faults press.start.value;
    } };

    ghost stands = { λ press h. IsWritten press.is_torn
        (record { taken = O.taken press.start.value; faults = O.faults press.start.value })
        (O.taken press.sink) (O.faults press.sink) (text_in h) };

    ghost stands_once = { λ press h. written_once press.is_torn
        (record { taken = O.taken press.start.value; faults = O.faults press.start.value })
        (O.taken press.sink) (O.faults press.sink) (text_in h) };

    ghost fits = { λ _ h me line. true };

    ghost answer = { λ _ h me line. tt };

    ghost filled = { λ _ h me line room. room };

    fn play(&mut self, me: u32, line: Line, room: &mut ()) {
        if self.is_torn {
            return;
        }
        self.is_torn = self.sink.write(line.bytes()).is_err();
    }

    ghost still_fits = { λ _ h me by line other fits apart fitting. refl };
}
