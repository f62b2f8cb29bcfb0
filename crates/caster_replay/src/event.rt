//! What an event of a script asks for.

ghost use Rattle.caster_replay.specs.Scripts.{Asks};

use crate::opening::Way;
use crate::run_connection::Act;
use session_core::{Bare, Last};
use session_script::Event;

/// What an event asks of a connection.
#[derive(Clone, Copy)]
pub(crate) enum Request<'a> {
    /// The connection opens this way.
    Open(Way<'a>),
    /// This happens to the open connection.
    Apply(Act<'a>),
}

/// The number of the event's connection, and what is asked of that.
pub(crate) fn request_of(event: &Event) -> (u32, Request<'_>)
    ensures { Asks event.now result.0 result.1 }
{
    match event {
        Event::Open(number) => (*number, Request::Open(Way::Head)),
        Event::Relay(number, relay) => (*number, Request::Open(Way::Relay(*relay))),
        Event::Source(number, mount) => { (*number, Request::Open(Way::Bare(Bare::Source, mount))) }
        Event::Rover(number, mount) => { (*number, Request::Open(Way::Bare(Bare::Rover, mount))) }
        Event::In(number, bytes) => (*number, Request::Apply(Act::In(bytes.bytes()))),
        Event::Turn(number, budget) => (*number, Request::Apply(Act::Turn(*budget))),
        Event::Break(number) => (*number, Request::Apply(Act::Close(Last::ReadFault))),
        Event::End(number) => (*number, Request::Apply(Act::Close(Last::End))),
    }
}
