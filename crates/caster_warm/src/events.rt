//! What an event is about.

ghost use Rattle.std.specs.Prelude.{◌≡◌};
ghost use Rattle.caster_warm.specs.Numbers as numbers;

use session_script::Event;

/// The number of the connection that the event is about.
pub(crate) fn number_of(event: &Event) -> u32
    ensures { result ≡ numbers.number_of event.now }
{
    match event {
        Event::Source(number, _) => *number,
        Event::Rover(number, _) => *number,
        Event::Open(number) => *number,
        Event::Relay(number, _) => *number,
        Event::In(number, _) => *number,
        Event::Turn(number, _) => *number,
        Event::Break(number) => *number,
        Event::End(number) => *number,
    }
}

/// Whether bytes come in by the event.
pub(crate) fn brings_bytes(event: &Event) -> bool
    ensures { result ≡ numbers.brings_bytes event.now }
{
    match event {
        Event::In(_, _) => true,
        _ => false,
    }
}
