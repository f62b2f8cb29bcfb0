//! Making a whole session.

ghost use Rattle.std.specs.Prelude.{◌≡◌, ◌*◌, ◌≤◌, ◌++◌, codes, sum_by, IfOk, OnOk};
ghost use Rattle.session_script.specs.declared.ScriptKind.TheVariants.{Bare};
ghost use Rattle.session_script.specs.Script.{IsSession, input_length};
ghost use Rattle.session_make.specs.Rounds.{round, after_round, opening, last_turns, events_of};

use crate::draws::Draws;
use crate::framing::{draw_payload, frame_of};
use cast_text::{MountName, Text};
use session_script::{Event, MAX_BUDGET};
use std::alloc::{AllocError, Global};

/// The number of the connection that sends the frames.
const SOURCE: u32 = 1;

/// The number of the first rover.
const FIRST_ROVER: u32 = 2;

/// The name of the only mountpoint, `A`.
fn mountpoint(alloc: Global) -> Result<MountName, AllocError>
    ensures { IfOk result (λ name. name ≡ codes "A") }
{
    MountName::of(alloc, b"A")
}

/// The source opens, and then so many rovers.
fn push_opening(alloc: Global, rovers: u32, events: &mut Vec<Event>) -> Result<(), AllocError>
    requires { rovers ≤ 64 }
    ensures { OnOk result (events.new.items ≡ events.old.items ++ opening rovers) }
{
    events.push(Event::Source(SOURCE, mountpoint(alloc)?))?;
    for i in 0..rovers {
        events.push(Event::Rover(FIRST_ROVER + i, mountpoint(alloc)?))?;
    }
    Ok(())
}

/// A whole frame arrives, and then one of so many rovers takes a turn.
fn push_round(
    alloc: Global,
    rovers: u32,
    draws: &mut Draws,
    events: &mut Vec<Event>,
) -> Result<(), AllocError>
    requires { (1 ≤ rovers) × (rovers ≤ 64) }
    ensures events { OnOk result
        (events.new.items ≡ events.old.items ++ round rovers draws.old.state) }
    ensures state { OnOk result (draws.new.state ≡ after_round draws.old.state) }
{
    let payload = draw_payload(alloc, draws)?;
    let frame = frame_of(alloc, &payload)?;
    events.push(Event::In(SOURCE, Text::of(alloc, &frame)?))?;
    let rover = FIRST_ROVER + draws.draw(rovers);
    let budget = 1 + draws.draw(MAX_BUDGET);
    events.push(Event::Turn(rover, budget))?;
    Ok(())
}

/// Each of so many rovers takes a turn with the largest budget.
fn push_last_turns(rovers: u32, events: &mut Vec<Event>) -> Result<(), AllocError>
    requires { rovers ≤ 64 }
    ensures { OnOk result (events.new.items ≡ events.old.items ++ last_turns rovers) }
{
    for i in 0..rovers {
        events.push(Event::Turn(FIRST_ROVER + i, MAX_BUDGET))?;
    }
    Ok(())
}

/// The session of this seed with so many frames, 1 to 10,000, and so many rovers, 1 to 64.
///
/// Connection 1 is the source and the next ones are the rovers. The events are the same on every
/// machine and in every run.
pub fn make(alloc: Global, seed: u64, frames: u32, rovers: u32) -> Result<Vec<Event>, AllocError>
    requires frames { (1 ≤ frames) × (frames ≤ 10000) }
    requires rovers { (1 ≤ rovers) × (rovers ≤ 64) }
    ensures events { IfOk result (λ events. events.items ≡ events_of seed frames rovers) }

    // What is made is a session of a bare script, and small.
    ensures session { IfOk result (λ events. IsSession Bare events.items) }
    ensures input { IfOk result (λ events. sum_by input_length events.items ≤ 106 * frames) }
{
    let mut events = Vec::new(alloc);
    push_opening(alloc, rovers, &mut events)?;
    let mut draws = Draws { state: seed };
    for _ in 0..frames {
        push_round(alloc, rovers, &mut draws, &mut events)?;
    }
    push_last_turns(rovers, &mut events)?;
    Ok(events)
}
