//! A run that is played event by event.

ghost use Rattle.std.specs.Prelude.{List};
ghost use Rattle.cast_config.specs.declared.config.Config.{Config as ConfigValue};
ghost use Rattle.session_script.specs.declared.Event.{Event as EventValue};
ghost use Rattle.caster_replay.specs.Kept.{StandsFor};

use cast_config::Config;
use caster_replay::{RingPlace, Run, play_script};
use session_script::{ScriptKind, parse};
use std::alloc::Global;
use std::test::Fail;

/// A source, a rover, and a frame that the rover did not read yet.
const SO_FAR: &[u8] = b"source 1 A\nrover 2 A\nin 1 d300034cb0280e65e1\nstop\n";

/// The same, and the rover reads the frame, and then the source ends.
const LATER: &[u8] = b"source 1 A\nrover 2 A\nin 1 d300034cb0280e65e1\nturn 2 16\nend 1\nstop\n";

/// The frame.
const FRAME: &[u8] = b"\xD3\x00\x03\x4C\xB0\x28\x0E\x65\xE1";

/// Whether the connection of this number is behind and goes on, and whether it was sent this.
fn stands<P: RingPlace>(run: &Run<P>, number: u32, sent: &[u8]) -> [bool; 3]
    requires { (c : ConfigValue) × (script : List EventValue) × StandsFor c script run.now }
{
    let was_sent = run.sent(number) == sent;
    [run.is_behind(number), run.goes_on(number), was_sent]
}

/// The same after this script.
fn stands_after(alloc: Global, script: &[u8], number: u32, sent: &[u8]) -> Result<[bool; 3], Fail> {
    let config = Config::bare(alloc, 4)?;
    let events = parse(alloc, script, ScriptKind::Bare)?;
    let run = play_script(alloc, &config, &events)?;
    Ok(stands(&run, number, sent))
}

#[test]
fn a_rover_is_behind_until_it_took_its_turn(rt: HostRuntime) -> Result<(), Fail> {
    for (script, number, behind, going, sent) in [
        (SO_FAR, 1, false, true, b"".as_slice()),
        (SO_FAR, 2, true, true, b"".as_slice()),
        (SO_FAR, 3, false, false, b"".as_slice()),
        (LATER, 1, false, false, b"".as_slice()),
        (LATER, 2, false, true, FRAME),
        (LATER, 3, false, false, b"".as_slice()),
    ] {
        let [is_behind, goes_on, was_sent] = stands_after(rt.alloc(), script, number, sent)?;
        assert!(rt; is_behind == behind && goes_on == going);
        assert!(rt; was_sent);
    }
    Ok(())
}
