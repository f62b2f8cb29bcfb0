//! A run that is cleared: greetings count from there on.

ghost use Rattle.std.specs.Prelude.{◌≡◌, List, IfNone, IfSome};
ghost use Rattle.cast_config.specs.declared.config.Config.{Config as ConfigValue};
ghost use Rattle.session_model.specs.Run.{Histories};
ghost use Rattle.session_script.specs.declared.Event.{Event as EventValue};
ghost use Rattle.caster_replay.specs.Kept.{StandsFor, lives_of, seen_of};
ghost use Rattle.caster_warm.specs.Places.{WasClearedAt, greeting_since};

use crate::place::{GreetingPlace, clear_all};
use caster_replay::Run;
use rtcm_frame::Frame;
use std::alloc::Global;

/// A run over a station for each mountpoint.
pub(crate) type WarmRun = Run<GreetingPlace>;

/// From now on nobody joined anywhere, and nothing else changes.
pub(crate) fn clear(alloc: Global, run: &mut WarmRun)
    ensures stands { (c : ConfigValue) (script : List EventValue)
        → StandsFor c script run.old → StandsFor c script run.new }
    ensures lives { lives_of run.new ≡ lives_of run.old }
    ensures cleared { WasClearedAt (seen_of run.old) run.new }
{
    let mut places = run.replace_rings(Vec::new(alloc));
    clear_all(&mut places);
    run.replace_rings(places);
}

/// The frames that the last one was greeted by who joined this mountpoint since the run was
/// cleared, if somebody did.
pub(crate) fn kept_greeting(run: &WarmRun, mount: u32) -> Option<&[Frame]>
    ensures none { (old : Histories) → WasClearedAt old run.now
        → IfNone result (greeting_since old run.now mount ≡ None) }
    ensures some { (old : Histories) → WasClearedAt old run.now
        → IfSome result (λ frames. greeting_since old run.now mount ≡ Some frames.now) }
{
    match run.rings().get(mount as usize) {
        Some(place) => place.greeting(),
        None => None,
    }
}
