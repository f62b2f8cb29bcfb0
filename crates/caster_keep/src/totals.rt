//! What is told once all keepers have stopped.

ghost use Rattle.std.specs.Prelude.{◌≡◌, ◌≤◌, ℕ, List, [], ◌++◌, length, map, vec_capacity};
ghost use Rattle.session_model.specs.Text.{closed_text};
ghost use Rattle.session_text.specs.Room.{closed_room};
ghost use Rattle.caster_press.specs.declared.press.OutputStart.{OutputStart};
ghost use Rattle.caster_press.specs.Written.{IsWritten};
ghost use Rattle.caster_keep.specs.Keeping.{first_stop};
ghost use Rattle.caster_keep.specs.Together.{stop_at};

use crate::keeper::Keeper;
use crate::stop::Stop;
use cast_config::Config;
use cast_io::Sink;
use caster_press::Closed as Pressed;
use session_core::Closed;
use session_text::closed_text;

/// The stop of the first of these keepers that stopped before its gate was over; `Over` where none
/// did.
pub(crate) fn first_stop<G>(keepers: &[Keeper<G>]) -> Stop
    ensures { result ≡ first_stop (map stop_at keepers.now) }
{
    for keeper in keepers {
        match keeper.stop {
            None | Some(Stop::Over) => {}
            Some(stop) => return stop,
        }
    }
    Stop::Over
}

/// Writes the totals behind the lines, unless a write failed before. Gives the output back, and
/// says whether a write to it failed.
pub(crate) fn write_totals<O: Sink>(
    config: &Config,
    closed: &Closed,
    mut text: Vec<u8>,
    pressed: Pressed<O>,
) -> (O, bool)
    requires mounts { length closed.now.mounts ≡ length config.now.mount }
    requires accounts { length closed.now.accounts ≡ length config.now.account }
    requires empty { text.items ≡ [] }
    requires room { closed_room config.now ≤ vec_capacity text }
    ensures { (start : OutputStart) (lines : List ℕ)
        → IsWritten pressed.is_torn start (O.taken pressed.sink) (O.faults pressed.sink) lines
        → IsWritten result.1 start (O.taken result.0) (O.faults result.0)
        (lines ++ closed_text config.now closed.now) }
{
    closed_text(config, closed, &mut text).unwrap();
    let Pressed { mut sink, is_torn } = pressed;
    if is_torn {
        return (sink, true);
    }
    let is_torn = sink.write(&text).is_err();
    (sink, is_torn)
}
