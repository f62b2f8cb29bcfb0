//! The porter waits at the places of a caller.

ghost use Rattle.std.specs.Prelude.{◌≡◌, ℕ, IsTrue, List};
ghost use Rattle.cast_config.specs.Kept.{KeepsRules};
ghost use Rattle.caster_places.specs.Known.{Fit};
ghost use Rattle.caster_link.specs.Wear.{lacks_in};
ghost use Rattle.caster_press.specs.Places.{IsSamePlace};
ghost use Rattle.keep_lines.specs.Puts.{HasTold};
ghost use Rattle.keep_porter.specs.Porters.{Answer, HasAnswered};

use cast_config::Config;
use cast_console::Console;
use caster_accounts::Book;
use caster_places::AllPlaces;
use caster_press::AtPress;
use keep_porter::wait_at;
use mount_ring::Ring;
use session_core::Places;
use std::sync::Wait;
use turn_log::Turns;

/// Waits at the console until nothing is wanted there any more, and says how things stand each time
/// that this is wanted: as the caller `me` at the places, of which that at the book is not used, and
/// as the caller `by` at the press.
pub(crate) fn wait<T: Turns<Ring>, B: Turns<Book>, C: Console, P: AtPress, R: Wait>(
    rt: &R,
    config: &Config,
    places: &mut Places<T, B>,
    me: u32,
    console: &mut C,
    place: &mut P,
    by: u32,
)
    requires kept { (cap : ℕ) × KeepsRules cap config.now }
    requires fit { Fit config.now me (⟦<Places<T, B> as AllPlaces>⟧.known places.old) }
    requires speaks { IsTrue ((P.told place.old).speaks by) }
    ensures known { ⟦<Places<T, B> as AllPlaces>⟧.known places.new
        ≡ ⟦<Places<T, B> as AllPlaces>⟧.known places.old }
    ensures same { IsSamePlace (P.told place.old) (P.told place.new) }
    ensures waited { (given : List Answer) × (texts : List (List ℕ))
        × HasTold by texts (P.told place.old).seen (P.told place.new).seen
        × HasAnswered config.now me (lacks_in (⟦<Places<T, B> as AllPlaces>⟧.known places.new))
        (⟦<Places<T, B> as AllPlaces>⟧.worn places.new)
        (⟦<Places<T, B> as AllPlaces>⟧.seen places.old)
        (⟦<Places<T, B> as AllPlaces>⟧.seen places.new)
        (C.told console.old) (C.told console.new) given texts }
{
    let rings = places.rings.as_mut_slice();
    wait_at(rt, config, rings, me, console, place, by);
}
