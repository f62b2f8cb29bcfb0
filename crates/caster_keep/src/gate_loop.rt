//! A keeper serves the links that its gate gives until it stops.

ghost use Rattle.std.specs.Prelude.{◌≡◌, ℕ, IsTrue, List};
ghost use Rattle.session_core.specs.Setups.{IsSetUp};
ghost use Rattle.caster_accounts.specs.Sums.{nothing};
ghost use Rattle.caster_places.specs.Known.{Fit, StayKnown};
ghost use Rattle.caster_link.specs.Wear.{wear_of};
ghost use Rattle.caster_press.specs.Places.{IsSamePlace};
ghost use Rattle.keep_lines.specs.Puts.{HasTold};
ghost use Rattle.caster_keep.specs.Links.{Kept};
ghost use Rattle.caster_keep.specs.Keepers.{KeptOn};
ghost use Rattle.caster_keep.specs.Stations.{IsRoleOf};

use crate::keeper::Keeper;
use crate::one_link::keep_link;
use crate::stop::Stop;
use cast_io::{Arrived, Door, Gate};
use caster_accounts::Book;
use caster_places::AllPlaces;
use caster_press::AtPress;
use mount_ring::Ring;
use session_core::{Places, Setup};
use std::sync::Wait;
use turn_log::Turns;

/// Keeps the links that the gate gives, one after the other, until the gate is over or fails. The
/// gate is asked whether it is over before each accept, and where it is, no accept follows. The
/// lines are put as the caller `by`.
pub(crate) fn keep_gate<T: Turns<Ring>, B: Turns<Book>, G: Gate, P: AtPress, R: Wait>(
    rt: &R,
    setup: &Setup,
    places: &mut Places<T, B>,
    keeper: &mut Keeper<G>,
    place: &mut P,
    by: u32,
) -> Stop
    requires ready { IsSetUp setup.now }
    requires fit { Fit setup.now.config.now setup.now.me
        (⟦<Places<T, B> as AllPlaces>⟧.known places.old) }
    requires role { IsRoleOf setup.now.config.now keeper.old.role }
    requires none { keeper.old.count ≡ 0 }
    requires nothing { keeper.old.tally ≡ nothing }
    requires speaks { IsTrue ((P.told place.old).speaks by) }
    ensures stay { StayKnown (⟦<Places<T, B> as AllPlaces>⟧.known places.old)
        (⟦<Places<T, B> as AllPlaces>⟧.known places.new)
        (⟦<Places<T, B> as AllPlaces>⟧.worn places.old)
        (⟦<Places<T, B> as AllPlaces>⟧.worn places.new) }
    ensures role { keeper.new.role ≡ keeper.old.role }
    ensures same { IsSamePlace (P.told place.old) (P.told place.new) }
    ensures kept { (links : List Kept) × (texts : List (List ℕ))
        × HasTold by texts (P.told place.old).seen (P.told place.new).seen
        × KeptOn G.told G.over G.peer setup.now.config.now keeper.old.role setup.now.me
        (wear_of (⟦<Places<T, B> as AllPlaces>⟧.known places.new)
        (⟦<Places<T, B> as AllPlaces>⟧.worn places.new))
        (⟦<Places<T, B> as AllPlaces>⟧.seen places.old)
        (⟦<Places<T, B> as AllPlaces>⟧.seen places.new) keeper.old.gate keeper.new.gate
        keeper.old.tally keeper.new.tally links texts result }
{
    for _ in rt.forever() {
        if keeper.gate.is_over() {
            return Stop::Over;
        }
        match keeper.gate.accept() {
            Arrived::Link(link) => keep_link(rt, setup, places, keeper, link, place, by),
            Arrived::Idle => keeper.gate.rest(),
            Arrived::Failed => return Stop::Failed,
        }
    }
    unreachable!()
}
