//! A link is served, and its receipt counted.

ghost use Rattle.std.specs.Prelude.{◌≡◌, ◌+◌, ◌^◌, ◌<◌, ℕ, length};
ghost use Rattle.cast_io.specs.Links.{IsNewLink};
ghost use Rattle.session_core.specs.Setups.{IsSetUp};
ghost use Rattle.caster_places.specs.Known.{Fit, StayKnown};
ghost use Rattle.caster_link.specs.Links.{opening_of};
ghost use Rattle.caster_link.specs.Wear.{wear_of};
ghost use Rattle.caster_serve.specs.Works.{IsWithin, LinkCounted, tallied};

use cast_io::Link;
use caster_accounts::{Book, Sum};
use caster_link::{Role, serve_places};
use caster_places::AllPlaces;
use mount_ring::Ring;
use session_core::{Places, Receipt, Setup};
use std::sync::Wait;
use turn_log::Turns;

/// What the rovers add up to that entered an account and left it: how many they were, how many
/// frames they were sent, and how many were overwritten before they could read them.
pub type Tally = Sum;

/// Counts a receipt, if it is one of a rover that entered an account and left it.
pub fn count_receipt(tally: &mut Tally, receipt: &Receipt)
    requires room { tally.old.sessions + 1 < 2 ^ 64 }
    requires within { IsWithin tally.old }
    ensures counted { tally.new ≡ tallied tally.old receipt.now }
    ensures within { IsWithin tally.new }
{
    if receipt.entered && receipt.settled {
        tally.sessions += 1;
        tally.sent += u128::from(receipt.sent);
        tally.overrun += u128::from(receipt.overrun);
    }
}

/// Serves a new link in this role, and counts its receipt, if it is one of a rover that entered an
/// account and left it.
pub(crate) fn serve_counted<T: Turns<Ring>, B: Turns<Book>, L: Link, R: Wait>(
    rt: &R,
    setup: &Setup,
    places: &mut Places<T, B>,
    role: Role,
    link: &mut L,
    tally: &mut Tally,
)
    requires ready { IsSetUp setup.now }
    requires fit { Fit setup.now.config.now setup.now.me
        (⟦<Places<T, B> as AllPlaces>⟧.known places.old) }
    requires relay { (number : ℕ) → role ≡ Role.Relay number
        → number < length setup.now.config.now.relay }
    requires fresh { IsNewLink (L.told link.old) }
    requires room { tally.old.sessions + 1 < 2 ^ 64 }
    requires within { IsWithin tally.old }
    ensures stay { StayKnown (⟦<Places<T, B> as AllPlaces>⟧.known places.old)
        (⟦<Places<T, B> as AllPlaces>⟧.known places.new)
        (⟦<Places<T, B> as AllPlaces>⟧.worn places.old)
        (⟦<Places<T, B> as AllPlaces>⟧.worn places.new) }
    ensures given { (L.told link.new).given ≡ (L.told link.old).given }
    ensures within { IsWithin tally.new }
    ensures counted { LinkCounted setup.now.config.now (opening_of role) setup.now.me
        (wear_of (⟦<Places<T, B> as AllPlaces>⟧.known places.new)
        (⟦<Places<T, B> as AllPlaces>⟧.worn places.new))
        (⟦<Places<T, B> as AllPlaces>⟧.seen places.old)
        (⟦<Places<T, B> as AllPlaces>⟧.seen places.new) (L.told link.new) tally.old tally.new }
{
    let receipt = serve_places(rt, setup, places, role, link);
    count_receipt(tally, &receipt);
    drop(receipt);
}
