//! A connection over its link, from its first byte to its receipt.

ghost use Rattle.std.specs.Prelude.{◌≡◌, ◌<◌, ℕ, length, false};
ghost use Rattle.session_core.specs.Setups.{IsSetUp};
ghost use Rattle.caster_places.specs.Known.{Fit, StayKnown};
ghost use Rattle.caster_link.specs.Links.{opening_of};
ghost use Rattle.caster_link.specs.Served.{LinkServed};
ghost use Rattle.caster_link.specs.Wear.{IsWornBy, MayRefuse, wear_of};

use crate::role::Role;
use crate::service::Service;
use cast_io::Link;
use caster_accounts::Book;
use caster_places::AllPlaces;
use mount_ring::Ring;
use session_core::{Places, Receipt, Setup};
use std::sync::Wait;
use turn_log::Turns;

/// Serves one connection at any places, as `serve_link` does at seats.
pub fn serve_places<T: Turns<Ring>, B: Turns<Book>, L: Link, R: Wait>(
    rt: &R,
    setup: &Setup,
    places: &mut Places<T, B>,
    role: Role,
    link: &mut L,
) -> Receipt
    requires ready { IsSetUp setup.now }
    requires fit { Fit setup.now.config.now setup.now.me
        (⟦<Places<T, B> as AllPlaces>⟧.known places.old) }
    requires relay { (number : ℕ) → role ≡ Role.Relay number
        → number < length setup.now.config.now.relay }
    ensures stay { StayKnown (⟦<Places<T, B> as AllPlaces>⟧.known places.old)
        (⟦<Places<T, B> as AllPlaces>⟧.known places.new)
        (⟦<Places<T, B> as AllPlaces>⟧.worn places.old)
        (⟦<Places<T, B> as AllPlaces>⟧.worn places.new) }
    ensures served { LinkServed setup.now.config.now (opening_of role) setup.now.me
        (⟦<Places<T, B> as AllPlaces>⟧.seen places.old)
        (⟦<Places<T, B> as AllPlaces>⟧.seen places.new) (L.told link.old) (L.told link.new)
        result }
    ensures worn { IsWornBy (⟦<Places<T, B> as AllPlaces>⟧.worn places.new) result.ending }
    ensures unsettled { result.settled ≡ false
        → MayRefuse (wear_of (⟦<Places<T, B> as AllPlaces>⟧.known places.new)
        (⟦<Places<T, B> as AllPlaces>⟧.worn places.new)) }
{
    let mut service = match Service::open(setup, role) {
        Ok(service) => service,
        Err(receipt) => return receipt,
    };
    for _ in rt.forever() {
        match service.step(setup, places, link) {
            None => {}
            Some(last) => return service.close(last, places),
        }
    }
    unreachable!()
}
