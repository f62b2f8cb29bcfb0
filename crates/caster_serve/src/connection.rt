//! A connection at the locks of a caster.

ghost use Rattle.std.specs.Prelude.{◌≡◌, ◌<◌, ℕ, false, length};
ghost use Rattle.caster_places.specs.Known.{Fit, StayKnown};
ghost use Rattle.caster_link.specs.Links.{opening_of};
ghost use Rattle.caster_link.specs.Served.{LinkServed};
ghost use Rattle.caster_seats.specs.Sharing.{IsReady};
ghost use Rattle.caster_link.specs.Wear.{IsWorn, IsWornBy};

use cast_io::Link;
use caster_accounts::Book;
use caster_link::{Role, serve_places};
use caster_places::AllPlaces;
use caster_seats::Shared;
use mount_ring::Ring;
use session_core::{Places, Receipt};
use std::alloc::Global;
use std::sync::Wait;
use turn_log::Seat;

/// Serves one connection over its link, as the caller `me`, until it is closed: 4,096 bytes at most
/// are read at a time and fed to its session, which then takes a turn of 16 frames at most; what it
/// appends is written. Where nothing was read and no frame is left to be looked at, the link rests
/// behind that write. Once the link gave 2^62 bytes, it is closed as if it had ended.
pub fn serve_link<'a, L: Link, R: Wait + Sync>(
    rt: &R,
    alloc: Global,
    shared: &Shared,
    me: u32,
    places: &mut Places<Seat<'a, Ring, R>, Seat<'a, Book, R>>,
    role: Role,
    link: &mut L,
) -> Receipt
    requires ready { IsReady shared.now }
    requires fit { Fit shared.now.config.now me
        (⟦<Places<Seat<'a, Ring, R>, Seat<'a, Book, R>> as AllPlaces>⟧.known places.old) }
    requires relay { (number : ℕ) → role ≡ Role.Relay number
        → number < length shared.now.config.now.relay }
    ensures stay { StayKnown
        (⟦<Places<Seat<'a, Ring, R>, Seat<'a, Book, R>> as AllPlaces>⟧.known places.old)
        (⟦<Places<Seat<'a, Ring, R>, Seat<'a, Book, R>> as AllPlaces>⟧.known places.new)
        (⟦<Places<Seat<'a, Ring, R>, Seat<'a, Book, R>> as AllPlaces>⟧.worn places.old)
        (⟦<Places<Seat<'a, Ring, R>, Seat<'a, Book, R>> as AllPlaces>⟧.worn places.new) }
    ensures served { LinkServed shared.now.config.now (opening_of role) me
        (⟦<Places<Seat<'a, Ring, R>, Seat<'a, Book, R>> as AllPlaces>⟧.seen places.old)
        (⟦<Places<Seat<'a, Ring, R>, Seat<'a, Book, R>> as AllPlaces>⟧.seen places.new)
        (L.told link.old) (L.told link.new) result }
    ensures worn { IsWornBy
        (⟦<Places<Seat<'a, Ring, R>, Seat<'a, Book, R>> as AllPlaces>⟧.worn places.new)
        result.ending }
    ensures unsettled { result.settled ≡ false
        → IsWorn (⟦<Places<Seat<'a, Ring, R>, Seat<'a, Book, R>> as AllPlaces>⟧.worn places.new) }
{
    serve_places(rt, &shared.setup(alloc, me), places, role, link)
}
