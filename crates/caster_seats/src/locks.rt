//! The locks of a caster.

ghost use Rattle.std.specs.Prelude.{◌≡◌, ℕ, ◌<◌, length, map, slice_get, IfOk};
ghost use Rattle.std.specs.List.{All};
ghost use Rattle.mount_ring.specs.Kept.{ring_shape};
ghost use Rattle.caster_accounts.specs.Kept.{caps_of};
ghost use Rattle.turn_log.specs.Lock.{turn_passes, turn_value};
ghost use Rattle.cast_config.specs.Kept.{KeepsRules};
ghost use Rattle.session_model.specs.Setting.{caps, shapes};
ghost use Rattle.caster_places.specs.Piles.{AreMatched};
ghost use Rattle.caster_seats.specs.Sharing.{AreDealt, ring_of};

use cast_config::Config;
use caster_accounts::Book;
use mount_ring::Ring;
use session_model::caps_of;
use std::alloc::{AllocError, Global};
use turn_log::{Pass, Turn};

/// The lock of the ring of a mountpoint, with its passes.
fn open_ring(
    alloc: Global,
    config: &Config,
    mount: u32,
    passes: u32,
) -> Result<(Turn<Ring>, Vec<Pass<Ring>>), AllocError>
    requires within { mount < length config.now.mount }
    requires kept { (cap : ℕ) × KeepsRules cap config.now }
    requires some_pass { 0 < passes }
    ensures shape { IfOk result (λ opened.
        ring_shape (turn_value opened.0)
        ≡ ring_of config.now.group mount (slice_get config.now.mount mount)) }
    ensures passes { IfOk result (λ opened. turn_passes opened.0 ≡ passes) }
    ensures dealt { IfOk result (λ opened. AreDealt passes opened.1.items opened.0) }
{
    let capacity = config.mount.as_slice()[mount as usize].ring;
    let ring = Ring::new(alloc, capacity, config.filters(mount))?;
    let (turn, list) = Turn::open(alloc, ring, passes)?;
    Ok((turn, list))
}

/// The locks of the rings, in the order of the mountpoints, with the passes of each.
pub(crate) fn open_rings(
    alloc: Global,
    config: &Config,
    passes: u32,
) -> Result<(Vec<Turn<Ring>>, Vec<Vec<Pass<Ring>>>), AllocError>
    requires kept { (cap : ℕ) × KeepsRules cap config.now }
    requires some_pass { 0 < passes }
    ensures shapes { IfOk result (λ opened.
        map (λ turn. ring_shape (turn_value turn)) opened.0.items ≡ shapes config.now) }
    ensures passes { IfOk result (λ opened.
        All (λ turn. turn_passes turn ≡ passes) opened.0.items) }
    ensures dealt { IfOk result (λ opened.
        AreMatched (λ pile turn. AreDealt passes pile.items turn) opened.1.items opened.0.items) }
{
    let mut rings = Vec::new(alloc);
    let mut piles = Vec::new(alloc);
    for mount in 0..config.mount.as_slice().len() {
        let (turn, pile) = open_ring(alloc, config, mount as u32, passes)?;
        rings.push(turn)?;
        piles.push(pile)?;
    }
    Ok((rings, piles))
}

/// The lock of the book, with its passes.
pub(crate) fn open_book(
    alloc: Global,
    config: &Config,
    passes: u32,
) -> Result<(Turn<Book>, Vec<Pass<Book>>), AllocError>
    requires some_pass { 0 < passes }
    ensures caps { IfOk result (λ opened. caps_of (turn_value opened.0) ≡ caps config.now) }
    ensures passes { IfOk result (λ opened. turn_passes opened.0 ≡ passes) }
    ensures dealt { IfOk result (λ opened. AreDealt passes opened.1.items opened.0) }
{
    let caps = caps_of(alloc, config)?;
    let book = Book::new(alloc, &caps)?;
    let (turn, list) = Turn::open(alloc, book, passes)?;
    Ok((turn, list))
}
