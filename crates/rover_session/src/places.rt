//! A rover's turns at several mountpoints.

ghost use Rattle.std.specs.Prelude.{◌≡◌, ◌+◌, ◌<◌, ◌≤◌, [], ◌∷◌, ◌++◌, length, map, IfOk, IfErr, OnErr, vec_len};
ghost use Rattle.std.specs.Vec.{vec_capacity};
ghost use Rattle.rover_cursor.specs.Segments.{begun};
ghost use Rattle.rover_cursor.specs.Told.{IsSegment};
ghost use Rattle.session_calls.specs.Steps.{at_ring};
ghost use Rattle.session_calls.specs.Rings.{Went, AllSpeak, all_alone, history_at, shape_at};
ghost use Rattle.rover_session.specs.Owed.{if_live};
ghost use Rattle.rover_session.specs.Made.{IsRefusedBy};
ghost use Rattle.rover_session.specs.Places.{StayAtRings};
ghost use Rattle.rover_session.specs.Standing.{KnowsFilter, AreWithin, AskedEach, AskedFirst, HasReadAt};

use base_select::Base;
use mount_ring::{Outbox, Ring, RingAnswer, RingCall};
use rover_cursor::{SegFault, Segment};
use session_calls::look;
use std::alloc::Global;
use turn_log::Turns;

/// Joins the mountpoint of this number, by the filter of this number.
pub(crate) fn join_at<T: Turns<Ring>>(
    alloc: Global,
    places: &mut [T],
    me: u32,
    mount: u32,
    filter: u32,
) -> Result<Segment, SegFault>
    requires within { mount < length places.old }
    requires speaks { AllSpeak T.speaks places.old me }
    requires filter { KnowsFilter (map T.shape places.old) filter }
    ensures stay { StayAtRings T.Turns places.old places.new }
    ensures went { IfOk result (λ segment.
        Went (map T.shape places.old) (all_alone T.alone places.old)
        (map T.seen places.old) (map T.seen places.new) me
        (at_ring mount (RingCall.Join filter) (RingAnswer.Joined segment.cursor) ∷ [])) }
    ensures begun { IfOk result (λ segment. segment ≡ begun mount segment.cursor) }
    ensures segment { IfOk result (λ segment.
        IsSegment (shape_at (map T.shape places.old) mount) me
        (history_at (map T.seen places.new) mount) segment) }
    ensures err { OnErr result (map T.seen places.new ≡ map T.seen places.old) }
    ensures cause { IfErr result (IsRefusedBy (map T.worn places.new)) }
{
    Segment::join(alloc, &mut places[mount as usize], me, mount, filter)
}

/// The bases that are held now, in order: one look on each.
pub(crate) fn held_among<T: Turns<Ring>>(
    alloc: Global,
    places: &mut [T],
    me: u32,
    bases: &[Base],
) -> Result<Vec<Base>, SegFault>
    requires within { AreWithin (length places.old) bases.now }
    requires speaks { AllSpeak T.speaks places.old me }
    ensures stay { StayAtRings T.Turns places.old places.new }
    ensures each { IfOk result (λ held.
        AskedEach (map T.shape places.old) (all_alone T.alone places.old)
        (map T.seen places.old) (map T.seen places.new) me bases.now held.items) }
    ensures first { OnErr result
        (AskedFirst (map T.shape places.old) (all_alone T.alone places.old)
        (map T.seen places.old) (map T.seen places.new) me bases.now) }
    ensures cause { IfErr result (IsRefusedBy (map T.worn places.new)) }
{
    let Ok(mut held) = Vec::with_capacity(alloc, bases.len()) else {
        return Err(SegFault::Memory);
    };
    for base in bases {
        let live = look(places, me, base.mount)?;
        push_live(&mut held, *base, live);
    }
    Ok(held)
}

/// Adds the base where it is held under a claim. There is room for it.
fn push_live(held: &mut Vec<Base>, base: Base, live: Option<u64>)
    requires room { vec_len held.old < vec_capacity held.old }
    ensures items { held.new.items ≡ held.old.items ++ if_live base live }
    ensures len { vec_len held.new ≤ vec_len held.old + 1 }
    ensures capacity { vec_capacity held.new ≡ vec_capacity held.old }
{
    if live.is_some() {
        held.push_reserved(base);
    }
}

/// Reads on in a segment, at its mountpoint. Gives the number of frames taken.
pub(crate) fn read_at<T: Turns<Ring>>(
    segment: &mut Segment,
    places: &mut [T],
    me: u32,
    budget: u32,
    out: &mut Outbox,
) -> Result<u32, SegFault>
    requires within { segment.old.mount < length places.old }
    requires speaks { AllSpeak T.speaks places.old me }
    requires segment { IsSegment (shape_at (map T.shape places.old) segment.old.mount) me
        (history_at (map T.seen places.old) segment.old.mount) segment.old }
    ensures stay { StayAtRings T.Turns places.old places.new }
    ensures read { IfOk result (HasReadAt (map T.shape places.old) (all_alone T.alone places.old)
        (map T.seen places.old) (map T.seen places.new) me budget segment.old segment.new
        out.new) }
    ensures err { OnErr result ((map T.seen places.new ≡ map T.seen places.old)
        × (segment.new ≡ segment.old)) }
    ensures cause { IfErr result (IsRefusedBy (map T.worn places.new)) }
{
    segment.read(&mut places[segment.mount as usize], me, budget, out)
}
