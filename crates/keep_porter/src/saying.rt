//! The porter says how things stand, each time that this is wanted.

ghost use Rattle.std.specs.Prelude.{◌≡◌, ◌<◌, ◌++◌, ◌^◌, true, IsTrue, List, length, map};
ghost use Rattle.std.specs.List.{All, flat_map};
ghost use Rattle.session_calls.specs.Rings.{AllSpeak, Went, all_alone};
ghost use Rattle.rover_session.specs.Places.{StayAtRings};
ghost use Rattle.rover_session.specs.Standing.{KnowsFilter};
ghost use Rattle.caster_press.specs.Lines.{text_of};
ghost use Rattle.caster_press.specs.Places.{IsSamePlace};
ghost use Rattle.keep_lines.specs.Puts.{HasTold};
ghost use Rattle.keep_porter.specs.declared.found.Found.{Found as FoundValue};
ghost use Rattle.keep_porter.specs.Porters.{Answer, AreFound, IsFound, IsOfAll, answer_lines, any_lacks, busy_of, claim_of, mount_line, mount_lines, published_of, steps_from, steps_of};

use crate::found::Found;
use crate::looks::find;
use cast_config::Config;
use cast_console::{Console, Wanted};
use caster_press::{AtPress, Line, WaitsAtEnd};
use keep_lines::{now_end_line, now_mount_line, now_workers_line};
use mount_ring::{Cursor, Ring};
use std::sync::Wait;
use turn_log::Turns;

/// How many frames were published, by the cursor of one who just joined.
fn published_of(joined: Option<Cursor>) -> Option<u64>
    ensures { result ≡ published_of joined }
{
    match joined {
        None => None,
        Some(cursor) => Some(cursor.next),
    }
}

/// The claim that a look found.
fn claim_of(looked: Option<Option<u64>>) -> Option<u64>
    ensures { result ≡ claim_of looked }
{
    match looked {
        None => None,
        Some(claim) => claim,
    }
}

/// The line of the mountpoint of this number, which was found so.
fn mount_line(config: &Config, mount: u32, found: Found) -> Line
    ensures { text_of result ≡ mount_line config.now mount found }
{
    now_mount_line(
        config,
        mount,
        published_of(found.joined),
        claim_of(found.looked),
    )
}

/// Finds how the mountpoints stand and puts the line of each, in order: as the caller `me` there,
/// and as the caller `by` at the press.
fn say_mounts<T: Turns<Ring>, P: AtPress, R: WaitsAtEnd>(
    rt: &R,
    config: &Config,
    rings: &mut [T],
    me: u32,
    place: &mut P,
    by: u32,
)
    requires mounts { length rings.old ≡ length config.now.mount }
    requires few { length config.now.mount < 2 ^ 32 }
    requires speaks { AllSpeak T.speaks rings.old me }
    requires filter { KnowsFilter (map T.shape rings.old) 0 }
    requires at_press { IsTrue ((P.told place.old).speaks by) }
    ensures stay { StayAtRings T.Turns rings.old rings.new }
    ensures same { IsSamePlace (P.told place.old) (P.told place.new) }
    ensures said { (found : List FoundValue)
        × Went (map T.shape rings.old) (all_alone T.alone rings.old) (map T.seen rings.old)
        (map T.seen rings.new) me (steps_from 0 found)
        × All (IsFound (any_lacks (map T.may_lack rings.new)) (map T.worn rings.new)) found
        × (length found ≡ length config.now.mount)
        × HasTold by (mount_lines config.now 0 found)
        (P.told place.old).seen (P.told place.new).seen }
{
    for mount in 0..config.mount.as_slice().len() {
        let found = find(rings, me, mount as u32);
        place.put(rt, by, &mount_line(config, mount as u32, found));
    }
}

/// Says how things stand now, where so many workers are busy.
fn say<T: Turns<Ring>, P: AtPress, R: WaitsAtEnd>(
    rt: &R,
    config: &Config,
    rings: &mut [T],
    me: u32,
    busy: u32,
    place: &mut P,
    by: u32,
)
    requires mounts { length rings.old ≡ length config.now.mount }
    requires few { length config.now.mount < 2 ^ 32 }
    requires speaks { AllSpeak T.speaks rings.old me }
    requires filter { KnowsFilter (map T.shape rings.old) 0 }
    requires at_press { IsTrue ((P.told place.old).speaks by) }
    ensures stay { StayAtRings T.Turns rings.old rings.new }
    ensures same { IsSamePlace (P.told place.old) (P.told place.new) }
    ensures said { (answer : Answer) × (answer.busy ≡ busy)
        × Went (map T.shape rings.old) (all_alone T.alone rings.old) (map T.seen rings.old)
        (map T.seen rings.new) me (steps_of answer)
        × AreFound (any_lacks (map T.may_lack rings.new)) (map T.worn rings.new) answer
        × IsOfAll config.now answer
        × HasTold by (answer_lines config.now answer)
        (P.told place.old).seen (P.told place.new).seen }
{
    say_mounts(rt, config, rings, me, place, by);
    place.put(rt, by, &now_workers_line(config, busy));
    place.put(rt, by, &now_end_line());
}

/// Waits at the console until nothing is wanted there any more, and says how things stand each time
/// that this is wanted: as the caller `me` at the rings, and as the caller `by` at the press.
pub fn wait_at<T: Turns<Ring>, C: Console, P: AtPress, R: Wait>(
    rt: &R,
    config: &Config,
    rings: &mut [T],
    me: u32,
    console: &mut C,
    place: &mut P,
    by: u32,
)
    requires mounts { length rings.old ≡ length config.now.mount }
    requires few { length config.now.mount < 2 ^ 32 }
    requires speaks { AllSpeak T.speaks rings.old me }
    requires filter { KnowsFilter (map T.shape rings.old) 0 }
    requires at_press { IsTrue ((P.told place.old).speaks by) }
    ensures stay { StayAtRings T.Turns rings.old rings.new }
    ensures same { IsSamePlace (P.told place.old) (P.told place.new) }
    ensures over { (C.told console.new).over ≡ true }
    ensures said { (given : List Answer)
        × ((C.told console.new).busy ≡ (C.told console.old).busy ++ map busy_of given)
        × Went (map T.shape rings.old) (all_alone T.alone rings.old) (map T.seen rings.old)
        (map T.seen rings.new) me (flat_map steps_of given)
        × All (AreFound (any_lacks (map T.may_lack rings.new)) (map T.worn rings.new)) given
        × All (IsOfAll config.now) given
        × HasTold by (flat_map (answer_lines config.now) given)
        (P.told place.old).seen (P.told place.new).seen }
{
    for _ in rt.forever() {
        match console.hear() {
            Wanted::Status { busy } => say(rt, config, rings, me, busy, place, by),
            Wanted::Nothing => console.rest(),
            Wanted::Over => return,
        }
    }
    unreachable!()
}
