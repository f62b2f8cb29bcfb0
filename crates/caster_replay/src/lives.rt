//! The connections of a run, in increasing order of number.

ghost use Rattle.std.specs.Prelude.{◌≡◌, ℕ, ◌<◌, ◌≤◌, ◌++◌, [], ◌∷◌, length, map, IsTrue, ◌↔◌, OnOk, IfSome, IfNone, List, slice_index_or};
ghost use Rattle.cast_config.specs.declared.config.Config.{Config as ConfigValue};
ghost use Rattle.cast_config.specs.Kept.{KeepsRules};
ghost use Rattle.session_model.specs.Setting as setting;
ghost use Rattle.session_script.specs.declared.Event.{Event};
ghost use Rattle.caster_replay.specs.declared.run_connection.RunConnection.{RunConnection as EntryValue};
ghost use Rattle.std.specs.List.Sorted.{IsNonDecreasingBy};
ghost use Rattle.caster_replay.specs.Lives.{end_of, lives_in, place_of};
ghost use Rattle.caster_replay.specs.Caster.{SamePlaces};
ghost use Rattle.caster_replay.specs.RunConnections.{AreOver, IsFoundAt, IsMissing, IsRoverIn, opening_of};
ghost use Rattle.caster_replay.specs.Scripts.{Acts, Begins, IsShort, Plays, Stands};
ghost use Rattle.caster_replay.specs.Sends.{IsSilent, Sends};

use crate::desks::Desks;
use crate::opening::{Way, open_connection};
use crate::ring_place::RingPlace;
use crate::run_connection::{Act, RunConnection};
use cast_config::Config;
use session_core::{Last, RoverState};
use std::alloc::{AllocError, Global};

/// How many connections stand before a number.
fn place_of(entries: &[RunConnection], number: u32) -> usize
    requires order { IsNonDecreasingBy (λ (entry : EntryValue). entry.number) entries.now }
    ensures place { result ≡ place_of number (lives_in entries.now) }
    ensures within { result ≤ length entries.now }
{
    entries.partition_point(|entry| entry.number < number)
}

/// Whether the connection of this number stands at this place.
fn stands_at(entries: &[RunConnection], place: usize, number: u32) -> bool
    ensures { IsTrue result ↔ ((place < length entries.now)
        × ((d : EntryValue) → (slice_index_or entries.now place d).number ≡ number)) }
{
    place < entries.len() && entries[place].number == number
}

/// The connection of this number, if there is one.
pub(crate) fn find(entries: &[RunConnection], number: u32) -> Option<&RunConnection>
    requires order { IsNonDecreasingBy (λ (entry : EntryValue). entry.number) entries.now }
    ensures found { IfSome result (λ entry. IsFoundAt entries.now number entry.now) }
    ensures none { IfNone result (IsMissing entries.now number) }
{
    let place = place_of(entries, number);
    let found = stands_at(entries, place, number);
    if found { Some(&entries[place]) } else { None }
}

/// Where the rover of this number stands, if it goes on and has a segment.
pub(crate) fn rover_of(entries: &[RunConnection], number: u32) -> Option<RoverState>
    requires order { IsNonDecreasingBy (λ (entry : EntryValue). entry.number) entries.now }
    ensures { IsRoverIn entries.now number result }
{
    match find(entries, number) {
        Some(entry) => entry.rover(),
        None => None,
    }
}

/// Plays what happens to the connection of this number, if there is one.
pub(crate) fn apply<P: RingPlace>(
    config: &Config,
    table: &[u8],
    entries: &mut Vec<RunConnection>,
    desks: &mut Desks<P>,
    number: u32,
    act: Act<'_>,
) -> Result<(), AllocError>
    requires kept { (cap : ℕ) × KeepsRules cap config.now }
    requires table { table.now ≡ setting.table config.now }
    requires run { (script : List Event) × (event : Event) × Acts event number act
        × Plays config.now script event entries.old.items desks.old }
    ensures ok { (script : List Event) (event : Event) → Acts event number act.entry
        → Plays config.now script event entries.old.items desks.old
        → OnOk result (Stands config.now (script ++ event ∷ []) entries.new.items desks.new) }
    ensures sends { (event : Event) → Acts event number act.entry → OnOk result
        (Sends event (lives_in entries.old.items) (lives_in entries.new.items)) }
    ensures same { SamePlaces desks.old desks.new }
{
    let place = place_of(entries, number);
    if !stands_at(entries, place, number) {
        return Ok(());
    }
    entries[place].apply(config, table, desks, act)
}

/// Closes each connection that goes on, as its end, in increasing order of number.
pub(crate) fn close_all<P: RingPlace>(
    entries: &mut Vec<RunConnection>,
    desks: &mut Desks<P>,
) -> Result<(), AllocError>
    requires run { (c : ConfigValue) × (script : List Event)
        × IsShort script × Stands c script entries.old.items desks.old }
    ensures ok { (c : ConfigValue) (script : List Event) → IsShort script
        → Stands c script entries.old.items desks.old → OnOk result (Stands c
        (script ++ map end_of (lives_in entries.new.items)) entries.new.items desks.new) }
    ensures over { OnOk result (AreOver (lives_in entries.new.items)) }
    ensures silent { OnOk result
        (IsSilent (lives_in entries.old.items) (lives_in entries.new.items)) }
{
    for place in 0..entries.len() {
        entries[place].close(desks, Last::End)?;
    }
    Ok(())
}

/// A connection opens, unless its number was opened before.
pub(crate) fn open<P: RingPlace>(
    alloc: Global,
    config: &Config,
    entries: &mut Vec<RunConnection>,
    desks: &mut Desks<P>,
    number: u32,
    way: Way<'_>,
) -> Result<(), AllocError>
    requires kept { (cap : ℕ) × KeepsRules cap config.now }
    requires run { (script : List Event) × (event : Event) × Begins event number (opening_of way)
        × Plays config.now script event entries.old.items desks.old }
    ensures ok { (script : List Event) (event : Event) → Begins event number (opening_of way.entry)
        → Plays config.now script event entries.old.items desks.old
        → OnOk result (Stands config.now (script ++ event ∷ []) entries.new.items desks.new) }
    ensures sends { (event : Event) → Begins event number (opening_of way.entry) → OnOk result
        (Sends event (lives_in entries.old.items) (lives_in entries.new.items)) }
    ensures same { SamePlaces desks.old desks.new }
{
    let place = place_of(entries, number);
    if stands_at(entries, place, number) {
        return Ok(());
    }
    let entry = open_connection(alloc, config, desks, number, way)?;
    entries.insert(place, entry)?;
    entries[place].settle(desks)
}
