//! What clauses over things that may not tell all say where these log it: each the contract of a
//! function that does nothing.

ghost use Rattle.std.specs.Prelude.{◌≡◌, ℕ, List, Option, Ok, Some};
ghost use Rattle.cast_io.specs.Causes.{Rose};
ghost use Rattle.cast_io.specs.Logged.{DoorLog, StreetLog, door_logged, street_logged};
ghost use Rattle.cast_io.specs.Logs.{GaveAll, GaveFile, Log};
ghost use Rattle.cast_io.specs.Told.{StreetTold};
ghost use Rattle.cast_console.specs.Consoles.{ConsoleTold};
ghost use Rattle.cast_config.specs.declared.config.Config.{Config};
ghost use Rattle.session_script.specs.declared.Event.{Event};
ghost use Rattle.session_model.specs.declared.report.Closed.{Closed};
ghost use Rattle.run_promise.specs.Promised.{IsPromised};
ghost use Rattle.ntrip_fetch.specs.declared.target.Target.{Target};
ghost use Rattle.caster_serve.specs.Caster.{HasServed};
ghost use Rattle.caster_keep.specs.declared.whole.Outcome.{Outcome};
ghost use Rattle.caster_keep.specs.Keeping.{HasKept};
ghost use Rattle.caster_top.specs.Done.{WasDone};
ghost use Rattle.caster_top.specs.Given.{FileCame, FileGave, InputGave};
ghost use Rattle.caster_top.specs.Keeping.{HasKeeping};
ghost use Rattle.caster_top.specs.Recording.{HasRecorded};
ghost use Rattle.caster_top.specs.Told.{FilesTold};
ghost use Rattle.caster_top.specs.Fetching.{HasFetched};
ghost use Rattle.caster_logged.specs.Inputs.{Steps, HasRead, HasReadFile};
ghost use Rattle.caster_logged.specs.Callers.{HasServedAll};
ghost use Rattle.caster_logged.specs.Peers.{HasRecordedAll};
ghost use Rattle.caster_logged.specs.Runs.{HasFetchedAll};
ghost use Rattle.caster_logged.specs.Complete.{CameBackWhole, EndsAsItShould, GivesConfig};
ghost use Rattle.caster_logged.specs.Keepers.{HasKeptAll, YardList, yard_told};

use cast_io::{Door, Gate, Sink, Yard};

/// Bytes that an input gave, or a file, are those of the steps that were logged.
pub fn bytes_given_are_logged()
    ensures input { (old new : Steps) (bytes : List ℕ) → GaveAll (Some old) (Some new) bytes
        → HasRead old new bytes }
    ensures file { (path : List ℕ) (old new : Steps) (bytes : List ℕ)
        → GaveFile path (Some old) (Some new) bytes → HasReadFile old new path bytes }
{}

/// What was done with what the input and the files gave was done with what their logs have.
pub fn what_was_done_is_logged()
    ensures { (words : List (List ℕ)) (left : Option (List ℕ)) (files : FilesTold)
        (first last opened closed : Steps) (before after : StreetTold)
        (old new : Option (List ℕ))
        → WasDone words (InputGave left (Some first) (Some last))
        (FileGave files (Some opened) (Some closed)) before after old new
        → WasDone words (HasRead first last) (HasReadFile opened closed) before after old new }
{}

/// A caster that served to its end kept what is promised of each link, by the logs of its links.
pub fn served_links_are_logged()
    ensures { (c : Config) (addr : List ℕ) (limit : ℕ) (old new : StreetLog) (closed : Closed)
        → HasServed c addr limit (street_logged old) (street_logged new) (Ok closed)
        → HasServedAll c addr limit old new closed }
{}

/// A caster that kept serving until it ended kept what is promised of each link, by the logs of its
/// gates and links, where gates are logs and places for lines tell what they took.
pub fn kept_links_are_logged<N: Yard>()
    ensures { (door : N.Gate → DoorLog) (text : N.Notes → List ℕ)
        → ((gate : N.Gate) → N.Gate.told gate ≡ door_logged (door gate))
        → ((notes : N.Notes) → N.Notes.taken notes ≡ Some (text notes))
        → (c : Config) (addr : List ℕ) (quiet : ℕ) (old new : YardList) (f g h i : ℕ)
        (back_before back_now : List ConsoleTold) (outcome : Outcome)
        → HasKept N.Gate.told N.Gate.over N.Gate.peer N.Gate.origin N.Notes.taken N.Notes.faults
        back_before back_now c addr quiet (yard_told old f g) (yard_told new h i) (Ok outcome)
        → HasKeptAll c addr quiet old new back_before back_now outcome }
{}

/// A caster that keeps serving is complete, where gates are logs and places for lines tell what
/// they took. Let whatever comes from its file be a configuration. Let no count of faults rise, of
/// its files, of its yard and of its output, and no gate and no place for lines come back that
/// counted one. Then it ends with 0, or with 7 for want of memory.
pub fn keeping_is_complete<N: Yard>()
    ensures { (door : N.Gate → DoorLog) (text : N.Notes → List ℕ)
        → ((gate : N.Gate) → N.Gate.told gate ≡ door_logged (door gate))
        → ((notes : N.Notes) → N.Notes.taken notes ≡ Some (text notes))
        → (files : FilesTold) (opened closed : Log) (config addr : List ℕ) (quiet : ℕ)
        (old new : YardList) (f g h i : ℕ) (back_before back_now : List ConsoleTold)
        (read_before read_now : ℕ) (written now_written : List ℕ) (first now status : ℕ)
        → HasKeeping (HasKept N.Gate.told N.Gate.over N.Gate.peer N.Gate.origin
        N.Notes.taken N.Notes.faults back_before back_now)
        (FileCame files opened closed) config addr quiet (yard_told old f g) (yard_told new h i)
        (Rose read_before read_now) (Some written) (Some now_written) first now status
        → GivesConfig (FileCame files opened closed) config → CameBackWhole old new
        → ¬ Rose read_before read_now → ¬ Rose f h → ¬ Rose first now
        → EndsAsItShould status }
{}

/// A session that was recorded is one over the links that the door's log has.
pub fn recorded_links_are_logged()
    ensures { (c : Config) (addr : List ℕ) (limit : ℕ) (old new : StreetLog) (script : List Event)
        (recorded : HasRecorded c addr limit (street_logged old) (street_logged new) script)
        → IsPromised c script recorded.session.report
        → HasRecordedAll c addr limit old new script }
{}

/// Frames that were fetched are those that the logs of the links bring.
pub fn fetched_links_are_logged()
    ensures { (most : ℕ) (targets : List Target) (old new : StreetLog) (start now : List ℕ)
        (status : ℕ)
        → HasFetched most targets (street_logged old) (street_logged new) (Some start) (Some now)
        status → HasFetchedAll most targets old new start now status }
{}
