//! The call of the program over what it is shipped with.
ghost use Rattle.std.specs.Prelude.{◌≡◌, ◌++◌, ◌⊎◌, ℕ, List, Ok, None, Some};
ghost use Rattle.cast_io.specs.Causes.{Rose};
ghost use Rattle.cast_io.specs.Logged.{street_logged};
ghost use Rattle.session_script.specs.declared.Event.{Event};
ghost use Rattle.session_script.specs.declared.ScriptKind.TheVariants.{Bare};
ghost use Rattle.session_script.specs.Script.{script_of};
ghost use Rattle.session_script.specs.Writing.{script_text};
ghost use Rattle.cast_config.specs.declared.config.Config.{Config};
ghost use Rattle.cast_config.specs.Bare.{bare};
ghost use Rattle.run_texts.specs.Texts.{made_text, bare_report_text};
ghost use Rattle.session_model.specs.declared.report.Closed.{Closed};
ghost use Rattle.session_model.specs.Text.{closed_text};
ghost use Rattle.ntrip_fetch.specs.declared.target.Target.{Target};
ghost use Rattle.caster_top.specs.declared.command.ConfigCommand.{ConfigCommand};
ghost use Rattle.caster_top.specs.declared.command.RoverStart.{RoverStart};
ghost use Rattle.caster_top.specs.Command.{AreBare, AreFetch, AreKeep, AreMake, AreOver, ArePlayed, AreRecord, AreServe, KeepNothing, texts};
ghost use Rattle.caster_top.specs.Contract.{MeetsContract};
ghost use Rattle.caster_top.specs.Done.{WasDone};
ghost use Rattle.caster_top.specs.Given.{FileCame, FileGave};
ghost use Rattle.caster_top.specs.Keeping.{HasKeeping};
ghost use Rattle.caster_top.specs.Outcome.{IsReportText, IsTextOver};
ghost use Rattle.caster_top.specs.Promised.{IsPromisedReport, IsPromisedText};
ghost use Rattle.caster_top.specs.Told.{IsConfigFrom, IsSessionFrom};
ghost use Rattle.caster_logged.specs.Inputs.{HasRead, HasReadFile};
ghost use Rattle.caster_logged.specs.Callers.{HasServedAll};
ghost use Rattle.caster_logged.specs.Peers.{HasRecordedAll};
ghost use Rattle.caster_logged.specs.Runs.{HasFetchedAll};
ghost use Rattle.caster_logged.specs.Keepers.{HasEndedAll, WasKeptWhole};
ghost use Rattle.caster_logged.specs.Complete.{CameBackWhole, EndsAsItShould, GivesConfig};
ghost use Rattle.caster_net.specs.Gates.{yard_logged};
ghost use Rattle.caster_main.specs.Calls.{KeepsBySockets, KeptBySockets, LeavesFiles, LeavesInputLog, LeavesNet, call_told};
ghost use Rattle.caster_main.specs.Yards.{yard_list};

use cast_console::Lodge;
use caster_net::{FileStore, InputLodge, ReaderSource, TcpStreet, WriterSink};
use caster_top::caster;
use std::alloc::Global;
use std::io::{Stdin, Stdout};
use std::sync::Wait;
use std::thread::Threads;

/// Runs the command that the words are over standard input, standard output, the file system and
/// the sockets of std, as `caster_top::caster` says, and answers the status that the program ends
/// with. For contracts each of these has a log of what the calls of the library gave and took, so
/// what is written is said of these very bytes.
pub fn caster_over<R: Threads + Wait + Sync>(
    rt: &R,
    alloc: Global,
    words: &[String],
    store: &mut FileStore<'_>,
    input: &mut ReaderSource<Stdin>,
    out: &mut WriterSink<Stdout>,
    street: &mut TcpStreet<'_>,
    lodge: &mut InputLodge<'_>,
) -> u8
    // All that is said of a call of `caster`, fact by fact: when each status comes, what is written
    // then, and which files and peers were asked for.
    ensures call { MeetsContract (call_told (texts words.now) input.old input.new
        store.old store.new street.old.street street.new.street out.old out.new result) }

    // The report is that of the script that the reads of standard input gave, up to its end.
    ensures report { result ≡ 0 → (capacity : ℕ) → AreBare (texts words.now) capacity
        → (bytes : List ℕ) × (events : List Event) × HasRead input.old.log input.new.log bytes
        × (script_of Bare bytes ≡ Ok events) × IsPromisedText (bare capacity) events
        (bare_report_text (bare capacity) events)
        × (out.new.taken ≡ out.old.taken ++ bare_report_text (bare capacity) events) }

    // What is done with the configuration that the reads of the file CONFIG gave, from its opening
    // to its end.
    ensures over_config { result ≡ 0 → (task : ConfigCommand) (path : List ℕ)
        → AreOver task (texts words.now) path
        → (c : Config) × (text : List ℕ)
        × IsConfigFrom (HasReadFile store.old.log store.new.log) path c
        × IsTextOver task c text × (out.new.taken ≡ out.old.taken ++ text) }

    // The report is that of the session that the reads of the file SESSION gave, over that
    // configuration, with greetings where rovers start warm, and it keeps the promise of its kind.
    ensures played { result ≡ 0 → (start : RoverStart) (config session : List ℕ)
        → ArePlayed start (texts words.now) config session
        → (c : Config) × (events : List Event) × (text : List ℕ)
        × IsConfigFrom (HasReadFile store.old.log store.new.log) config c
        × IsSessionFrom (HasReadFile store.old.log store.new.log) session c events
        × IsReportText start c events text × IsPromisedReport start c events text
        × (out.new.taken ≡ out.old.taken ++ text) }
    ensures made { result ≡ 0 → (seed frames rovers : ℕ)
        → AreMake (texts words.now) seed frames rovers
        → out.new.taken ≡ out.old.taken ++ made_text seed frames rovers }

    // The doors and links that came back are those that it asked for, and what was called, written
    // and counted is by the steps and bytes that they logged.
    ensures served { result ≡ 0 → (config addr : List ℕ) (limit : ℕ)
        → AreServe (texts words.now) config addr limit
        → (c : Config) × (closed : Closed)
        × IsConfigFrom (HasReadFile store.old.log store.new.log) config c
        × HasServedAll c addr limit street.old.street street.new.street closed
        × (out.new.taken ≡ out.old.taken ++ closed_text c closed) }
    ensures recorded { result ≡ 0 → (config addr : List ℕ) (limit : ℕ)
        → AreRecord (texts words.now) config addr limit
        → (c : Config) × (events : List Event)
        × IsConfigFrom (HasReadFile store.old.log store.new.log) config c
        × HasRecordedAll c addr limit street.old.street street.new.street events
        × (out.new.taken ≡ out.old.taken ++ script_text events) }
    ensures fetched { (result ≡ 0) ⊎ (result ≡ 9) → (frames : ℕ) (targets : List Target)
        → AreFetch (texts words.now) frames targets
        → HasFetchedAll frames targets street.old.street street.new.street
        out.old.taken out.new.taken result }

    // A caster that keeps serving, at every status. Either it served: by the steps and bytes that
    // gates and links logged each link kept what is promised. With 0 standard output took exactly
    // the lines of these links and of the answers to `status`, and the totals. With 6 it took these
    // and the line of a network that failed, for a gate failed. With 5 a write failed, and it took a
    // first part. Or nobody served, and the status is not 0.
    ensures kept { (config addr : List ℕ) (quiet : ℕ) → AreKeep (texts words.now) config addr quiet
        → HasEndedAll (HasReadFile store.old.log store.new.log) config addr quiet
        (yard_list street.old.yard) (yard_list street.new.yard)
        (⟦<InputLodge<'static> as Lodge>⟧.back lodge.old)
        (⟦<InputLodge<'static> as Lodge>⟧.back lodge.new)
        out.old.taken out.new.taken out.old.faults out.new.faults result }

    // With 0 it served until all gates were over, and standard output took nothing more.
    ensures kept_whole { result ≡ 0 → (config addr : List ℕ) (quiet : ℕ)
        → AreKeep (texts words.now) config addr quiet
        → WasKeptWhole (HasReadFile store.old.log store.new.log) config addr quiet
        (yard_list street.old.yard) (yard_list street.new.yard)
        (⟦<InputLodge<'static> as Lodge>⟧.back lodge.old)
        (⟦<InputLodge<'static> as Lodge>⟧.back lodge.new) out.old.taken out.new.taken }

    // All that is said of a caster of `caster` that keeps serving: why nobody served where nobody
    // did, with its line and no more, and what a gate told of each turn.
    ensures keeping { (config addr : List ℕ) (quiet : ℕ)
        → AreKeep (texts words.now) config addr quiet
        → HasKeeping (KeepsBySockets (⟦<InputLodge<'static> as Lodge>⟧.back lodge.old)
        (⟦<InputLodge<'static> as Lodge>⟧.back lodge.new))
        (FileCame None (Some store.old.log) (Some store.new.log)) config addr quiet
        (yard_logged street.old.yard) (yard_logged street.new.yard)
        (Rose store.old.faults store.new.faults)
        (Some out.old.taken) (Some out.new.taken) out.old.faults out.new.faults result }
    ensures kept_to_its_end { result ≡ 0 → (config addr : List ℕ) (quiet : ℕ)
        → AreKeep (texts words.now) config addr quiet
        → KeptBySockets (⟦<InputLodge<'static> as Lodge>⟧.back lodge.old)
        (⟦<InputLodge<'static> as Lodge>⟧.back lodge.new)
        (FileGave None (Some store.old.log) (Some store.new.log)) config addr quiet
        (yard_logged street.old.yard) (yard_logged street.new.yard)
        out.old.taken out.new.taken }

    // With 6 the network failed: the count of faults of its gates rose.
    ensures kept_network_fault { result ≡ 6 → (config addr : List ℕ) (quiet : ℕ)
        → AreKeep (texts words.now) config addr quiet
        → Rose street.old.yard.faults street.new.yard.faults }

    // It is complete: where whatever came from the file is a configuration, and neither files,
    // gates nor standard output counted a fault, it ends with 0, or with 7 for want of memory.
    ensures keep_complete { (config addr : List ℕ) (quiet : ℕ)
        → AreKeep (texts words.now) config addr quiet
        → GivesConfig (FileCame None (Some store.old.log) (Some store.new.log)) config
        → CameBackWhole (yard_list street.old.yard) (yard_list street.new.yard)
        → ¬ Rose store.old.faults store.new.faults
        → ¬ Rose street.old.yard.faults street.new.yard.faults
        → ¬ Rose out.old.faults out.new.faults
        → EndsAsItShould result }

    // What is not touched.
    ensures kept_input { LeavesInputLog (texts words.now) input.old input.new }
    ensures kept_store { LeavesFiles (texts words.now) store.old store.new }
    ensures kept_street { LeavesNet (texts words.now) result street.old street.new }
    ensures kept_lodge { KeepNothing (texts words.now)
        → ⟦<InputLodge<'static> as Lodge>⟧.back lodge.new
        ≡ ⟦<InputLodge<'static> as Lodge>⟧.back lodge.old }
{
    run_logged(rt, alloc, words, store, input, out, street, lodge)
}

// Runs the command, and says of it what `caster` says; and in one word each what was done with 0,
// by the logs of the input and of the files, and what a caster kept that keeps serving.
fn run_logged<R: Threads + Wait + Sync>(
    rt: &R,
    alloc: Global,
    words: &[String],
    store: &mut FileStore<'_>,
    input: &mut ReaderSource<Stdin>,
    out: &mut WriterSink<Stdout>,
    street: &mut TcpStreet<'_>,
    lodge: &mut InputLodge<'_>,
) -> u8
    ensures call { MeetsContract (call_told (texts words.now) input.old input.new
        store.old store.new street.old.street street.new.street out.old out.new result) }
    ensures done { result ≡ 0 → WasDone (texts words.now)
        (HasRead input.old.log input.new.log) (HasReadFile store.old.log store.new.log)
        (street_logged street.old.street) (street_logged street.new.street)
        (Some out.old.taken) (Some out.new.taken) }
    ensures kept { (config addr : List ℕ) (quiet : ℕ) → AreKeep (texts words.now) config addr quiet
        → HasEndedAll (HasReadFile store.old.log store.new.log) config addr quiet
        (yard_list street.old.yard) (yard_list street.new.yard)
        (⟦<InputLodge<'static> as Lodge>⟧.back lodge.old)
        (⟦<InputLodge<'static> as Lodge>⟧.back lodge.new)
        out.old.taken out.new.taken out.old.faults out.new.faults result }
    ensures keeping { (config addr : List ℕ) (quiet : ℕ)
        → AreKeep (texts words.now) config addr quiet
        → HasKeeping (KeepsBySockets (⟦<InputLodge<'static> as Lodge>⟧.back lodge.old)
        (⟦<InputLodge<'static> as Lodge>⟧.back lodge.new))
        (FileCame None (Some store.old.log) (Some store.new.log)) config addr quiet
        (yard_logged street.old.yard) (yard_logged street.new.yard)
        (Rose store.old.faults store.new.faults)
        (Some out.old.taken) (Some out.new.taken) out.old.faults out.new.faults result }
    ensures kept_to_its_end { result ≡ 0 → (config addr : List ℕ) (quiet : ℕ)
        → AreKeep (texts words.now) config addr quiet
        → KeptBySockets (⟦<InputLodge<'static> as Lodge>⟧.back lodge.old)
        (⟦<InputLodge<'static> as Lodge>⟧.back lodge.new)
        (FileGave None (Some store.old.log) (Some store.new.log)) config addr quiet
        (yard_logged street.old.yard) (yard_logged street.new.yard)
        out.old.taken out.new.taken }
    ensures kept_network_fault { result ≡ 6 → (config addr : List ℕ) (quiet : ℕ)
        → AreKeep (texts words.now) config addr quiet
        → Rose street.old.yard.faults street.new.yard.faults }
    ensures kept_input { LeavesInputLog (texts words.now) input.old input.new }
    ensures kept_store { LeavesFiles (texts words.now) store.old store.new }
    ensures kept_street { LeavesNet (texts words.now) result street.old street.new }
    ensures kept_lodge { KeepNothing (texts words.now)
        → ⟦<InputLodge<'static> as Lodge>⟧.back lodge.new
        ≡ ⟦<InputLodge<'static> as Lodge>⟧.back lodge.old }
{
    caster(rt, alloc, words, store, input, out, street, lodge)
}
