//! What follows from the clauses of `caster`: contracts of functions that do nothing. What was done
//! with what came is what is said where input and files tell their bytes; and of a call that has
//! ended, what its facts `outcome`, `undisturbed` and `casting` say more.

ghost use Rattle.std.specs.Prelude.{◌≡◌, ◌⊎◌, ℕ, List, Option, Some, Ok, codes};
ghost use Rattle.std.specs.Io.KnownBytes.{Appends};
ghost use Rattle.session_script.specs.declared.Event.{Event};
ghost use Rattle.session_script.specs.declared.ScriptKind.TheVariants.{Bare};
ghost use Rattle.session_script.specs.Script.{script_of};
ghost use Rattle.session_script.specs.Writing.{script_text};
ghost use Rattle.session_model.specs.declared.report.Closed.{Closed};
ghost use Rattle.session_model.specs.Text.{closed_text};
ghost use Rattle.sourcetable.specs.Table.{table_text};
ghost use Rattle.cast_io.specs.Causes.{Rose};
ghost use Rattle.cast_io.specs.Logs.{Log};
ghost use Rattle.cast_io.specs.Told.{StreetTold};
ghost use Rattle.cast_config.specs.declared.config.Config.{Config};
ghost use Rattle.cast_config.specs.Bare.{bare};
ghost use Rattle.cast_config.specs.Document.{IsRead};
ghost use Rattle.config_table.specs.Table.{table_records};
ghost use Rattle.config_write.specs.Written.{HasVersion};
ghost use Rattle.run_texts.specs.Texts.{IsRunText, IsWarmText, made_text, bare_report_text};
ghost use Rattle.caster_serve.specs.Caster.{HasServed};
ghost use Rattle.caster_top.specs.declared.command.ConfigCommand.{ConfigCommand};
ghost use Rattle.caster_top.specs.declared.command.ConfigCommand.TheVariants.{Check, Migrate, Table};
ghost use Rattle.caster_top.specs.declared.command.CasterMode.{CasterMode};
ghost use Rattle.caster_top.specs.Command.{AreBare, AreCasting, AreMake, AreOver, AreRecord, AreReplay, AreServe, AreWarm};
ghost use Rattle.caster_top.specs.Calls.{CallTold, IsCalm, MeetsCasting, MeetsOutcome, MeetsUndisturbed, TellConfig, TellSession};
ghost use Rattle.caster_top.specs.Done.{WasDone};
ghost use Rattle.caster_top.specs.Given.{FileGave, InputGave};
ghost use Rattle.caster_top.specs.Outcome.{one_line};
ghost use Rattle.caster_top.specs.Recording.{HasRecorded};
ghost use Rattle.caster_top.specs.Told.{FilesTold, HaveCome, Holds, IsConfigAt, IsConfigFrom, IsSessionAt, IsSessionFrom, IsStatus, IsWhole, Tells};

/// Where the input tells its bytes, the report that was written is that of the script that they
/// are. A configuration, or a session, that a file gave is one that the file of that path holds,
/// where the files are told.
pub fn what_was_done_is_what_is_told()
    ensures report { (words : List (List ℕ)) (left : Option (List ℕ)) (first last : Log)
        (files : FilesTold) (opened closed : Log) (before after : StreetTold)
        (old new : Option (List ℕ))
        → WasDone words (InputGave left first last) (FileGave files opened closed) before after
        old new
        → (capacity : ℕ) (bytes : List ℕ) (events : List Event) → AreBare words capacity
        → left ≡ Some bytes → script_of Bare bytes ≡ Ok events
        → Appends old new (bare_report_text (bare capacity) events) }
    ensures config { (files : FilesTold) (first last : Log) (path : List ℕ) (c : Config)
        → IsConfigFrom (FileGave files first last) path c → IsConfigAt files path c }
    ensures session { (files : FilesTold) (first last : Log) (path : List ℕ) (c : Config)
        (events : List Event) → IsSessionFrom (FileGave files first last) path c events
        → IsSessionAt files path c events }
{}

/// What the outcome says of every call that meets the fact `outcome` of `caster`: the status is
/// one of 0 to 9. With 0 the words are of a form, and what came for them is whole: a script, or a
/// configuration, or both. A file that was to be checked, tabled or migrated holds a configuration,
/// and what was written is `ok`, its sourcetable, or a document of version 2 that is read as it.
pub fn outcome_says()
    ensures status { (call : CallTold) → MeetsOutcome call → IsStatus call.status }
    ensures whole { (call : CallTold) → MeetsOutcome call → call.status ≡ 0
        → HaveCome IsWhole call.words (Tells call.left) (Holds call.files) }
    ensures checked { (call : CallTold) → MeetsOutcome call → call.status ≡ 0
        → (path : List ℕ) → AreOver Check call.words path
        → (c : Config) × IsConfigAt call.files path c
        × Appends call.old call.new (one_line (codes "ok")) }
    ensures tabled { (call : CallTold) → MeetsOutcome call → call.status ≡ 0
        → (path : List ℕ) → AreOver Table call.words path
        → (c : Config) × IsConfigAt call.files path c
        × Appends call.old call.new (table_text (table_records c)) }
    ensures migrated { (call : CallTold) → MeetsOutcome call → call.status ≡ 0
        → (path : List ℕ) → AreOver Migrate call.words path
        → (c : Config) × (text : List ℕ) × IsConfigAt call.files path c
        × IsRead text (Ok c) × HasVersion 2 text × Appends call.old call.new text }
{}

/// Every call that meets the fact `undisturbed` of `caster` is complete: where what it reads is
/// told and whole, and no count of faults rose of what it uses, the status is 7, or 0 with exactly
/// what is to be written.
pub fn undisturbed_says()
    ensures complete { (call : CallTold) → MeetsUndisturbed call
        → (capacity : ℕ) (bytes : List ℕ) (events : List Event) → AreBare call.words capacity
        → call.left ≡ Some bytes → script_of Bare bytes ≡ Ok events
        → IsCalm call.input_faults → IsCalm call.output_faults
        → (call.status ≡ 7) ⊎ ((call.status ≡ 0)
        × Appends call.old call.new (bare_report_text (bare capacity) events)) }
    ensures complete_over { (call : CallTold) → MeetsUndisturbed call
        → (aim : ConfigCommand) (path : List ℕ) (c : Config)
        → AreOver aim call.words path → TellConfig call.files path c
        → IsCalm call.store_faults → IsCalm call.output_faults
        → (call.status ≡ 7) ⊎ (call.status ≡ 0) }
    ensures complete_replay { (call : CallTold) → MeetsUndisturbed call
        → (config session : List ℕ) (c : Config) (events : List Event)
        → AreReplay call.words config session
        → TellConfig call.files config c → TellSession call.files session c events
        → IsCalm call.store_faults → IsCalm call.output_faults
        → (call.status ≡ 7) ⊎ ((call.status ≡ 0) × (text : List ℕ) × IsRunText c events text
        × Appends call.old call.new text) }
    ensures complete_warm { (call : CallTold) → MeetsUndisturbed call
        → (config session : List ℕ) (c : Config) (events : List Event)
        → AreWarm call.words config session
        → TellConfig call.files config c → TellSession call.files session c events
        → IsCalm call.store_faults → IsCalm call.output_faults
        → (call.status ≡ 7) ⊎ ((call.status ≡ 0) × (text : List ℕ) × IsWarmText c events text
        × Appends call.old call.new text) }
    ensures complete_make { (call : CallTold) → MeetsUndisturbed call
        → (seed frames rovers : ℕ) → AreMake call.words seed frames rovers
        → IsCalm call.output_faults
        → (call.status ≡ 7) ⊎ ((call.status ≡ 0)
        × Appends call.old call.new (made_text seed frames rovers)) }
{}

/// What a caster's whole outcome says of every call that meets the fact `casting` of `caster`:
/// with 0 it served to its end, or recorded a session, over the configuration in its file, and
/// exactly its totals, or its script, was written. Where that file is told and a configuration, and
/// no count of faults rose, the status is 7 or 0.
pub fn casting_says()
    ensures served { (call : CallTold) → MeetsCasting call → call.status ≡ 0
        → (config addr : List ℕ) (limit : ℕ) → AreServe call.words config addr limit
        → (c : Config) × (closed : Closed) × IsConfigAt call.files config c
        × HasServed c addr limit call.before call.after (Ok closed)
        × Appends call.old call.new (closed_text c closed) }
    ensures recorded { (call : CallTold) → MeetsCasting call → call.status ≡ 0
        → (config addr : List ℕ) (limit : ℕ) → AreRecord call.words config addr limit
        → (c : Config) × (events : List Event) × IsConfigAt call.files config c
        × HasRecorded c addr limit call.before call.after events
        × Appends call.old call.new (script_text events) }
    ensures complete_cast { (call : CallTold) → MeetsCasting call
        → (task : CasterMode) (config addr : List ℕ) (limit : ℕ) (c : Config)
        → AreCasting task call.words config addr limit → TellConfig call.files config c
        → IsCalm call.store_faults → IsCalm call.output_faults
        → ¬ Rose call.before.faults call.after.faults → (call.status ≡ 7) ⊎ (call.status ≡ 0) }
{}
