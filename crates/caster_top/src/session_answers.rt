//! What is decided by a session, from the input or from a file.
ghost use Rattle.std.specs.Prelude.{◌≡◌, ◌≤◌, ◌+◌, ◌∷◌, [], ℕ, Some, length, IfOk, MatchResult};
ghost use Rattle.session_script.specs.declared.ScriptKind.TheVariants.{Bare, Replay};
ghost use Rattle.session_script.specs.Script.{script_of};
ghost use Rattle.cast_io.specs.Causes.{Rose};
ghost use Rattle.cast_io.specs.Logs.{GoesOn};
ghost use Rattle.cast_io.specs.Pieces.{Loses};
ghost use Rattle.cast_io.specs.Told.{Grew};
ghost use Rattle.cast_config.specs.Bare as settings;
ghost use Rattle.cast_config.specs.Kept.{KeepsRules};
ghost use Rattle.caster_replay.specs.Scripts.{IsKindFor, IsScriptFor};
ghost use Rattle.caster_top.specs.declared.command.RoverStart.TheVariants.{Cold};
ghost use Rattle.caster_top.specs.Command.{replay};
ghost use Rattle.caster_top.specs.Outcome.{IsReportText, exactly, ending_of_script, exit_of_fault};
ghost use Rattle.caster_top.specs.Given.{FileCame, InputCame};
ghost use Rattle.caster_top.specs.Kept.{KeepsFiles};
ghost use Rattle.caster_top.specs.Told.{IsAsked};
ghost use Rattle.caster_top.specs.Answers.{GivesEnd, IsInputAnswer, IsReplayAnswer, IsSessionAnswer};

use crate::answers::Answer;
use crate::command::RoverStart;
use crate::config_answers::{config_at, read_file};
use cast_config::Config;
use cast_io::{Source, Store, read_all};
use run_texts::{run_text, warm_text};
use session_script::{Event, ScriptFault, ScriptKind, parse};
use std::alloc::{AllocError, Global};

/// The most bytes that a script has: 8 MiB.
const MAX_SCRIPT_BYTES: usize = 8_388_608;

/// The answer to the bare script that the input is, over a ring of this capacity.
pub fn answer_to_input<I: Source>(alloc: Global, capacity: u32, input: &mut I) -> Answer
    requires { (1 ≤ capacity) × (capacity ≤ 4096) }
    ensures answer { IsInputAnswer capacity
        (InputCame (I.left input.old) (I.log input.old) (I.log input.new))
        (Rose (I.faults input.old) (I.faults input.new)) result }
    ensures later { I.faults input.old ≤ I.faults input.new }
    ensures reads { Loses (λ came. I.reads input.new ≤ I.reads input.old + length came + 1)
        (I.left input.old) (I.left input.new) }
{
    match read_all(alloc, input, MAX_SCRIPT_BYTES) {
        Ok(bytes) => answer_to_bare(alloc, capacity, &bytes),
        Err(fault) => Answer::of_read_fault(fault),
    }
}

/// The answer to the session in the file of this path, whose rovers start by `start`, over the
/// configuration in another. The store is asked for each once, and for the session only where the
/// configuration is one.
pub fn answer_to_replay<S: Store>(
    alloc: Global,
    start: RoverStart,
    config: &str,
    session: &str,
    store: &mut S,
) -> Answer
    ensures answer { IsReplayAnswer start config.now session.now
        (FileCame (S.store store.old).files (S.log store.old) (S.log store.new))
        (Rose (S.faults store.old) (S.faults store.new)) result }
    ensures asked { IsAsked (Some (replay start config.now session.now)) (S.store store.old).files
        (S.store store.old).asked (S.store store.new).asked }
    ensures kept { KeepsFiles S.store S.faults S.reads 16777220 store.old store.new }
{
    match config_at(alloc, config, store) {
        Ok(config) => answer_to_session(alloc, start, &config, session, store),
        Err(answer) => answer,
    }
}

// The answer to the session in the file of this path over this configuration.
fn answer_to_session<S: Store>(
    alloc: Global,
    start: RoverStart,
    config: &Config,
    path: &str,
    store: &mut S,
) -> Answer
    requires { KeepsRules 1000000 config.now }
    ensures answer { IsSessionAnswer start config.now path.now
        (FileCame (S.store store.old).files (S.log store.old) (S.log store.new))
        (Rose (S.faults store.old) (S.faults store.new)) result }
    ensures on { GoesOn (S.log store.old) (S.log store.new) }
    ensures asked { Grew (S.store store.old).asked (S.store store.new).asked (path.now ∷ []) }
    ensures kept { KeepsFiles S.store S.faults S.reads 8388610 store.old store.new }
{
    match read_file(alloc, path, store) {
        Ok(bytes) => answer_to_script(alloc, start, config, kind_for(config), &bytes),
        Err(fault) => Answer::of_read_fault(fault),
    }
}

// The answer to a bare script of these bytes, which are no more than a script may have.
fn answer_to_bare(alloc: Global, capacity: u32, bytes: &[u8]) -> Answer
    requires capacity { (1 ≤ capacity) × (capacity ≤ 4096) }
    requires size { length bytes.now ≤ 8388608 }
    ensures { GivesEnd (ending_of_script Cold (settings.bare capacity) (script_of Bare bytes.now))
        result }
{
    match Config::bare(alloc, capacity) {
        Ok(config) => answer_to_script(alloc, RoverStart::Cold, &config, ScriptKind::Bare, bytes),
        Err(AllocError) => Answer::Memory,
    }
}

// What a session over this configuration may have: its relays.
fn kind_for(config: &Config) -> ScriptKind
    requires { KeepsRules 1000000 config.now }
    ensures { result ≡ Replay (length config.now.relay) }
{
    ScriptKind::Replay {
        relays: config.relay.as_slice().len() as u32,
    }
}

// The answer to a script of these bytes, which are no more than one may have, over a configuration.
fn answer_to_script(
    alloc: Global,
    start: RoverStart,
    config: &Config,
    kind: ScriptKind,
    bytes: &[u8],
) -> Answer
    requires kept { (cap : ℕ) × KeepsRules cap config.now }
    requires kind { IsKindFor config.now kind }
    requires size { length bytes.now ≤ 8388608 }
    ensures { GivesEnd (ending_of_script start config.now (script_of kind bytes.now)) result }
{
    let events = match parse(alloc, bytes, kind) {
        Ok(events) => events,
        Err(fault) => return answer_to_fault(alloc, &fault),
    };
    match report_of(alloc, start, config, &events) {
        Ok(text) => Answer::Done(text),
        Err(AllocError) => Answer::Memory,
    }
}

// The report of these events over this configuration, as text.
fn report_of(
    alloc: Global,
    start: RoverStart,
    config: &Config,
    events: &[Event],
) -> Result<Vec<u8>, AllocError>
    requires kept { (cap : ℕ) × KeepsRules cap config.now }
    requires script { IsScriptFor config.now events.now }
    ensures { IfOk result (λ text. IsReportText start config.now events.now text.items) }
{
    match start {
        RoverStart::Cold => run_text(alloc, config, events),
        RoverStart::Warm => warm_text(alloc, config, events),
    }
}

// The answer to a script that has this fault.
fn answer_to_fault(alloc: Global, fault: &ScriptFault) -> Answer
    ensures { GivesEnd (exactly (exit_of_fault fault.now)) result }
{
    match fault {
        ScriptFault::Line(number) => answer_of(format!(in alloc; "session: line {number}\n")),
        ScriptFault::State(number) => answer_of(format!(in alloc; "session: state {number}\n")),
        ScriptFault::NoStop => answer_of(String::from_str(alloc, "session: no stop\n")),
        ScriptFault::Long => Answer::Long,
        ScriptFault::Memory => Answer::Memory,
    }
}

// The answer that this line says why the input is no session.
fn answer_of(line: Result<String, AllocError>) -> Answer
    ensures { MatchResult line (λ text. result ≡ Answer.NoSession text.bytes)
        (λ _. result ≡ Answer.Memory) }
{
    match line {
        Ok(text) => Answer::NoSession(text.into_bytes()),
        Err(AllocError) => Answer::Memory,
    }
}
