//! What is decided by the configuration in a file.
ghost use Rattle.std.specs.Prelude.{◌≤◌, ◌<◌, ◌∷◌, [], ℕ, List, Ok, length, IfErr, IfOk, IsErrOf, ⊤};
ghost use Rattle.cast_io.specs.Causes.{Rose};
ghost use Rattle.cast_io.specs.Logs.{GoesOn};
ghost use Rattle.cast_io.specs.Told.{Grew};
ghost use Rattle.cast_config.specs.Document.{IsRead};
ghost use Rattle.cast_config.specs.Kept.{KeepsRules};
ghost use Rattle.config_write.specs.Written.{WasRead};
ghost use Rattle.caster_top.specs.Outcome.{IsDocumentOf, ending_of_config, exactly, exit_of_config_fault};
ghost use Rattle.caster_top.specs.Given.{FileCame};
ghost use Rattle.caster_top.specs.Kept.{KeepsFiles};
ghost use Rattle.caster_top.specs.Told.{IsConfigFrom};
ghost use Rattle.caster_top.specs.Answers.{GivesEnd, IsFileAnswer, IsGiven, IsRefusal, IsRefused};

use crate::answers::Answer;
use crate::command::ConfigCommand;
use cast_config::{Config, ConfigFault, read_config};
use cast_io::{ReadAllFault, Store, read_all};
use config_table::table_text;
use config_write::write_config;
use std::alloc::{AllocError, Global};

/// The most bytes that a configuration or a session has: 8 MiB.
const MAX_FILE_BYTES: usize = 8_388_608;

/// The answer to a command that does this with the configuration in the file of this path. The
/// store is asked for that file once.
pub fn answer_over<S: Store>(alloc: Global, aim: ConfigCommand, path: &str, store: &mut S) -> Answer
    ensures answer { IsFileAnswer aim path.now
        (FileCame (S.store store.old).files (S.log store.old) (S.log store.new))
        (Rose (S.faults store.old) (S.faults store.new)) result }
    ensures asked { Grew (S.store store.old).asked (S.store store.new).asked (path.now ∷ []) }
    ensures kept { KeepsFiles S.store S.faults S.reads 8388610 store.old store.new }
{
    match config_at(alloc, path, store) {
        Ok(config) => answer_to_config(alloc, aim, &config),
        Err(answer) => answer,
    }
}

/// The configuration in the file of this path, for which the store is asked once.
///
/// # Errors
/// The answer where it is not to be had: a fault of reading, too many bytes, want of memory, or the
/// line of the fault.
pub fn config_at<S: Store>(alloc: Global, path: &str, store: &mut S) -> Result<Config, Answer>
    ensures config { IfOk result (IsConfigFrom
        (FileCame (S.store store.old).files (S.log store.old) (S.log store.new)) path.now) }
    ensures keeps { IfOk result (KeepsRules 1000000) }
    ensures refused { IfErr result (IsRefusal path.now
        (FileCame (S.store store.old).files (S.log store.old) (S.log store.new))
        (Rose (S.faults store.old) (S.faults store.new))) }
    ensures on { GoesOn (S.log store.old) (S.log store.new) }
    ensures asked { Grew (S.store store.old).asked (S.store store.new).asked (path.now ∷ []) }
    ensures kept { KeepsFiles S.store S.faults S.reads 8388610 store.old store.new }
{
    match read_file(alloc, path, store) {
        Ok(bytes) => config_of(alloc, &bytes),
        Err(fault) => Err(Answer::of_read_fault(fault)),
    }
}

/// All bytes of the file of this path, at most 8 MiB. The store is asked for it once.
///
/// # Errors
/// `Failed` where a call of the store failed, `Long` where there are more bytes, or `Memory`.
pub fn read_file<S: Store>(
    alloc: Global,
    path: &str,
    store: &mut S,
) -> Result<Vec<u8>, ReadAllFault>
    ensures whole { IfOk result (λ v. FileCame (S.store store.old).files
        (S.log store.old) (S.log store.new) path.now v.items) }
    ensures within { IfOk result (λ v. length v.items ≤ 8388608) }
    ensures long { IsErrOf result ReadAllFault.Long → (bytes : List ℕ)
        × FileCame (S.store store.old).files (S.log store.old) (S.log store.new) path.now bytes
        × (8388608 < length bytes) }
    ensures on { GoesOn (S.log store.old) (S.log store.new) }
    ensures failed { IsErrOf result ReadAllFault.Failed
        → Rose (S.faults store.old) (S.faults store.new) }
    ensures asked { Grew (S.store store.old).asked (S.store store.new).asked (path.now ∷ []) }
    ensures kept { KeepsFiles S.store S.faults S.reads 8388610 store.old store.new }
{
    let Ok(()) = store.open(path) else {
        return Err(ReadAllFault::Failed);
    };
    read_all(alloc, store, MAX_FILE_BYTES)
}

// The configuration that these bytes say, which are no more than one may have.
fn config_of(alloc: Global, bytes: &[u8]) -> Result<Config, Answer>
    requires { length bytes.now ≤ 8388608 }
    ensures read { IfOk result (λ config. IsRead bytes.now (Ok config)) }
    ensures keeps { IfOk result (KeepsRules 1000000) }
    ensures refused { IfErr result (IsGiven ⊤ ⊥ (IsRefused bytes.now)) }
{
    match read_config(alloc, bytes) {
        Ok(config) => Ok(config),
        Err(fault) => Err(answer_to_fault(alloc, &fault)),
    }
}

// The answer to bytes that have this fault.
fn answer_to_fault(alloc: Global, fault: &ConfigFault) -> Answer
    ensures { GivesEnd (exactly (exit_of_config_fault fault.now)) result }
{
    if matches!(fault, ConfigFault::Memory) {
        return Answer::Memory;
    }
    let mut line = Vec::new(alloc);
    match fault.push_line(&mut line) {
        Ok(()) => Answer::NoConfig(line),
        Err(AllocError) => Answer::Memory,
    }
}

// The answer to this configuration.
fn answer_to_config(alloc: Global, aim: ConfigCommand, config: &Config) -> Answer
    requires keeps { KeepsRules 1000000 config.now }
    requires was_read { WasRead config.now }
    ensures { GivesEnd (ending_of_config aim config.now) result }
{
    match aim {
        ConfigCommand::Check => Answer::Valid,
        ConfigCommand::Table => match table_text(alloc, config) {
            Ok(text) => Answer::Done(text),
            Err(AllocError) => Answer::Memory,
        },
        ConfigCommand::Migrate => match document(alloc, config) {
            Ok(text) => Answer::Done(text),
            Err(AllocError) => Answer::Memory,
        },
    }
}

// A document of version 2 that says the configuration.
fn document(alloc: Global, config: &Config) -> Result<Vec<u8>, AllocError>
    requires { WasRead config.now }
    ensures { IfOk result (λ text. IsDocumentOf config.now text.items) }
{
    let mut text = Vec::new(alloc);
    write_config(config, &mut text)?;
    Ok(text)
}
