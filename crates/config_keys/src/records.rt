//! Lines of the sourcetable that the file gives whole.

ghost use Rattle.std.specs.Prelude.{◌≡◌, [], map};
ghost use Rattle.config_keys.specs.Answers.{Gives, GivesBy};
ghost use Rattle.config_keys.specs.Records.{fault_at, record_at, records};
ghost use Rattle.config_keys.specs.Lists.{each_of};
ghost use Rattle.config_keys.specs.Rules.{optional, seen};
ghost use Rattle.toml.specs.View.{view};

use crate::fault::KeyFault;
use crate::key::Key;
use crate::lists::texts;
use crate::strings::bytes_of;
use sourcetable::{Kind, Record, RecordFault, read_record};
use std::alloc::Global;
use toml::Value;

/// Why a line is refused that is no record.
fn fault_at(key: Key, fault: RecordFault) -> KeyFault
    ensures { result ≡ fault_at key fault }
{
    match fault {
        RecordFault::Memory => KeyFault::Memory,
        RecordFault::Kind => KeyFault::Range(key),
        RecordFault::Fields => KeyFault::Range(key),
        RecordFault::Byte(_) => KeyFault::Range(key),
    }
}

/// The record of a caster or a network that a line is.
fn record_of(alloc: Global, line: &str, key: Key) -> Result<Record, KeyFault>
    ensures { Gives result (record_at key line.now) }
{
    let line = bytes_of(line);
    if line.len() > 1000 {
        return Err(KeyFault::Range(key));
    }
    match read_record(alloc, line) {
        Ok(record) => match record.kind {
            Kind::Str => Err(KeyFault::Range(key)),
            Kind::Cas => Ok(record),
            Kind::Net => Ok(record),
        },
        Err(fault) => Err(fault_at(key, fault)),
    }
}

fn each_record(alloc: Global, lines: &[&str], key: Key) -> Result<Vec<Record>, KeyFault>
    ensures { GivesBy (λ v. v.items) result
        (each_of (record_at key) [] (map (λ t. t.now) lines.now)) }
{
    let mut records = Vec::new(alloc);
    for line in lines {
        let record = record_of(alloc, line, key)?;
        records.push(record)?;
    }
    Ok(records)
}

#[tactic(auto, unfolding(crate::specs::Records::records))]
fn records_of(alloc: Global, value: &Value, key: Key) -> Result<Vec<Record>, KeyFault>
    ensures { GivesBy (λ v. v.items) result (records key (view value.now)) }
{
    let lines = texts(alloc, value, key)?;
    if lines.len() > 64 {
        return Err(KeyFault::Range(key));
    }
    each_record(alloc, &lines, key)
}

/// The records of the lines that stand at a key; none where the key is not there.
pub fn records_or(alloc: Global, value: Option<&Value>, key: Key) -> Result<Vec<Record>, KeyFault>
    ensures { GivesBy (λ v. v.items) result (optional [] records key (seen value.entry)) }
{
    match value {
        None => Ok(Vec::new(alloc)),
        Some(value) => records_of(alloc, value, key),
    }
}
