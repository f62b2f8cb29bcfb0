//! What is asked of a document.

ghost use Rattle.std.specs.Prelude.{◌≤◌, ◌+◌, length};
ghost use Rattle.cast_config.specs.Kept.{KeepsRules};
ghost use Rattle.cast_config.specs.Served.{GivesItsFilters};

use crate::admissions::{push_bare_rover, push_rover, push_source};
use crate::keys::push_keys;
use crate::values::{push_part, push_types};
use cast_config::{Config, read_config};
use cast_text::push_decimal;
use config_table::table_text;
use config_write::write_config;
use std::alloc::{AllocError, Global};
use type_filter::Filters;

/// The document that is written of the configuration of this one, behind the line `# before`.
fn write_document(alloc: Global, document: &[u8]) -> Result<Vec<u8>, AllocError> {
    let mut text = Vec::from_slice(alloc, b"# before\n")?;
    match read_config(alloc, document) {
        Ok(config) => write_config(&config, &mut text)?,
        Err(fault) => fault.push_line(&mut text)?,
    }
    Ok(text)
}

/// The first line of the text, and those that begin with `version` or `types`.
fn push_some_lines(out: &mut Vec<u8>, text: &[u8]) -> Result<(), AllocError> {
    let text = str::from_utf8(text).unwrap_or("no text");
    let mut first = true;
    for line in text.split_inclusive('\n') {
        if first || line.starts_with("version") || line.starts_with("types") {
            out.extend_from_slice(line.as_bytes())?;
        }
        first = false;
    }
    Ok(())
}

/// The length of the sourcetable of the configuration, and its text.
fn push_table(alloc: Global, out: &mut Vec<u8>, config: &Config) -> Result<(), AllocError>
    requires { length config.now.mount + length config.now.near ≤ 64 }
{
    let text = table_text(alloc, config)?;
    push_decimal(out, text.len() as u128)?;
    out.extend_from_slice(b" bytes\n")?;
    out.extend_from_slice(&text)
}

fn push_bare_table(alloc: Global, out: &mut Vec<u8>) -> Result<(), AllocError> {
    let config = Config::bare(alloc, 4)?;
    push_table(alloc, out, &config)
}

/// Which frames the first group is given at each mountpoint.
fn push_given(out: &mut Vec<u8>, config: &Config) -> Result<(), AllocError>
    requires { GivesItsFilters config.now }
{
    for m in 0..64u32 {
        if (m as usize) < config.mount.as_slice().len() {
            push_first(out, config.filters(m))?;
        }
    }
    Ok(())
}

/// The filter of the first group.
fn push_first(out: &mut Vec<u8>, filters: &Filters) -> Result<(), AllocError> {
    if filters.len() == 0 {
        return out.extend_from_slice(b"no group\n");
    }
    out.extend_from_slice(b"given")?;
    push_types(out, filters.get(0))?;
    out.push(b'\n')?;
    Ok(())
}

/// Answers what is asked of the configuration.
fn push_answer(
    alloc: Global,
    out: &mut Vec<u8>,
    config: &Config,
    question: &str,
) -> Result<(), AllocError>
    requires { KeepsRules 1000000 config.now }
{
    let (word, words) = question.split_once(' ').unwrap_or((question, ""));
    match word {
        "read" => out.extend_from_slice(b"ok\n"),
        "table" => push_table(alloc, out, config),
        "given" => push_given(out, config),
        "rover" => push_rover(alloc, out, config, words),
        "source" => push_source(alloc, out, config, words),
        part => push_part(out, config, part),
    }
}

/// Answers what is asked of the document: `read` is what is printed of a document alone.
pub(crate) fn push_asked(
    alloc: Global,
    out: &mut Vec<u8>,
    document: &[u8],
    question: &str,
) -> Result<(), AllocError> {
    match read_config(alloc, document) {
        Ok(config) => push_answer(alloc, out, &config, question),
        Err(fault) => fault.push_line(out),
    }
}

fn write_again(alloc: Global, document: &mut Vec<u8>) -> Result<(), AllocError> {
    *document = write_document(alloc, document)?;
    Ok(())
}

/// Answers a question. `again` is none: what is asked below it is asked of the document that is
/// written of the configuration.
pub(crate) fn ask(
    alloc: Global,
    out: &mut Vec<u8>,
    document: &mut Vec<u8>,
    question: &str,
) -> Result<(), AllocError> {
    match question {
        "again" => write_again(alloc, document),
        "lines" => push_some_lines(out, document),
        "bare-table" => push_bare_table(alloc, out),
        "keys" => push_keys(alloc, out, document),
        asked => match asked.strip_prefix("bare-rover ") {
            Some(words) => push_bare_rover(alloc, out, words),
            None => push_asked(alloc, out, document, asked),
        },
    }
}
