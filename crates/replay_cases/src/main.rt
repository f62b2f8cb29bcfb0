//! Plays recorded sessions from the standard input, and prints the report of each.
//!
//! A line `== NAME` stands in front of each case. The lines below it are its configuration, or, if
//! there are none, that of the case before it. Below a line `-- session` comes its script, as the
//! program reads it but for one thing: a line `text K TEXT` stands for bytes that come in on
//! connection K, in which `|` is a line's end, CR LF, and `^` is LF alone. Where the text begins
//! with `*N ` the rest of it comes N times.
#![tactic(auto)]

ghost use Rattle.std.specs.Prelude.{ℕ};
ghost use Rattle.cast_config.specs.Kept.{KeepsRules};

use cast_config::{Config, read_config};
use run_texts::run_text;
use session_script::{ScriptKind, parse};
use std::alloc::{AllocError, Global};
use std::io;
use std::io::Write;

/// Appends the bytes that a text stands for.
fn push_text(out: &mut Vec<u8>, text: &str) -> Result<(), AllocError> {
    for byte in text.bytes() {
        match byte {
            b'|' => out.extend_from_slice(b"\r\n")?,
            b'^' => out.push(b'\n')?,
            other => out.push(other)?,
        }
    }
    Ok(())
}

/// The bytes that a text stands for, which may come several times.
fn bytes_of(alloc: Global, text: &str) -> Result<Vec<u8>, AllocError> {
    let mut bytes = Vec::new(alloc);
    let Some((count, text)) = text.strip_prefix('*').and_then(|text| text.split_once(' ')) else {
        push_text(&mut bytes, text)?;
        return Ok(bytes);
    };
    for _ in 0..count.parse::<u32>().unwrap_or(0) {
        push_text(&mut bytes, text)?;
    }
    Ok(bytes)
}

/// Appends a line of a script as the program reads it.
fn push_line(alloc: Global, script: &mut Vec<u8>, line: &str) -> Result<(), AllocError> {
    let Some((number, text)) = line
        .strip_prefix("text ")
        .and_then(|line| line.split_once(' '))
    else {
        script.extend_from_slice(line.as_bytes())?;
        script.push(b'\n')?;
        return Ok(());
    };
    script.extend_from_slice(b"in ")?;
    script.extend_from_slice(number.as_bytes())?;
    script.push(b' ')?;
    script.extend_from_slice(hex::encode(alloc, &bytes_of(alloc, text)?)?.as_bytes())?;
    script.push(b'\n')?;
    Ok(())
}

/// The script that these lines stand for.
fn script_of(alloc: Global, lines: &str) -> Result<Vec<u8>, AllocError> {
    let mut script = Vec::new(alloc);
    for line in lines.lines() {
        push_line(alloc, &mut script, line)?;
    }
    Ok(script)
}

/// Appends the report of a script.
fn push_report(
    alloc: Global,
    config: &Config,
    script: &[u8],
    out: &mut Vec<u8>,
) -> Result<(), AllocError>
    requires { (cap : ℕ) × KeepsRules cap config.now }
{
    let relays = config.relay.as_slice().len() as u32;
    match parse(alloc, script, ScriptKind::Replay { relays }) {
        Ok(events) => out.extend_from_slice(&run_text(alloc, config, &events)?),
        Err(_) => out.extend_from_slice(b"no session\n"),
    }
}

/// What is printed of a configuration and a script.
fn answer(alloc: Global, config: &str, script: &str) -> Result<Vec<u8>, AllocError> {
    let mut out = Vec::new(alloc);
    match read_config(alloc, config.as_bytes()) {
        Ok(config) => push_report(alloc, &config, &script_of(alloc, script)?, &mut out)?,
        Err(fault) => fault.push_line(&mut out)?,
    }
    Ok(out)
}

fn main(rt: HostRuntime) -> io::Result<()> {
    let input = io::read_to_string(rt.alloc(), rt.reader())?;
    let mut out = io::writer(&rt);
    let mut config = "";
    for case in input.split("\n== ").skip(1) {
        let lines = case.split_once('\n').map_or("", |(_, lines)| lines);
        let (rules, script) = lines.split_once("-- session\n").unwrap_or(("", ""));
        if !rules.is_empty() {
            config = rules;
        }
        out.write_all(&answer(rt.alloc(), config, script)?)?;
    }
    Ok(())
}
