//! Calls of the caster over files, an input, an output and a street in memory, read from the
//! standard input. What comes of each is printed.
//!
//! A line `== NAME` stands in front of a part, which is the lines below it, and a line
//! `== call NAME` in front of calls. In a part a line `raw TEXT` stands for the bytes of the text
//! alone, a line `text K TEXT` for the line `in K` of a script with these bytes, and a line
//! `sent TEXT` for the line `bytes` of a report; any other line stands for itself. In a text `|` is
//! a line's end, CR LF, and `^` is LF alone; digits behind ` +` are further bytes. Where it begins
//! with `*N ` the rest of it comes N times. The part `KEPT` is the text that was kept last.
//!
//! Below a line `== call NAME` stand what the calls are given, in any order, and their words:
//!
//! | Line | What it says |
//! |---|---|
//! | `words WORD..` | one call; `''` is a word without bytes, and `\r` in a word is CR |
//! | `a PART..` | the file `a`; behind it and the file `s` there is another `a` |
//! | `s PART..` | the file `s` |
//! | `input PART..` | the input |
//! | `read N`, `write N M` | this read of the input, and this write after M bytes, or `all`, fail |
//! | `torn` | four calls: the first write fails after no byte, one byte and all; then none fails |
//! | `failing N` | a call for each of the first N + 1 calls of the store, which fails |
//! | `door N.. ; LINK; LINK..` | a door whose accepts N fail, and the links that arrive at it |
//! | `dial LINK` | a link to be dialled |
//! | `street N..` | these calls of the street fail |
//! | `gate N.. ; LINK; LINK..` | a gate, as a door; it is over once its links have come |
//! | `over N` | each gate is over at the N-th time that it is asked, or at the first |
//! | `peers PEER..` | the peers of the first links of each gate; those of others are not told |
//! | `yard N..` | these calls for gates and for the place for lines fail |
//! | `notes !N:M..` | these writes to the place for lines fail, each after M bytes |
//! | `keep` | the text is kept and not printed |
//! | `against PART..` | how the text compares to these parts is printed |
//! | `among PAIR, PAIR..` | and `#` in them stands for one of these pairs of numbers |
//! | `faults` | the counts of the street's faults are printed |
//! | `plain` | one call, of which nothing is printed but what needs no memory |
//!
//! In a link a part is what its peer sends at once, `.N` is N times nothing, and `!N:M` says that
//! this write to it fails after M bytes. Behind the lines the lines of a file, of the input or of
//! what the text is compared to may stand, below a line `-- s`, `-- input` or `-- against`.
//!
//! Of each call its status is printed; its text, each line behind `| `, with CR as `\r`, a sign `\`
//! as `\\`, a byte that is no sign of ASCII as `\x` and its digits, and `\` where the last line has
//! no end; the lines that came back with the place for them, each behind `> `; the files that were
//! asked for; and what the street and its yard were asked for. In place of a text
//! that is compared stands `whole`, or `first N` where it is the first N bytes.
#![tactic(auto)]

mod gates;
mod given;
mod links;
mod logged;
mod numbers;
mod parts;
mod plain;
mod telling;

use given::{Fails, Given, fails_of, given_of, words_of};
use logged::logged_status;
use parts::{Case, case_of};
use plain::tell;
use std::alloc::{AllocError, Global};
use std::io;
use std::io::Write;
use std::sync::Wait;
use std::thread::Threads;
use telling::{Came, came_of, push_came};

/// What comes of these words, of which these calls fail.
fn run<R: Threads + Wait + Sync>(
    rt: &R,
    alloc: Global,
    case: &Case<'_>,
    words: &[String],
    fails: &Fails,
) -> Result<Came, AllocError> {
    let mut given = given_of(alloc, case, fails)?;
    let status = status_of(rt, alloc, words, &mut given);
    came_of(alloc, status, &given)
}

/// The status that the caster ends with.
fn status_of<R: Threads + Wait + Sync>(
    rt: &R,
    alloc: Global,
    words: &[String],
    given: &mut Given,
) -> u8 {
    logged_status(
        rt,
        alloc,
        words,
        &mut given.store,
        &mut given.input,
        &mut given.out,
        &mut given.street,
        &mut given.lodge,
    )
}

/// Appends what comes of these words, with each failure in turn, and gives the last text.
fn push_runs<R: Threads + Wait + Sync>(
    rt: &R,
    alloc: Global,
    case: &Case<'_>,
    words: &[String],
    out: &mut Vec<u8>,
) -> Result<Vec<u8>, AllocError> {
    let mut text = Vec::new(alloc);
    for fails in &fails_of(alloc, case)? {
        let came = run(rt, alloc, case, words, fails)?;
        push_came(alloc, out, case, &came)?;
        text = came.text;
    }
    Ok(text)
}

/// Appends what comes of each call of the case, and gives the last text.
fn push_case<R: Threads + Wait + Sync>(
    rt: &R,
    alloc: Global,
    case: &Case<'_>,
    out: &mut Vec<u8>,
) -> Result<Vec<u8>, AllocError> {
    let mut text = Vec::new(alloc);
    for line in case.settings.lines() {
        if let Some(words) = line.strip_prefix("words") {
            text = push_runs(rt, alloc, case, &words_of(alloc, words)?, out)?;
        }
    }
    Ok(text)
}

/// Appends the name of the case and what comes of its calls, and gives the last text where it is to
/// be kept.
fn push_block<R: Threads + Wait + Sync>(
    rt: &R,
    alloc: Global,
    case: &Case<'_>,
    out: &mut Vec<u8>,
) -> Result<Option<Vec<u8>>, AllocError> {
    for text in ["== ", case.name, "\n"] {
        out.extend_from_slice(text.as_bytes())?;
    }
    let text = push_case(rt, alloc, case, out)?;
    Ok(if case.keeps() { Some(text) } else { None })
}

fn main(rt: HostRuntime) -> io::Result<()> {
    let all = io::read_to_string(rt.alloc(), rt.reader())?;
    let mut out = io::writer(&rt);
    let mut kept = Vec::new(rt.alloc());
    for block in all.split("\n== call ").skip(1) {
        let mut told = Vec::new(rt.alloc());
        let case = case_of(&all, block, &kept);
        if case.setting("plain").is_some() {
            tell(&rt, rt.alloc(), &case)?;
        } else if let Some(text) = push_block(&rt, rt.alloc(), &case, &mut told)? {
            kept = text;
        }
        out.write_all(&told)?;
    }
    Ok(())
}
