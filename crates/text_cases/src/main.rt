//! Known texts for the crates that read and write them, by their public calls: names, numbers,
//! lines, sourcetables, scripts, made sessions, GGA sentences, the nearest base, chunks, the heads
//! of requests, replies to them, requests to other casters and their answers.
//!
//! Each line of the standard input is a row: a call, perhaps with words behind a colon, then a
//! space, and a text. A line of what it answered is printed for it. A line `== NAME` stands in
//! front of the rows of one case, and is printed too. Lines that begin with `#`, and empty ones,
//! are for the reader.
//!
//! In a text `|` stands for CR LF and `^` for LF, `{:D300}` for the bytes of these hex digits, and
//! `{3 x@}` for three copies of what follows the number, in which `@` is the number of the copy,
//! from 1. What is printed is written the same way; a text of other bytes than these is printed in
//! hex digits as a whole.
#![tactic(auto)]

mod bases;
mod chunks;
mod heads;
mod making;
mod names;
mod numbers;
mod positions;
mod printing;
mod replies;
mod requests;
mod rows;
mod scripts;
mod tables;

use printing::put;
use rows::{bytes_of, parts};
use std::alloc::AllocError;
use std::io;
use std::io::Write;

/// Answers a call on names, texts, lines, numbers and scripts.
fn text_call(call: &str, words: &str, text: &[u8], out: &mut Vec<u8>) -> Result<(), AllocError> {
    match call {
        "mountpoint" => names::mountpoint(text, out),
        "user" => names::user(text, out),
        "group" => names::group(text, out),
        "is-name" => names::is_name_of(text, out),
        "text" => names::text(text, out),
        "lines" => names::lines(words, text, out),
        "decimal" => numbers::decimal(words, out),
        "hex" => numbers::hex(words, out),
        "make" => making::make_session(words, out),
        _ => put(out, "no such call"),
    }
}

/// Answers a call on scripts and sourcetables.
fn table_call(call: &str, words: &str, text: &[u8], out: &mut Vec<u8>) -> Result<(), AllocError> {
    match call {
        "script" => scripts::script(words, text, out),
        "events" => scripts::events(words, text, out),
        "rewrite" => scripts::rewrite(words, text, out),
        "record" => tables::record(text, out),
        "table" => tables::table(text, out),
        "again" => tables::again(text, out),
        "write" => tables::write(text, out),
        _ => text_call(call, words, text, out),
    }
}

/// Answers a call on positions, bases and chunks.
fn station_call(call: &str, words: &str, text: &[u8], out: &mut Vec<u8>) -> Result<(), AllocError> {
    match call {
        "gga" => positions::gga(text, out),
        "reports" => positions::reports(text, out),
        "measure" => bases::measure_positions(words, out),
        "select" => bases::select_base(words, out),
        "data" => chunks::data(text, out),
        "last" => chunks::last(text, out),
        "cuts" => chunks::cuts(text, out),
        "steps" => chunks::steps(text, out),
        "frame" => chunks::frame(text, out),
        _ => table_call(call, words, text, out),
    }
}

/// Answers a call.
fn call_with(call: &str, words: &str, text: &[u8], out: &mut Vec<u8>) -> Result<(), AllocError> {
    match call {
        "head" => heads::head(text, out),
        "head-end" => heads::head_end(text, out),
        "upstream" => heads::upstream(text, out),
        "reply" => replies::write_reply(words, text, out),
        "request" => requests::request(words, text, out),
        "answer" => requests::answer(text, out),
        "answer-at" => requests::answer_at(words, text, out),
        _ => station_call(call, words, text, out),
    }
}

/// Appends what is printed for a row.
fn push_answer(row: &str, out: &mut Vec<u8>) -> Result<(), AllocError> {
    if row.is_empty() || row.starts_with('#') {
        return Ok(());
    }
    if row.starts_with("== ") {
        put(out, row)?;
        return put(out, "\n");
    }
    let row = parts(row);
    let text = bytes_of(*out.allocator(), row.text)?;
    call_with(row.call, row.words, &text, out)?;
    put(out, "\n")
}

fn main(rt: HostRuntime) -> io::Result<()> {
    let input = io::read_to_string(rt.alloc(), rt.reader())?;
    let mut out = Vec::new(rt.alloc());
    for row in input.lines() {
        push_answer(row, &mut out)?;
    }
    io::writer(&rt).write_all(&out)
}
