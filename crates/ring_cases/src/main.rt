//! Known frames and streams, filters, and the ring of a mountpoint, by the public calls of their
//! crates.
//!
//! Each line of the standard input is a row: a call, and what it is given. A line of what it
//! answered is printed for it. A line `== NAME` stands in front of the rows of one case, and is
//! printed too. Lines that begin with `#`, and empty ones, are for the reader.
#![tactic(auto)]

mod claims;
mod filters;
mod frames;
mod printing;
mod rings;

use printing::put;
use std::alloc::AllocError;
use std::io;
use std::io::Write;

/// Answers a call on filters and rings.
fn ring_call(call: &str, rest: &str, out: &mut Vec<u8>) -> Result<(), AllocError> {
    match call {
        "filter" => filters::filter(rest, out),
        "filters" => filters::two_filters(out),
        "all-filters" => filters::all_filters(out),
        "ring" => rings::ring(rest, out),
        "claims" => claims::claims(out),
        "released" => claims::release_claim(out),
        "largest" => claims::largest(out),
        _ => put(out, "no such call"),
    }
}

/// Answers a call, of which those on frames are given bytes in hex digits.
fn answer(call: &str, rest: &str, out: &mut Vec<u8>) -> Result<(), AllocError> {
    match call {
        "checksum" => frames::checksum(rest, out),
        "frame" => frames::frame(rest, out),
        "shortest" => frames::shortest(out),
        "bytewise" => frames::bytewise(rest, out),
        "blockwise" => frames::blockwise(rest, out),
        "stepwise" => frames::stepwise(rest, out),
        _ => ring_call(call, rest, out),
    }
}

/// Appends what is printed for a row.
fn push_answer(row: &str, out: &mut Vec<u8>) -> Result<(), AllocError> {
    if row.is_empty() || row.starts_with('#') {
        return Ok(());
    }
    if row.starts_with("== ") {
        put(out, row)?;
    } else {
        let (call, rest) = row.split_once(' ').unwrap_or((row, ""));
        answer(call, rest, out)?;
    }
    put(out, "\n")
}

fn main(rt: HostRuntime) -> io::Result<()> {
    let input = io::read_to_string(rt.alloc(), rt.reader())?;
    let mut out = Vec::new(rt.alloc());
    for row in input.lines() {
        push_answer(row, &mut out)?;
    }
    io::writer(&rt).write_all(&out)
}
