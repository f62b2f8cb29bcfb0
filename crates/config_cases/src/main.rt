//! Reads configurations from the standard input, and prints what they say.
//!
//! A line that begins with `== ` stands in front of each case. In a document a line `*N TEXT`
//! stands for N copies of the text, in which `#` is the number of the copy, from 0, and `|` ends a
//! line.
//!
//! Of a document alone one line is printed: `ok`, or the line of its fault. What the line in front
//! of it says is for the reader: the line that is to be printed.
//!
//! A line that begins with `? ` asks something of the document below the questions; where there is
//! none, of the document of the case before, as `? again` left it. The line in front of such a case
//! is printed, and then the answers.
#![tactic(auto)]

mod admissions;
mod asking;
mod keys;
mod values;

use asking::{ask, push_asked};
use cast_text::push_decimal;
use std::alloc::{AllocError, Global};
use std::io;
use std::io::Write;

/// What a question begins with.
const QUESTION: &str = "? ";

/// Appends the text as the copy of this number.
fn push_copy(out: &mut Vec<u8>, text: &str, number: u32) -> Result<(), AllocError> {
    for byte in text.bytes() {
        match byte {
            b'#' => push_decimal(out, u128::from(number))?,
            b'|' => out.push(b'\n')?,
            other => out.push(other)?,
        }
    }
    Ok(())
}

/// Appends what the line stands for: a question for nothing, and a number that cannot be read for
/// no copy.
fn push_line(out: &mut Vec<u8>, line: &str) -> Result<(), AllocError> {
    if line.starts_with(QUESTION) {
        return Ok(());
    }
    let Some((count, text)) = line.strip_prefix('*').and_then(|line| line.split_once(' ')) else {
        return out.extend_from_slice(line.as_bytes());
    };
    for number in 0..count.parse::<u32>().unwrap_or(0) {
        push_copy(out, text, number)?;
    }
    Ok(())
}

/// The document that these lines stand for.
fn document_of(alloc: Global, lines: &str) -> Result<Vec<u8>, AllocError> {
    let mut document = Vec::new(alloc);
    for line in lines.split_inclusive('\n') {
        push_line(&mut document, line)?;
    }
    Ok(document)
}

/// Appends the answers to the questions among these lines.
fn push_answers(
    alloc: Global,
    out: &mut Vec<u8>,
    document: &mut Vec<u8>,
    lines: &str,
) -> Result<(), AllocError> {
    for line in lines.split('\n') {
        if let Some(question) = line.strip_prefix(QUESTION) {
            ask(alloc, out, document, question)?;
        }
    }
    Ok(())
}

/// Appends the line in front of a case.
fn push_heading(out: &mut Vec<u8>, heading: &str) -> Result<(), AllocError> {
    out.extend_from_slice(b"== ")?;
    out.extend_from_slice(heading.as_bytes())?;
    out.extend_from_slice(b"\n")
}

/// Appends what is printed of a case. The document stays for the questions of the cases below.
fn push_case(
    alloc: Global,
    out: &mut Vec<u8>,
    document: &mut Vec<u8>,
    case: &str,
) -> Result<(), AllocError> {
    let (heading, lines) = case.split_once('\n').unwrap_or((case, ""));
    let text = document_of(alloc, lines)?;
    if !lines.starts_with(QUESTION) {
        return push_asked(alloc, out, &text, "read");
    }
    if !text.is_empty() {
        *document = text;
    }
    push_heading(out, heading)?;
    push_answers(alloc, out, document, lines)
}

/// What is printed of all cases.
fn answers(alloc: Global, input: &str) -> Result<Vec<u8>, AllocError> {
    let mut document = Vec::new(alloc);
    let mut out = Vec::new(alloc);
    for case in input.split("\n== ").skip(1) {
        push_case(alloc, &mut out, &mut document, case)?;
    }
    Ok(out)
}

fn main(rt: HostRuntime) -> io::Result<()> {
    let input = io::read_to_string(rt.alloc(), rt.reader())?;
    let out = answers(rt.alloc(), &input)?;
    io::writer(&rt).write_all(&out)
}
