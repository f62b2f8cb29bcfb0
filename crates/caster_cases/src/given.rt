//! What a call is given: its words, its files and its input, and what fails.
use crate::gates::lodge_of;
use crate::links::street_of;
use crate::numbers::number;
use crate::parts::Case;
use cast_console::MemLodge;
use cast_io::{ByteString, MemSink, MemSource, MemStore, MemStreet};
use std::alloc::{AllocError, Global};

/// What a call is given in memory.
#[derive(Drop)]
pub struct Given {
    /// The files.
    pub store: MemStore,
    /// The input.
    pub input: MemSource,
    /// The output.
    pub out: MemSink,
    /// The street.
    pub street: MemStreet,
    /// The lodge.
    pub lodge: MemLodge,
}

/// What a call of the case is given, of which these fail.
pub fn given_of(alloc: Global, case: &Case<'_>, fails: &Fails) -> Result<Given, AllocError> {
    Ok(Given {
        store: store_of(alloc, case, fails.call)?,
        input: source_of(alloc, case, fails.read)?,
        out: MemSink::torn(alloc, vec![in alloc; fails.write]?),
        street: street_of(alloc, case)?,
        lodge: lodge_of(alloc, case)?,
    })
}

/// What fails in a call, each by its number from 1; 0 is none.
#[derive(Drop)]
pub struct Fails {
    /// A read of the input.
    pub read: u64,
    /// A call of the store.
    pub call: u64,
    /// A write, and how many bytes it takes.
    pub write: (u64, u64),
}

/// Nothing fails.
pub const NOTHING: Fails = Fails {
    read: 0,
    call: 0,
    write: (0, 0),
};

/// What fails in each call of the case.
pub fn fails_of(alloc: Global, case: &Case<'_>) -> Result<Vec<Fails>, AllocError> {
    let mut all = Vec::new(alloc);
    if let Some(calls) = case.setting("failing") {
        push_calls(&mut all, number(calls))?;
    }
    if case.setting("torn").is_some() {
        push_writes(&mut all)?;
    }
    if all.is_empty() {
        all.push(one_failure(case))?;
    }
    Ok(all)
}

/// Appends each of the first calls of the store, and one more.
fn push_calls(all: &mut Vec<Fails>, calls: u64) -> Result<(), AllocError> {
    for call in 0..calls.saturating_add(1) {
        all.push(Fails {
            call: call + 1,
            ..NOTHING
        })?;
    }
    Ok(())
}

/// Appends the first write after no byte, one byte and all of them, and the second.
fn push_writes(all: &mut Vec<Fails>) -> Result<(), AllocError> {
    for write in [(1, 0), (1, 1), (1, u64::MAX), (2, 0)] {
        all.push(Fails { write, ..NOTHING })?;
    }
    Ok(())
}

/// What the lines say that fails.
fn one_failure(case: &Case<'_>) -> Fails {
    let (write, most) = case
        .setting("write")
        .and_then(|write| write.split_once(' '))
        .unwrap_or(("0", "0"));
    Fails {
        read: number(case.setting("read").unwrap_or("0")),
        call: 0,
        write: (number(write), number(most)),
    }
}

/// These words, in which `''` is one without bytes and `\r` is CR.
pub fn words_of(alloc: Global, words: &str) -> Result<Vec<String>, AllocError> {
    let mut all = Vec::new(alloc);
    for word in words.split_whitespace() {
        all.push(word_of(alloc, word)?)?;
    }
    Ok(all)
}

fn word_of(alloc: Global, word: &str) -> Result<String, AllocError> {
    if word == "''" {
        return Ok(String::new(alloc));
    }
    word.replace(alloc, "\\r", "\r")
}

/// The store of the case. The call of this number fails.
fn store_of(alloc: Global, case: &Case<'_>, call: u64) -> Result<MemStore, AllocError> {
    let files = files_of(alloc, case)?;
    Ok(MemStore::new(alloc, files, vec![in alloc; call]?))
}

/// The files of the case, `a` and `s`, and behind them another `a`; none where it has none.
fn files_of(alloc: Global, case: &Case<'_>) -> Result<Vec<(ByteString, ByteString)>, AllocError> {
    let mut files = Vec::new(alloc);
    for word in ["a", "s"] {
        if let Some(content) = case.content(alloc, word)? {
            push_file(alloc, &mut files, word, content)?;
        }
    }
    if !files.is_empty() {
        push_file(alloc, &mut files, "a", b"=".to_vec(alloc)?)?;
    }
    Ok(files)
}

/// Appends a file of this path.
fn push_file(
    alloc: Global,
    files: &mut Vec<(ByteString, ByteString)>,
    path: &str,
    content: Vec<u8>,
) -> Result<(), AllocError> {
    let path = ByteString::copy_of(alloc, path.as_bytes())?;
    files.push((path, ByteString::new(content)))?;
    Ok(())
}

/// The input of the case, whose read of this number fails.
fn source_of(alloc: Global, case: &Case<'_>, read: u64) -> Result<MemSource, AllocError> {
    let bytes = case.content(alloc, "input")?.unwrap_or(Vec::new(alloc));
    Ok(MemSource::new(bytes, vec![in alloc; read]?))
}
