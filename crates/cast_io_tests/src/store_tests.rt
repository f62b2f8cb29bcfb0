//! Runs of a store in memory: files by their paths, and calls that fail.
use crate::expecting::expect_eq;
use crate::runs::{read_source, say, say_taken};
use cast_io::{ByteString, MemStore, Store, read_all};
use std::alloc::{AllocError, Global};
use std::test::Fail;

// Adds a file to these.
fn push_file(
    alloc: Global,
    files: &mut Vec<(ByteString, ByteString)>,
    path: &[u8],
    content: &[u8],
) -> Result<(), Fail> {
    let path = ByteString::copy_of(alloc, path)?;
    let content = ByteString::copy_of(alloc, content)?;
    files.push((path, content))?;
    Ok(())
}

// A store of two files, of which the first path comes twice.
fn store_of(alloc: Global, fails: &[u64]) -> Result<MemStore, Fail> {
    let mut files = Vec::new(alloc);
    push_file(alloc, &mut files, b"a", b"abcde")?;
    push_file(alloc, &mut files, b"b", b"xy")?;
    push_file(alloc, &mut files, b"a", b"later")?;
    Ok(MemStore::new(alloc, files, fails.to_vec(alloc)?))
}

// All that is left to read of the file that was opened last, at most nine bytes.
fn say_all(alloc: Global, store: &mut MemStore, out: &mut Vec<u8>) -> Result<(), AllocError> {
    match read_all(alloc, store, 9) {
        Ok(all) => say(out, &all),
        Err(_) => say(out, b"fault"),
    }
}

// What these calls of a store answer. A number is a read of so many bytes, `all` reads all that is
// left, and any other word is a path that is opened.
fn run(alloc: Global, store: &mut MemStore, calls: &str) -> Result<Vec<u8>, AllocError> {
    let mut out = Vec::new(alloc);
    for call in calls.split(' ') {
        match call.parse::<usize>() {
            Ok(size) => read_source(store, size, &mut out)?,
            Err(_) if call == "all" => say_all(alloc, store, &mut out)?,
            Err(_) => say_taken(&mut out, store.open(call))?,
        }
    }
    Ok(out)
}

// The same of a store all of whose calls are taken.
fn plain_run(alloc: Global, calls: &str) -> Result<Vec<u8>, Fail> {
    let mut store = store_of(alloc, &[])?;
    Ok(run(alloc, &mut store, calls)?)
}

// Before the first `open` there is nothing to read.
#[test]
fn the_file_opened_last_is_read_from_its_first_byte(rt: HostRuntime) -> Result<(), Fail> {
    let told = plain_run(rt.alloc(), "3 a 3 b 3 a 8")?;
    expect_eq(&rt, told.as_slice(), b" ok abc ok xy ok abcde ".as_slice());
    Ok(())
}

#[test]
fn the_first_file_of_a_path_is_read(rt: HostRuntime) -> Result<(), Fail> {
    expect_eq(
        &rt,
        plain_run(rt.alloc(), "b a all")?.as_slice(),
        b"ok ok abcde ".as_slice(),
    );
    Ok(())
}

#[test]
fn nothing_is_left_after_a_refused_open(rt: HostRuntime) -> Result<(), Fail> {
    expect_eq(
        &rt,
        plain_run(rt.alloc(), "b c 3")?.as_slice(),
        b"ok failed  ".as_slice(),
    );
    Ok(())
}

// The paths that were asked for, refused ones too.
fn paths(alloc: Global) -> Result<Vec<ByteString>, Fail> {
    let mut paths = Vec::new(alloc);
    paths.push(ByteString::copy_of(alloc, b"a")?)?;
    paths.push(ByteString::copy_of(alloc, b"b")?)?;
    Ok(paths)
}

// A run of which the second and the fourth call fail, a read, which takes nothing, and an `open`:
// its answers, and whether the store tells just the paths that were asked for.
fn failing_run(alloc: Global) -> Result<(Vec<u8>, bool), Fail> {
    let mut store = store_of(alloc, &[2, 4])?;
    let answers = run(alloc, &mut store, "a 8 8 b 8")?;
    let wanted = paths(alloc)?;
    Ok((answers, store.asked() == Some(wanted.as_slice())))
}

#[test]
fn calls_of_a_store_fail_by_their_number(rt: HostRuntime) -> Result<(), Fail> {
    let (answers, told) = failing_run(rt.alloc())?;
    expect_eq(
        &rt,
        answers.as_slice(),
        b"ok failed abcde failed  ".as_slice(),
    );
    assert!(rt; told);
    Ok(())
}
