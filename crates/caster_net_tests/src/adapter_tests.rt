//! A reader whose reads fail, a writer that takes a byte a call, calls that are interrupted, and
//! files.
use cast_io::{Failed, Sink, Source, Store};
use caster_net::{FileStore, ReaderSource, WriterSink};
use std::io;
use std::io::{ErrorKind, Read, Write};

// A reader whose every read fails.
#[derive(Drop)]
struct Broken;

impl Read for Broken {
    fn read(&mut self, _buf: &mut [u8]) -> io::Result<usize> {
        Err(io::Error::from(ErrorKind::Other))
    }
}

// A writer that takes one byte a call, this many times, and then takes none.
#[derive(Drop)]
struct Narrow {
    left: usize,
}

impl Write for Narrow {
    fn write(&mut self, buf: &[u8]) -> io::Result<usize> {
        if self.left == 0 || buf.is_empty() {
            return Ok(0);
        }
        self.left -= 1;
        Ok(1)
    }

    fn flush(&mut self) -> io::Result<()> {
        Ok(())
    }
}

// A reader and a writer whose first calls are interrupted, this many.
// The next ones give or take one byte.
#[derive(Drop)]
struct Interrupted {
    left: usize,
}

impl Interrupted {
    // Whether this call is interrupted.
    fn is_now(&mut self) -> bool {
        let is_one = self.left > 0;
        self.left = self.left.saturating_sub(1);
        is_one
    }
}

impl Read for Interrupted {
    fn read(&mut self, buf: &mut [u8]) -> io::Result<usize> {
        if self.is_now() {
            return Err(io::Error::from(ErrorKind::Interrupted));
        }
        if buf.is_empty() { Ok(0) } else { Ok(1) }
    }
}

impl Write for Interrupted {
    fn write(&mut self, buf: &[u8]) -> io::Result<usize> {
        if self.is_now() {
            return Err(io::Error::from(ErrorKind::Interrupted));
        }
        if buf.is_empty() { Ok(0) } else { Ok(1) }
    }

    fn flush(&mut self) -> io::Result<()> {
        Ok(())
    }
}

#[test]
fn a_failed_read_of_the_reader_is_one_of_the_source(rt: HostRuntime) {
    let mut source = ReaderSource::new(Broken);
    let first = source.read(&mut [0u8; 8]);
    let second = source.read(&mut [0u8; 8]);
    assert_eq!(rt; (first, second), (Err(Failed), Err(Failed)));
}

#[test]
fn a_sink_writes_the_whole_piece_or_fails(rt: HostRuntime) {
    let mut sink = WriterSink::new(Narrow { left: 5 });
    for (piece, wanted) in [
        (b"abc".as_slice(), Ok(())),
        (b"def", Err(Failed)),
        (b"", Ok(())),
    ] {
        assert_eq!(rt; sink.write(piece), wanted);
    }
}

#[test]
fn a_read_that_is_interrupted_is_made_again(rt: HostRuntime) {
    let mut source = ReaderSource::new(Interrupted { left: 3 });
    let first = source.read(&mut [0u8; 8]);
    let second = source.read(&mut [0u8; 8]);
    assert_eq!(rt; (first, second), (Ok(1), Ok(1)));
}

#[test]
fn a_write_that_is_interrupted_is_made_again(rt: HostRuntime) {
    let mut sink = WriterSink::new(Interrupted { left: 3 });
    assert_eq!(rt; sink.write(b"abc"), Ok(()));
}

// Whether this file is opened, and what a read of the store gives then.
fn opened_in(store: &mut FileStore<'_>, path: &str) -> (bool, Result<usize, Failed>) {
    let is_open = store.open(path).is_ok();
    (is_open, store.read(&mut [0u8; 8]))
}

#[test]
fn a_store_reads_the_file_that_was_opened_last(rt: HostRuntime) {
    let mut store = FileStore::new(&rt);
    // A file that is not there leaves none to read; a folder is opened and not read.
    for (path, wanted) in [
        ("no such folder/no such file", (false, Ok(0))),
        (".", (true, Err(Failed))),
        ("/dev/null", (true, Ok(0))),
    ] {
        assert_eq!(rt; opened_in(&mut store, path), wanted);
    }
}
