//! A reader, a writer and the files of std as a source, a sink and a store. `main` puts standard
//! input, standard output and the file system into them. For contracts alone they have a record of
//! what those gave and took.
ghost use Rattle.std.specs.Prelude.{◌≡◌, ◌<◌, ◌≤◌, [], Some, None, length, take, unwrap_or, IfSome, OnOk, OnErr};
ghost use Rattle.std.specs.Io.{ReadsAtMost};
ghost use Rattle.std.specs.Io.KnownBytes.{Appends, ReadConsumes};
ghost use Rattle.cast_io.specs.Causes.{HasCause, next_count};
ghost use Rattle.cast_io.specs.Logs.{step_of_open, step_of_read};
ghost use Rattle.cast_io.specs.Pieces.{AppendsPrefix};
ghost use Rattle.cast_io.specs.Told.{Grew};
ghost use Rattle.caster_net.specs.Honest.{BothTake, IsHonestRead, IsHonestWrite, got_of_read};

use cast_io::{Failed, Journal, Sink, Source, SourceStep, Store};
use std::fs::File;
use std::io::{ErrorKind, Read, Write};
use std::marker::Model;

/// A source that reads from a reader of std, and counts its reads and its failures.
#[derive(Drop)]
pub struct ReaderSource<R> {
    reader: R,
    log: Journal<SourceStep<Journal<u8>>>,
    reads: u64,
    faults: u64,
}

impl<R> Model for ReaderSource<R> {
    ghost use Rattle.caster_net.specs.Told.{SourceState};

    ghost Value = { SourceState R };

    ghost view = { λ s. record {
      reader = s.reader;
      log = s.log;
      reads = s.reads;
      faults = s.faults;
    } };
}

impl<R: Read> ReaderSource<R> {
    /// A source that was not read yet.
    pub fn new(reader: R) -> Self
        ensures { result ≡ record { reader = reader; log = []; reads = 0; faults = 0 } }
    {
        ReaderSource {
            reader,
            log: Journal::new(),
            reads: 0,
            faults: 0,
        }
    }
}

impl<R: Read> Source for ReaderSource<R> {
    ghost use Rattle.std.specs.Prelude.{◌∷◌};

    ghost left = { λ s. R.remaining s.reader };

    ghost faults = { λ s. s.faults };

    ghost reads = { λ s. s.reads };

    ghost log = { λ s. Some s.log };

    fn read(&mut self, buf: &mut [u8]) -> Result<usize, Failed>
        requires { 0 < length buf.old }
        ensures bound { ReadsAtMost result buf.new }
        ensures bytes { ReadConsumes (R.remaining self.old.reader) (R.remaining self.new.reader)
            result buf.new }
        ensures cause { HasCause self.old.faults self.new.faults result }
        ensures counted { self.new.reads ≡ next_count self.old.reads }
        ensures logged { Grew (Some self.old.log) (Some self.new.log)
            (step_of_read result buf.new ∷ []) }

        // What is in the log is what the reader gave.
        ensures honest { IsHonestRead (R.remaining self.old.reader) (R.remaining self.new.reader)
            (got_of_read result) buf.new }
    {
        self.reads = self.reads.saturating_add(1);
        let answer = read_once(&mut self.reader, buf);
        if answer.is_err() {
            self.faults = self.faults.saturating_add(1);
        }
        self.log.add(&step_of(answer, buf));
        answer
    }
}

/// A sink that writes to a writer of std, and counts its failures. A write that takes no byte of a
/// piece that is not empty is one.
#[derive(Drop)]
pub struct WriterSink<W> {
    writer: W,
    taken: Journal<u8>,
    faults: u64,
}

impl<W> Model for WriterSink<W> {
    ghost use Rattle.caster_net.specs.Told.{SinkState};

    ghost Value = { SinkState W };

    ghost view = { λ s. record { writer = s.writer; taken = s.taken; faults = s.faults } };
}

impl<W> WriterSink<W> {
    /// How often a write failed.
    pub(crate) fn faults(&self) -> u64
        ensures { result ≡ self.now.faults }
    {
        self.faults
    }
}

impl<W: Write> WriterSink<W> {
    /// A sink that was not written to yet.
    pub fn new(writer: W) -> Self
        ensures { result ≡ record { writer = writer; taken = []; faults = 0 } }
    {
        WriterSink {
            writer,
            taken: Journal::new(),
            faults: 0,
        }
    }

    // One write of a piece that is not empty: how many bytes were taken, and None where none were.
    // One that a signal interrupted took none, and is tried again.
    fn write_some(&mut self, piece: &[u8]) -> Option<usize>
        ensures bound { IfSome result (λ count. (0 < count) × (count ≤ length piece.now)) }
        ensures both { BothTake (W.contents self.old.writer) (W.contents self.new.writer)
            self.old.taken self.new.taken (take (unwrap_or result 0) piece.now) }
        ensures faults { self.new.faults ≡ self.old.faults }
    {
        'tries: for _ in 0..u64::MAX {
            match self.writer.write(piece) {
                Ok(0) => return None,
                Ok(count) => {
                    self.taken.add_all(&piece[..count]);
                    return Some(count);
                }
                Err(fault) if fault.kind() == ErrorKind::Interrupted => {}
                Err(_) => return None,
            }
        }
        None
    }
}

impl<W: Write> Sink for WriterSink<W> {
    ghost taken = { λ s. Some s.taken };

    ghost faults = { λ s. s.faults };

    fn write(&mut self, piece: &[u8]) -> Result<(), Failed>
        ensures whole { OnOk result
            (Appends (Some self.old.taken) (Some self.new.taken) piece.now) }
        ensures torn { OnErr result
            (AppendsPrefix (Some self.old.taken) (Some self.new.taken) piece.now) }
        ensures cause { HasCause self.old.faults self.new.faults result }
        ensures unharmed { OnOk result (self.new.faults ≡ self.old.faults) }

        // What it tells as taken is what the writer took.
        ensures honest { IsHonestWrite (W.contents self.old.writer) (W.contents self.new.writer)
            self.old.taken self.new.taken result piece.now }
    {
        let mut at = 0;
        while at < piece.len() {
            let Some(count) = self.write_some(&piece[at..]) else {
                self.faults = self.faults.saturating_add(1);
                return Err(Failed);
            };
            at += count;
        }
        Ok(())
    }
}

/// A store of the file system's files, which counts its reads and its failures. A path is one of
/// the system, seen from the folder in which the program runs. A file is closed at its end.
#[derive(Drop)]
pub struct FileStore<'a> {
    rt: &'a HostRuntime,
    file: Option<File>,
    asked: Journal<Journal<u8>>,
    log: Journal<SourceStep<Journal<u8>>>,
    reads: u64,
    faults: u64,
}

impl<'a> Model for FileStore<'a> {
    ghost use Rattle.caster_net.specs.Told.{StoreState};

    ghost Value = { StoreState };

    ghost view = { λ s. record {
      asked = s.asked;
      log = s.log;
      reads = s.reads;
      faults = s.faults;
    } };
}

impl<'a> FileStore<'a> {
    /// A store that was not asked yet.
    pub fn new(rt: &'a HostRuntime) -> Self
        ensures { result ≡ record { asked = []; log = []; reads = 0; faults = 0 } }
    {
        FileStore {
            rt,
            file: None,
            asked: Journal::new(),
            log: Journal::new(),
            reads: 0,
            faults: 0,
        }
    }

    // Opens the file of this path, and counts a failure. The one that was open is closed.
    fn open_file(&mut self, path: &str) -> Result<(), Failed>
        ensures cause { HasCause self.old.faults self.new.faults result }
        ensures same { self.new ≡ record self.old { faults = self.new.faults } }
    {
        self.file = None;
        // Untied line: which file is opened.
        let Ok(file) = File::open(self.rt, path) else {
            self.faults = self.faults.saturating_add(1);
            return Err(Failed);
        };
        self.file = Some(file);
        Ok(())
    }
}

impl Source for FileStore<'_> {
    ghost left = { λ _. None };

    ghost faults = { λ s. s.faults };

    ghost reads = { λ s. s.reads };

    ghost store = { λ s. record { asked = Some s.asked; files = None } };

    ghost log = { λ s. Some s.log };

    fn read(&mut self, buf: &mut [u8]) -> Result<usize, Failed> {
        self.reads = self.reads.saturating_add(1);
        let answer = match &mut self.file {
            Some(file) => read_once(file, buf),
            None => Ok(0),
        };
        match answer {
            Ok(0) if !buf.is_empty() => self.file = None,
            Ok(_) => {}
            Err(Failed) => self.faults = self.faults.saturating_add(1),
        }
        self.log.add(&step_of(answer, buf));
        answer
    }
}

impl Store for FileStore<'_> {
    fn open(&mut self, path: &str) -> Result<(), Failed> {
        self.asked.add(&Journal::of_bytes(path.as_bytes()));
        let answer = self.open_file(path);
        self.log.add(&step_of_opening(answer, path));
        answer
    }
}

// One read of a reader into a buffer that is not empty. One that a signal interrupted took nothing,
// and is tried again.
fn read_once<R: Read>(reader: &mut R, buf: &mut [u8]) -> Result<usize, Failed>
    requires { 0 < length buf.old }
    ensures bound { ReadsAtMost result buf.new }
    ensures size { length buf.new ≡ length buf.old }
    ensures bytes { ReadConsumes (R.remaining reader.old) (R.remaining reader.new) result buf.new }
{
    'tries: for _ in 0..u64::MAX {
        match reader.read(buf) {
            Ok(count) => return Ok(count),
            Err(fault) if fault.kind() == ErrorKind::Interrupted => {}
            Err(_) => return Err(Failed),
        }
    }
    Err(Failed)
}

// The step of a read that answered this, with its buffer after it.
fn step_of(answer: Result<usize, Failed>, buf: &[u8]) -> SourceStep<Journal<u8>>
    requires { ReadsAtMost answer buf.now }
    ensures { result ≡ step_of_read answer buf.now }
{
    match answer {
        Ok(0) => SourceStep::End,
        Ok(count) => SourceStep::Bytes(Journal::of_bytes(&buf[..count])),
        Err(Failed) => SourceStep::Failed,
    }
}

// The step of an open of this path that answered this.
fn step_of_opening(answer: Result<(), Failed>, path: &str) -> SourceStep<Journal<u8>>
    ensures { result ≡ step_of_open answer path.now }
{
    match answer {
        Ok(()) => SourceStep::Opened(Journal::of_bytes(path.as_bytes())),
        Err(Failed) => SourceStep::Failed,
    }
}
