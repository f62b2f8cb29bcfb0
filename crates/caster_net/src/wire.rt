//! What a link reads and writes, over any stream of std, and the record of it.
ghost use Rattle.std.specs.Prelude.{◌≡◌, ◌<◌, ◌≤◌, [], length, option_map, take, unwrap_or, IfSome, OnOk};
ghost use Rattle.cast_io.specs.Links.{IsGot, HasRead, HasWritten};
ghost use Rattle.caster_net.specs.Honest.{IsHonestRead, IsHonestWrite, Means};
ghost use Rattle.caster_net.specs.Rooms.{AreTold, measured};
ghost use Rattle.caster_net.specs.Told.{new_wire, wire_told};
ghost use Rattle.caster_net.specs.declared.keep.Cut.TheVariants as cuts;

use crate::heed::Heed;
use crate::keep::Cut;
use crate::notes::{StepNote, step_of_read};
use crate::waiting::{MAX_REST, count_fault, would_wait};
use cast_io::{Failed, Got, Journal};
use std::io;
use std::io::{Read, Write};
use std::marker::Model;
use std::os::fd::{AsRawFd, RawFd};

/// A stream, and how often it failed. For contracts alone it has a record of what its reads
/// answered and of the bytes that its writes took, which costs nothing.
#[derive(Drop)]
pub struct Wire<S> {
    stream: S,
    steps: Journal<StepNote>,
    bytes: Journal<u8>,
    faults: u64,
}

impl<S> Model for Wire<S> {
    ghost use Rattle.std.specs.Prelude.{map};
    ghost use Rattle.caster_net.specs.Told.{WireState};

    ghost Value = { WireState S };

    ghost use Rattle.caster_net.specs.Notes.{step_noted};

    ghost view = { λ w. record {
      stream = w.stream;
      taken = map step_noted w.steps;
      bytes = w.bytes;
      faults = w.faults;
    } };
}

impl<S> Wire<S> {
    /// A wire over this stream, with an empty record.
    pub fn over(stream: S) -> Self
        ensures { result ≡ new_wire stream }
    {
        Wire {
            stream,
            steps: Journal::new(),
            bytes: Journal::new(),
            faults: 0,
        }
    }

    /// The stream.
    pub(crate) fn stream(&self) -> &S
        ensures { result.now ≡ self.now.stream }
    {
        &self.stream
    }

    /// How often a read or a write failed.
    pub fn faults(&self) -> u64
        ensures { result ≡ self.now.faults }
    {
        self.faults
    }

    /// The stream alone. What is read of it and written to it then is in no record.
    pub fn into_stream(self) -> S
        ensures { result ≡ self.stream }
    {
        let Wire { stream, .. } = self;
        stream
    }
}

impl<S: AsRawFd> Wire<S> {
    /// The descriptor of the stream.
    pub(crate) fn fd(&self) -> RawFd
        ensures number { IfSome (S.raw_fd self.now.stream) (λ fd. result ≡ fd) }
    {
        self.stream.as_raw_fd()
    }
}

impl<S: Read> Wire<S> {
    /// Fills the front of a buffer, which is not empty, by one read of the stream.
    pub fn read(&mut self, buf: &mut [u8]) -> Got
        requires { 0 < length buf.old }
        ensures bound { IsGot result (length buf.old) }
        ensures read { HasRead (wire_told self.old) (wire_told self.new) result buf.new }
        ensures honest { IsHonestRead (S.remaining self.old.stream) (S.remaining self.new.stream)
            result buf.new }
    {
        let got = read_once(&mut self.stream, buf);
        self.note(got, buf);
        got
    }
}

impl<S> Wire<S> {
    /// A read of a wire that is read no more: at a stop the end is answered, as if the peer had
    /// ended, and else a failure. The stream is left as it is.
    pub(crate) fn cut(&mut self, cut: Cut<'_>, buf: &[u8]) -> Got
        ensures read { HasRead (wire_told self.old) (wire_told self.new) result buf.now }
        ensures stream { self.new.stream ≡ self.old.stream }
        ensures stopped { (asked : _) → cut.entry ≡ cuts.Stopped asked → result ≡ Got.End }
        ensures quiet { (silence : _) → cut.entry ≡ cuts.Quiet silence → result ≡ Got.Failed }
        ensures stuck { (stuck : _) → cut.entry ≡ cuts.Stuck stuck → result ≡ Got.Failed }
    {
        let got = match cut {
            Cut::Stopped(_) => Got::End,
            Cut::Quiet(_) | Cut::Stuck(_) => Got::Failed,
        };
        self.note(got, buf);
        got
    }

    /// A read of a wire that is not read now: nothing is there yet.
    pub(crate) fn pass(&mut self, buf: &[u8]) -> Got
        ensures read { HasRead (wire_told self.old) (wire_told self.new) result buf.now }
        ensures stream { self.new.stream ≡ self.old.stream }
        ensures nothing { result ≡ Got.Idle }
    {
        self.note(Got::Idle, buf);
        Got::Idle
    }

    // Notes what a read answered, with its buffer after it.
    fn note(&mut self, got: Got, buf: &[u8])
        requires { IsGot got (length buf.now) }
        ensures read { HasRead (wire_told self.old) (wire_told self.new) got buf.now }
        ensures stream { self.new.stream ≡ self.old.stream }
    {
        if got == Got::Failed {
            self.faults = self.faults.saturating_add(1);
        }
        self.steps.add(&step_of_read(got, buf));
    }
}

impl<S: Write> Wire<S> {
    ghost use Rattle.caster_net.specs.Told.{Took, count_of};

    /// Writes the whole piece, and waits at this descriptor, that of the stream, while there is no
    /// room for it. After `Failed` some first bytes of it were taken, none to all.
    pub fn write(&mut self, rt: &HostRuntime, fd: RawFd, piece: &[u8]) -> Result<(), Failed>
        ensures written { HasWritten (wire_told self.old) (wire_told self.new) result piece.now }
        ensures honest { IsHonestWrite (S.contents self.old.stream) (S.contents self.new.stream)
            self.old.bytes self.new.bytes result piece.now }
    {
        self.write_heeding(&mut Heed::nothing(rt), fd, piece)
    }

    /// Writes the whole piece so, and waits as long as a link does that heeds this.
    pub(crate) fn write_heeding(
        &mut self,
        heed: &mut Heed<'_>,
        fd: RawFd,
        piece: &[u8],
    ) -> Result<(), Failed>
        ensures written { HasWritten (wire_told self.old) (wire_told self.new) result piece.now }
        ensures honest { IsHonestWrite (S.contents self.old.stream) (S.contents self.new.stream)
            self.old.bytes self.new.bytes result piece.now }
        ensures keep { heed.new.keep ≡ heed.old.keep }
        ensures told { OnOk result (AreTold (length piece.now) heed.old.room heed.new.room) }
    {
        let mut at = 0;
        while at < piece.len() {
            let Some(count) = self.write_some(heed, fd, &piece[at..]) else {
                self.steps.add(&StepNote::WriteFailed);
                return count_fault(&mut self.faults, Err(Failed));
            };
            heed.take_part(count);
            at += count;
        }
        Ok(())
    }

    // Writes some first bytes of a piece that is not empty, and waits where it must: how many were
    // taken, and None where none were.
    fn write_some(&mut self, heed: &mut Heed<'_>, fd: RawFd, piece: &[u8]) -> Option<usize>
        ensures bound { IfSome result (λ count. (0 < count) × (count ≤ length piece.now)) }
        ensures took { Took S.contents self.old self.new (take (unwrap_or result 0) piece.now) }
        ensures keep { heed.new.keep ≡ heed.old.keep }
        ensures room { option_map measured heed.new.room ≡ option_map measured heed.old.room }
    {
        match self.write_once(piece) {
            Got::Bytes(count) => Some(count),
            Got::Idle => self.write_late(heed, fd, piece),
            _ => None,
        }
    }

    // Waits for room and writes some first bytes then. It is tried twice a second or more often:
    // there may be room for some bytes, while the socket is called writable only when a good part
    // of its buffer is free.
    fn write_late(&mut self, heed: &mut Heed<'_>, fd: RawFd, piece: &[u8]) -> Option<usize>
        ensures bound { IfSome result (λ count. (0 < count) × (count ≤ length piece.now)) }
        ensures took { Took S.contents self.old self.new (take (unwrap_or result 0) piece.now) }
        ensures keep { heed.new.keep ≡ heed.old.keep }
        ensures room { option_map measured heed.new.room ≡ option_map measured heed.old.room }
    {
        let mut wait = heed.begin_wait().ok()?;
        for _ in 0..u64::MAX {
            if heed.gives_up(&mut wait) {
                return None;
            }
            heed.wait(fd, MAX_REST);
            match self.write_once(piece) {
                Got::Bytes(count) => return Some(count),
                Got::Idle => {}
                _ => return None,
            }
        }
        None
    }

    // One write of the stream, and what it took of the piece.
    fn write_once(&mut self, piece: &[u8]) -> Got
        ensures bound { IsGot result (length piece.now) }
        ensures took { Took S.contents self.old self.new (take (count_of result) piece.now) }
    {
        let got = got_of(self.stream.write(piece));
        if let Got::Bytes(count) = got {
            self.bytes.add_all(&piece[..count]);
        }
        got
    }
}

// One read of a stream into a buffer that is not empty.
fn read_once<S: Read>(stream: &mut S, buf: &mut [u8]) -> Got
    requires { 0 < length buf.old }
    ensures size { length buf.new ≡ length buf.old }
    ensures bound { IsGot result (length buf.old) }
    ensures honest { IsHonestRead (S.remaining stream.old) (S.remaining stream.new) result buf.new }
{
    got_of(stream.read(buf))
}

// What the answer of a read or a write of a stream means.
fn got_of(answer: io::Result<usize>) -> Got
    ensures { Means answer result }
{
    match answer {
        Ok(0) => Got::End,
        Ok(count) => Got::Bytes(count),
        Err(fault) if would_wait(fault.kind()) => Got::Idle,
        Err(_) => Got::Failed,
    }
}
