//! When a link rests that is fetched from.

ghost use Rattle.std.specs.Prelude.{◌≡◌};
ghost use Rattle.cast_io.specs.FakeLinks.{link_told};

use crate::runs::answer_of;
use cast_io::{Failed, Got, Link, MemLink, MemSink};
use std::alloc::Global;
use std::sync::Wait;
use std::test::Fail;
use test_support::{FRAME_B, ICY_A, link_of};

/// A link that answers as one in memory, and notes its reads and rests, each as a letter: `b` where
/// a read gave bytes, `i` where it gave nothing yet, `e` at the end, `f` where it failed, and `r`
/// for a rest.
#[derive(Drop)]
struct NotedLink {
    link: MemLink,
    calls: Vec<u8>,
}

impl NotedLink {
    // Notes a call.
    fn note(&mut self, call: u8)
        ensures { self.new.link ≡ self.old.link }
    {
        let _ = self.calls.push(call);
    }
}

/// The letter of what was read.
fn letter_of(got: Got) -> u8 {
    match got {
        Got::Bytes(_) => b'b',
        Got::Idle => b'i',
        Got::End => b'e',
        Got::Failed => b'f',
    }
}

impl Link for NotedLink {
    ghost told = { λ noted. link_told noted.link };

    fn read(&mut self, buf: &mut [u8]) -> Got {
        let got = self.link.read(buf);
        self.note(letter_of(got));
        got
    }

    fn write(&mut self, piece: &[u8]) -> Result<(), Failed> {
        self.link.write(piece)
    }

    fn rest(&mut self) {
        self.note(b'r');
    }

    fn set_mount(&mut self, _mount: u32) {}
}

/// The calls of a link to a caster that sends these pieces, while two frames are fetched from it.
fn calls<R: Wait>(rt: &R, alloc: Global, pieces: &[&[u8]]) -> Result<Vec<u8>, Fail> {
    let mut link = NotedLink {
        link: link_of(alloc, pieces, &[])?,
        calls: Vec::new(alloc),
    };
    let mut out = MemSink::new(alloc, Vec::new(alloc));
    let _ = answer_of(rt, alloc, 2, &mut link, &mut out)??;
    Ok(link.calls)
}

// Only behind a read that gave nothing.
#[test]
fn a_link_rests_where_it_gives_nothing(rt: HostRuntime) -> Result<(), Fail> {
    let whole: [&[u8]; 5] = [b"", ICY_A, b"", b"", FRAME_B];
    let short: [&[u8]; 3] = [ICY_A, b"", b"\xD3"];
    for (pieces, wanted) in [
        (whole.as_slice(), b"irbirirb".as_slice()),
        (short.as_slice(), b"birbe".as_slice()),
    ] {
        assert!(rt; calls(&rt, rt.alloc(), pieces)?.as_slice() == wanted);
    }
    Ok(())
}
