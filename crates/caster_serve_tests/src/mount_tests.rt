//! Where a link is told that its session is.

ghost use Rattle.std.specs.Prelude.{◌≡◌};
ghost use Rattle.cast_io.specs.FakeLinks.{link_told};

use crate::one_caller::serve_as;
use crate::setting::{ROVER_ALPHA, SOURCE_BRAVO, TWO_RELAYS};
use cast_io::{Failed, Got, Link, MemLink};
use caster_serve::Role;
use std::alloc::Global;
use std::sync::Wait;
use std::test::Fail;
use test_support::{FRAMES_AB, link_of};

/// A link that answers as one in memory. It notes the number of each mountpoint that it is told, as
/// a digit, where it is another one than before; and `w` for a write and `r` for a rest.
#[derive(Drop)]
struct PlacedLink {
    link: MemLink,
    mount: Option<u32>,
    notes: Vec<u8>,
}

impl PlacedLink {
    // Notes a call.
    fn note(&mut self, letter: u8)
        ensures { self.new.link ≡ self.old.link }
    {
        let _ = self.notes.push(letter);
    }
}

impl Link for PlacedLink {
    ghost told = { λ placed. link_told placed.link };

    fn read(&mut self, buf: &mut [u8]) -> Got {
        self.link.read(buf)
    }

    fn write(&mut self, piece: &[u8]) -> Result<(), Failed> {
        self.note(b'w');
        self.link.write(piece)
    }

    fn rest(&mut self) {
        self.note(b'r');
    }

    fn set_mount(&mut self, mount: u32) {
        if self.mount != Some(mount) {
            self.mount = Some(mount);
            self.note(b'0' + (mount % 10) as u8);
        }
    }
}

/// What a link notes whose peer sends these pieces, and which is served so.
fn notes_of<R: Wait + Sync>(
    rt: &R,
    alloc: Global,
    role: Role,
    pieces: &[&[u8]],
) -> Result<Vec<u8>, Fail> {
    let mut link = PlacedLink {
        link: link_of(alloc, pieces, &[])?,
        mount: None,
        notes: Vec::new(alloc),
    };
    let _receipt = serve_as(rt, alloc, TWO_RELAYS, role, &mut link)?;
    Ok(link.notes)
}

// It is told before the reply is written, and so before its next rest and read. Of a relay it is
// known from the first.
#[test]
fn a_link_is_told_where_its_session_is(rt: HostRuntime) -> Result<(), Fail> {
    let refused = b"SOURCE wrong ALPHA\r\n\r\n".as_slice();
    for (role, pieces, wanted) in [
        (
            Role::Caller,
            [b"", SOURCE_BRAVO, FRAMES_AB, b""],
            b"r1wr".as_slice(),
        ),
        (Role::Caller, [b"", ROVER_ALPHA, b"", b""], b"r0wrr"),
        (Role::Caller, [b"", refused, b"", b""], b"rw"),
        (Role::Relay(1), [b"", b"", b"", b""], b"1wrrrr"),
    ] {
        let notes = notes_of(&rt, rt.alloc(), role, &pieces)?;
        assert_eq!(rt; notes.as_slice(), wanted);
    }
    Ok(())
}
