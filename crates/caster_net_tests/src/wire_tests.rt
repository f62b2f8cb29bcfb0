//! Wires over streams that give and take little, over what std knows the bytes of, and over a pair
//! of sockets.
use crate::records::{slice_read, vec_written};
use cast_io::{Failed, Got};
use caster_net::Wire;
use std::io;
use std::io::{ErrorKind, Read, Write};
use std::os::fd::AsRawFd;
use std::os::unix::net::UnixStream;
use std::test::Fail;

// What a stream of these tests gives in all.
const GIVEN: [u8; 3] = *b"xyz";

// A stream that gives one byte a call and then ends, and takes one byte a call. It fails where its
// calls of a kind are used up.
#[derive(Drop)]
struct Narrow {
    given: usize,
    taken: [u8; 8],
    count: usize,
    reads: usize,
    writes: usize,
}

// A stream that may be read and written so often.
fn narrow_stream(reads: usize, writes: usize) -> Narrow {
    Narrow {
        given: 0,
        taken: [0; 8],
        count: 0,
        reads,
        writes,
    }
}

impl Read for Narrow {
    fn read(&mut self, buf: &mut [u8]) -> io::Result<usize> {
        if self.given >= self.reads {
            return Err(io::Error::from(ErrorKind::Other));
        }
        let Some(&byte) = GIVEN.get(self.given) else {
            return Ok(0);
        };
        let Some(place) = buf.first_mut() else {
            return Ok(0);
        };
        *place = byte;
        self.given += 1;
        Ok(1)
    }
}

impl Write for Narrow {
    fn write(&mut self, buf: &[u8]) -> io::Result<usize> {
        if self.count >= self.writes {
            return Err(io::Error::from(ErrorKind::Other));
        }
        let (Some(&byte), Some(place)) = (buf.first(), self.taken.get_mut(self.count)) else {
            return Ok(0);
        };
        *place = byte;
        self.count += 1;
        Ok(1)
    }

    fn flush(&mut self) -> io::Result<()> {
        Ok(())
    }
}

// What five reads of a wire over this stream answer, and the byte that each leaves in front.
fn reads_of(stream: Narrow) -> ([Got; 5], [u8; 5]) {
    let mut wire = Wire::over(stream);
    let mut got = [Got::Idle; 5];
    let mut came = [0u8; 5];
    for at in 0..5 {
        let mut buf = [b'-'; 4];
        got[at] = wire.read(&mut buf);
        came[at] = buf[0];
    }
    (got, came)
}

#[test]
fn a_wire_answers_what_its_stream_gives(rt: HostRuntime) {
    let one = Got::Bytes(1);
    let (got, came) = reads_of(narrow_stream(9, 0));
    assert_eq!(rt; got, [one, one, one, Got::End, Got::End]);
    assert_eq!(rt; came, *b"xyz--");
    let (got, came) = reads_of(narrow_stream(2, 0));
    assert_eq!(rt; got, [one, one, Got::Failed, Got::Failed, Got::Failed]);
    assert_eq!(rt; came, *b"xy---");
}

// What a write of five bytes over this stream comes to, with the faults of the wire; and what the
// stream took.
fn write_of(rt: &HostRuntime, stream: Narrow) -> io::Result<(Result<(), Failed>, u64, [u8; 8])> {
    let (room, _peer) = UnixStream::pair(rt)?;
    let mut wire = Wire::over(stream);
    let result = wire.write(rt, room.as_raw_fd(), b"abcde");
    let faults = wire.faults();
    let stream = wire.into_stream();
    let taken = stream.taken;
    Ok((result, faults, taken))
}

#[test]
fn a_wire_writes_on_until_all_is_taken(rt: HostRuntime) -> Result<(), Fail> {
    let (result, faults, taken) = write_of(&rt, narrow_stream(0, 8))?;
    assert_eq!(rt; (result, faults), (Ok(()), 0));
    assert_eq!(rt; taken, *b"abcde\0\0\0");
    Ok(())
}

#[test]
fn a_stream_that_fails_after_three_bytes_took_three(rt: HostRuntime) -> Result<(), Fail> {
    let (result, faults, taken) = write_of(&rt, narrow_stream(0, 3))?;
    assert_eq!(rt; (result, faults), (Err(Failed), 1));
    assert_eq!(rt; taken, *b"abc\0\0\0\0\0");
    Ok(())
}

// A stream that has to wait at every other write, and takes two bytes at the others.
#[derive(Drop)]
struct Busy {
    is_free: bool,
    count: usize,
}

impl Write for Busy {
    fn write(&mut self, buf: &[u8]) -> io::Result<usize> {
        self.is_free = !self.is_free;
        if self.is_free {
            return Err(io::Error::from(ErrorKind::WouldBlock));
        }
        let count = buf.len().min(2);
        self.count = self.count.saturating_add(count);
        Ok(count)
    }

    fn flush(&mut self) -> io::Result<()> {
        Ok(())
    }
}

#[test]
fn a_wire_waits_for_room_and_goes_on(rt: HostRuntime) -> Result<(), Fail> {
    let (room, _peer) = UnixStream::pair(&rt)?;
    let mut wire = Wire::over(Busy {
        is_free: false,
        count: 0,
    });
    let result = wire.write(&rt, room.as_raw_fd(), b"abcde");
    assert_eq!(rt; (result, wire.faults()), (Ok(()), 0));
    assert_eq!(rt; wire.into_stream().count, 5);
    Ok(())
}

#[test]
fn a_wire_over_a_slice_gives_its_bytes_and_its_end(rt: HostRuntime) {
    let mut buf = [0u8; 4];
    assert_eq!(rt; slice_read(b"", &mut buf), Got::End);
    assert_eq!(rt; slice_read(b"abcdef", &mut buf), Got::Bytes(4));
    assert_eq!(rt; buf, *b"abcd");
}

#[test]
fn a_wire_over_a_vec_fills_it(rt: HostRuntime) -> Result<(), Fail> {
    let (room, _peer) = UnixStream::pair(&rt)?;
    let is_whole = match &vec_written(&rt, room.as_raw_fd(), b"abc") {
        Ok(bytes) => bytes.as_slice() == b"abc".as_slice(),
        Err(_) => false,
    };
    assert!(rt; is_whole);
    Ok(())
}

// What a wire over one end of a pair reads before its peer sends, behind it, and when the peer has
// ended; what came of the first bytes; and what the peer reads of it.
fn traffic_of(rt: &HostRuntime) -> io::Result<([Got; 3], [u8; 3], [u8; 2])> {
    let (stream, mut peer) = UnixStream::pair(rt)?;
    stream.set_nonblocking(true)?;
    let room = stream.as_raw_fd();
    let mut wire = Wire::over(stream);
    let mut buf = [0u8; 3];
    let nothing = wire.read(&mut buf);
    let _ = peer.write(b"abc")?;
    let some = wire.read(&mut buf);
    let _ = wire.write(rt, room, b"de");
    let mut came = [0u8; 2];
    peer.read_exact(&mut came)?;
    drop(peer);
    let end = wire.read(&mut [0u8; 3]);
    Ok(([nothing, some, end], buf, came))
}

#[test]
fn a_wire_over_a_socket_gives_and_takes_what_that_does(rt: HostRuntime) -> Result<(), Fail> {
    let (got, buf, came) = traffic_of(&rt)?;
    assert_eq!(rt; got, [Got::Idle, Got::Bytes(3), Got::End]);
    assert_eq!(rt; (buf, came), (*b"abc", *b"de"));
    Ok(())
}
