//! A TCP connection as a link.
ghost use Rattle.std.specs.Prelude.{◌≡◌, ◌<◌, [], ◌∷◌, ◌++◌, length, option_map, IfOk, IfSome, OnOk};
ghost use Rattle.cast_io.specs.Links.{IsGot, HasRead, HasWritten};
ghost use Rattle.caster_net.specs.Rooms.{AreTold, IsOpen, IsTried};
ghost use Rattle.caster_net.specs.Silence.{HasNoted, keep_given, keep_taken};
ghost use Rattle.caster_net.specs.Told.{count_of, link_told, new_kept_link, new_link, new_patient_link};

use crate::bells::{Bells, Ringer};
use crate::heed::{Awaited, Heed};
use crate::keep::Keep;
use crate::options::KeepAlive;
use crate::room::Room;
use crate::waiting::{SHORT, asked_of, poll_millis};
use crate::watch::{Watch, Woken};
use crate::wire::Wire;
use cast_io::{Failed, Got, Journal, Link};
use libc::net::{POLLIN, poll};
use std::io::Read;
use std::marker::Model;
use std::net::{Shutdown, TcpStream};
use std::os::fd::AsRawFd;
use std::time::{Duration, Instant};
use std::{io, thread};

// The longest pause before a rest, in milliseconds.
const MAX_PAUSE: u64 = 16;

// The most that is taken of what a peer sends after its connection has ended, in bytes.
const MAX_DRAINED: usize = 64 * 1024;

/// A TCP connection, and how often it failed. A read does not wait for the peer; a write waits
/// while the peer takes nothing. Contracts see the wire below it: a rest leaves that as it was. Its
/// rests end with its peer, and with the bell that its ringer names.
#[derive(Drop)]
pub struct TcpLink<'a> {
    wire: Wire<TcpStream>,
    ringer: Ringer<'a>,
    // None before the first rest, and where descriptors lack.
    watch: Option<Watch>,
    has_rested: bool,
    // How long it sleeps before it waits, in milliseconds.
    pause: u64,
    has_ended: bool,
    heed: Heed<'a>,
}

impl<'a> Model for TcpLink<'a> {
    ghost use Rattle.std.specs.declared.net.tcp.TcpStream.{TcpStream};
    ghost use Rattle.caster_net.specs.Told.{LinkState};

    ghost Value = { LinkState TcpStream };

    ghost view = { λ l. record {
      wire = l.wire;
      keep = l.heed.keep;
      room = l.heed.room;
    } };
}

impl<'a> TcpLink<'a> {
    /// A link over this connection, whose reads and writes do not wait from now on, and whose
    /// small pieces are sent at once. The system finds out where its peer is gone.
    pub(crate) fn over(rt: &'a HostRuntime, bells: &'a Bells, stream: TcpStream) -> io::Result<Self>
        ensures { IfOk result (λ link. link ≡ new_link stream) }
    {
        stream.set_nonblocking(true)?;
        stream.set_nodelay(true)?;
        stream.keep_alive();
        Ok(TcpLink {
            wire: Wire::over(stream),
            ringer: Ringer::over(bells),
            watch: None,
            has_rested: false,
            pause: 0,
            has_ended: false,
            heed: Heed::nothing(rt),
        })
    }

    /// A link over this connection whose reads wait for room, so that what waits for a slow peer
    /// waits elsewhere.
    pub(crate) fn patient(
        rt: &'a HostRuntime,
        bells: &'a Bells,
        stream: TcpStream,
    ) -> io::Result<Self>
        ensures { IfOk result (λ link. link ≡ new_patient_link stream) }
    {
        let room = Room::from_now(rt, stream.as_raw_fd())?;
        let mut link = TcpLink::over(rt, bells, stream)?;
        link.heed.set_room(room);
        Ok(link)
    }

    /// A link of a gate over this connection, whose reads wait for room. It ends once the stop is
    /// asked for, and fails where it is quiet for too long.
    pub(crate) fn of_gate(
        rt: &'a HostRuntime,
        bells: &'a Bells,
        stream: TcpStream,
        keep: Keep<'a>,
    ) -> io::Result<Self>
        ensures { IfOk result (λ link. link ≡ new_kept_link stream keep.entry) }
    {
        let mut link = TcpLink::patient(rt, bells, stream)?;
        link.heed.set_keep(keep);
        Ok(link)
    }

    /// The connection itself.
    pub fn stream(&self) -> &TcpStream
        ensures { result.now ≡ self.now.wire.stream }
    {
        self.wire.stream()
    }

    /// What its reads answered and its writes took, for a record of it.
    pub(crate) fn wire(&self) -> &Wire<TcpStream>
        ensures { result.now ≡ self.now.wire }
    {
        &self.wire
    }

    /// How often a read or a write failed.
    pub(crate) fn faults(&self) -> u64
        ensures { result ≡ self.now.wire.faults }
    {
        self.wire.faults()
    }

    /// Comes back, as its wire is in the record then, and ends the connection: first what is sent,
    /// and where the peer has not ended and no call failed, then what it still sends is taken for
    /// this long at most. A connection that is closed with bytes unread is reset, and its peer may
    /// lose what it was sent last (RFC 9112, section 9.6). What is taken here is no part of the
    /// record.
    pub(crate) fn come_back(mut self, back: &mut Journal<Wire<TcpStream>>, limit: Duration)
        ensures { back.new ≡ back.old ++ self.entry.wire ∷ [] }
    {
        back.add(&self.wire);
        self.tell_last();
        let is_over = self.has_ended || self.wire.faults() > 0;
        let TcpLink { wire, heed, .. } = self;
        close(heed.rt, wire.into_stream(), is_over, limit);
    }

    /// Rings for what this link gave since it last did.
    pub(crate) fn tell_last(&mut self)
        ensures { self.new ≡ self.old }
    {
        self.ringer.tell_last();
    }

    // Notes what the peer gave.
    fn hear(&mut self, bytes: &[u8])
        ensures { self.new ≡ record self.old { keep = option_map keep_given self.old.keep } }
    {
        self.heed.give();
        if self.ringer.hear(bytes) {
            self.pause = 0;
        }
    }

    // Makes the watch at the first rest, if there is a descriptor for it. Where a door has none,
    // the link gives its own back for good: connections come first.
    fn prepare(&mut self)
        ensures { self.new ≡ self.old }
    {
        let may_watch = !self.has_rested || self.watch.is_some();
        self.has_rested = true;
        if !may_watch || self.tune().is_err() {
            self.watch = None;
        }
    }

    // Has the watch wait for the peer and for the bell of the present mountpoint.
    fn tune(&mut self) -> io::Result<()>
        ensures { self.new ≡ self.old }
    {
        let ear = self.ringer.ear(self.heed.rt)?;
        if self.watch.is_none() {
            self.watch = Some(Watch::over(self.heed.rt, self.wire.fd())?);
        }
        match &mut self.watch {
            Some(watch) => watch.hear(ear),
            None => Ok(()),
        }
    }

    // Waits for the peer and the bell; with no watch, a short while for the peer alone.
    fn wait(&mut self) -> Woken
        ensures { self.new ≡ self.old }
    {
        let (longest, short) = (self.heed.longest(), Duration::from_millis(SHORT));
        match &mut self.watch {
            Some(watch) => {
                if let Ok(woken) = watch.wait(longest) {
                    return woken;
                }
                thread::sleep(self.heed.rt, short);
            }
            None => {
                poll(&mut asked_of(self.wire.fd(), POLLIN), poll_millis(short));
            }
        }
        Woken::Late
    }
}

impl Link for TcpLink<'_> {
    ghost told = { link_told };

    fn read(&mut self, buf: &mut [u8]) -> Got
        requires { 0 < length buf.old }
        ensures bound { IsGot result (length buf.old) }
        ensures read { HasRead (link_told self.old) (link_told self.new) result buf.new }
        ensures noted { HasNoted result self.old.keep self.new.keep }
        ensures open { 0 < count_of result → IfSome self.new.room IsOpen }
    {
        self.ringer.tell();
        let fd = self.wire.fd();
        let got = match self.heed.await_room(fd) {
            Awaited::Room => self.wire.read(buf),
            Awaited::Nothing => self.wire.pass(buf),
            Awaited::Cut(cut) => self.wire.cut(cut, buf),
        };
        match got {
            Got::Bytes(count) => self.hear(&buf[..count]),
            Got::End => self.has_ended = true,
            Got::Idle => self.heed.find_nothing(),
            Got::Failed => {}
        }
        got
    }

    fn write(&mut self, piece: &[u8]) -> Result<(), Failed>
        ensures written { HasWritten (link_told self.old) (link_told self.new) result piece.now }
        ensures noted { OnOk result (0 < length piece.now
            → self.new.keep ≡ option_map keep_taken self.old.keep) }
        ensures told { OnOk result (AreTold (length piece.now) self.old.room self.new.room) }
    {
        self.pause = 1;
        let fd = self.wire.fd();
        self.wire.write_heeding(&mut self.heed, fd, piece)?;
        if !piece.is_empty() {
            self.heed.take();
        }
        Ok(())
    }

    // While the bell is rung for nothing, the pause before a rest grows: so links that have nothing
    // to send are not woken by each frame of others. Whether the peer is caught up is tried at the
    // end, so what the others are sent does not wait for that.
    fn rest(&mut self)
        ensures same { self.new ≡ record self.old { room = self.new.room } }
        ensures tried { IsTried self.old.room self.new.room }
    {
        if self.pause > 0 {
            thread::sleep(self.heed.rt, Duration::from_millis(self.pause));
        }
        self.prepare();
        match self.wait() {
            Woken::Peer => {}
            Woken::Bell => self.pause = self.pause.saturating_mul(2).clamp(1, MAX_PAUSE),
            Woken::Late => self.pause = self.pause.min(1),
        }
        let fd = self.wire.fd();
        self.heed.catch_up(fd);
    }

    fn set_mount(&mut self, mount: u32)
        ensures { self.new ≡ self.old }
    {
        self.ringer.set_mount(mount);
    }
}

// Ends this connection; where it is not over, what the peer still sends is taken for this long at
// most.
// Untied: how a connection is ended.
fn close(rt: &HostRuntime, mut stream: TcpStream, is_over: bool, limit: Duration) {
    let _ = stream.shutdown(Shutdown::Write);
    if !is_over {
        let _ = drain(rt, &mut stream, limit);
    }
}

// Takes what the peer sends until it ends, for this long and so many bytes at most.
// Untied: what is taken of a connection that has ended.
fn drain(rt: &HostRuntime, stream: &mut TcpStream, limit: Duration) -> io::Result<()> {
    let begun = Instant::now(rt)?;
    let mut buf = [0u8; 4096];
    let mut left = MAX_DRAINED;
    stream.set_nonblocking(false)?;
    while left > 0 {
        stream.set_read_timeout(Some(limit.saturating_sub(begun.elapsed(rt)?)))?;
        let count = stream.read(&mut buf)?;
        if count == 0 {
            break;
        }
        left = left.saturating_sub(count);
    }
    Ok(())
}
