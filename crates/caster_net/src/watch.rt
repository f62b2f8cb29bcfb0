//! What the rest of one link, or of one door, ends with.
ghost use Rattle.std.specs.Prelude.{◌≡◌, None, IfOk, OnErr, OnOk};

use mio::unix::SourceFd;
use mio::{Events, Interest, Poll, Token};
use std::io;
use std::io::ErrorKind;
use std::marker::Model;
use std::os::fd::RawFd;
use std::time::Duration;

const PEER: Token = Token(0);

const BELL: Token = Token(1);

/// Why a wait ended.
#[derive(Clone, Copy)]
pub(crate) enum Woken {
    /// A peer sent bytes, came or has ended.
    Peer,
    /// The bell was rung, and no peer did anything.
    Bell,
    /// It took too long.
    Late,
}

/// Waits for what comes to sockets, and for a bell. It has a descriptor of its own. What comes
/// while nobody waits ends the next wait. Contracts see the descriptor at which it hears the bell,
/// if it does.
#[derive(Drop)]
pub(crate) struct Watch {
    poll: Poll,
    events: Events,
    // Where the bell is heard.
    ear: Option<RawFd>,
}

impl Model for Watch {
    ghost use Rattle.std.specs.Prelude.{ℤ, Option};

    ghost Value = { Option ℤ };

    ghost view = { λ w. w.ear };
}

impl Watch {
    /// A watch over this socket.
    pub(crate) fn over(rt: &HostRuntime, socket: RawFd) -> io::Result<Watch>
        ensures deaf { IfOk result (λ watch. watch ≡ None) }
    {
        let poll = Poll::new(rt)?;
        let Ok(events) = Events::with_capacity(rt.alloc(), 2) else {
            return Err(io::Error::from(ErrorKind::OutOfMemory));
        };
        let mut watch = Watch {
            poll,
            events,
            ear: None,
        };
        watch.join(socket)?;
        Ok(watch)
    }

    /// From now on waits for this socket too, until it is closed. After a failure it does not.
    pub(crate) fn join(&mut self, socket: RawFd) -> io::Result<()>
        ensures ear { self.new ≡ self.old }
    {
        let registry = self.poll.registry();
        registry.register(&mut SourceFd(&socket), PEER, Interest::READABLE)
    }

    /// From now on waits for the bell that is heard here, and for no other. One that was rung
    /// before ends the next wait. After a failure it waits for none.
    pub(crate) fn hear(&mut self, ear: Option<RawFd>) -> io::Result<()>
        ensures heard { OnOk result (self.new ≡ ear) }
        ensures deaf { OnErr result (self.new ≡ None) }
    {
        if ear == self.ear {
            return Ok(());
        }
        let registry = self.poll.registry();
        if let Some(before) = self.ear.take() {
            registry.deregister(&mut SourceFd(&before))?;
        }
        if let Some(ear) = ear {
            registry.register(&mut SourceFd(&ear), BELL, Interest::READABLE)?;
        }
        self.ear = ear;
        Ok(())
    }

    /// Waits so long at most.
    pub(crate) fn wait(&mut self, limit: Duration) -> io::Result<Woken>
        ensures ear { self.new ≡ self.old }
    {
        self.poll.poll(&mut self.events, Some(limit))?;
        if self.events.iter().any(|event| event.token() == PEER) {
            Ok(Woken::Peer)
        } else if self.events.is_empty() {
            Ok(Woken::Late)
        } else {
            Ok(Woken::Bell)
        }
    }
}
