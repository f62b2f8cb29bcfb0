//! A connection over its link, step by step, from its first byte to its receipt.

ghost use Rattle.std.specs.Prelude.{◌≡◌, ◌<◌, ℕ, [], length, None, Some, IfErr, IfNone, IfOk, IfSome, false, true};
ghost use Rattle.cast_io.specs.Told.{LinkTold};
ghost use Rattle.session_model.specs.Called.{IsCause};
ghost use Rattle.session_model.specs.Judged.{Opening, waiting};
ghost use Rattle.session_model.specs.Run.{Histories};
ghost use Rattle.session_core.specs.Standing.{StandsFor};
ghost use Rattle.session_core.specs.Asking.{TellsAsked};
ghost use Rattle.session_core.specs.Closed.{IsReceipt};
ghost use Rattle.session_core.specs.Setups.{IsSetUp};
ghost use Rattle.caster_places.specs.Known.{Fit, StayKnown};
ghost use Rattle.caster_link.specs.Links.{opening_of};
ghost use Rattle.caster_link.specs.Stepped.{ComesTo, HasStepped, IsClosedFrom, IsOpened, IsServed, IsToClose, IsUnopened};
ghost use Rattle.caster_link.specs.Wear.{IsWornBy, MayRefuse, wear_of};

use crate::role::Role;
use crate::sending::send;
use crate::turning::take_turn;
use cast_io::{Got, Link};
use caster_accounts::Book;
use caster_places::AllPlaces;
use mount_ring::Ring;
use session_core::{Ending, Flow, Last, Places, Receipt, Segments, Session, Setup, Whereabouts};
use std::alloc::{AllocError, Global};
use turn_log::Turns;

/// How many bytes of one link are taken; then it is closed as if it had ended.
const MAX_LINK_BYTES: u64 = 1 << 62;

/// How many bytes one read takes at most.
const MAX_READ_BYTES: usize = 4096;

/// A connection that is served over its link, between two of its steps.
#[derive(Drop)]
pub struct Service {
    session: Session,
    /// What is to be written before the next read.
    out: Vec<u8>,
    /// How many bytes the link gave.
    given: u64,
    /// Whether the link may rest before the next read.
    may_rest: bool,
    /// Where a read puts its bytes.
    piece: [u8; MAX_READ_BYTES],
}

/// Opens the session of a connection in this role. The request of a relay is appended.
fn open_as(setup: &Setup, role: Role, out: &mut Vec<u8>) -> Result<Session, AllocError>
    requires ready { IsSetUp setup.now }
    requires relay { (number : ℕ) → role ≡ Role.Relay number
        → number < length setup.now.config.now.relay }
    requires empty { out.old.items ≡ [] }
    ensures me { IfOk result (λ session. session.me ≡ setup.now.me) }
    ensures goes_on { IfOk result (λ session. session.ended ≡ None) }
    ensures stands { IfOk result (λ session. (histories : Histories)
        → StandsFor setup.now.config.now session (opening_of role) [] [] histories out.new.items) }
    ensures asks { IfOk result (λ session. TellsAsked (opening_of role) [] session) }
{
    match role {
        Role::Caller => Session::open(setup.alloc, setup.me),
        Role::Relay(number) => Session::relay(setup.alloc, setup.config, setup.me, number, out),
    }
}

/// The receipt of a connection for whose session there was no memory.
fn receipt_without_session(alloc: Global) -> Receipt
    ensures settled { result.settled ≡ true }
    ensures receipt { IsReceipt (Some Ending.Memory) waiting [] Last.End result }
{
    Receipt {
        ending: Ending::Memory,
        segments: Segments::new(Vec::new(alloc)),
        sent: 0,
        overrun: 0,
        junk: 0,
        entered: false,
        settled: true,
    }
}

impl Service {
    /// Opens the session of a connection in this role, before its first step. What it asks of
    /// another caster is the first that is to be written.
    ///
    /// # Errors
    /// Where there was no memory for the session: the receipt of a connection to which nothing
    /// happened.
    pub fn open(setup: &Setup, role: Role) -> Result<Service, Receipt>
        requires ready { IsSetUp setup.now }
        requires relay { (number : ℕ) → role ≡ Role.Relay number
            → number < length setup.now.config.now.relay }
        ensures opened { IfOk result
            (IsOpened setup.now.config.now (opening_of role) setup.now.me) }
        ensures unopened { IfErr result
            (IsUnopened setup.now.config.now (opening_of role) setup.now.me) }
    {
        let mut out = Vec::new(setup.alloc);
        let Ok(session) = open_as(setup, role, &mut out) else {
            return Err(receipt_without_session(setup.alloc));
        };
        Ok(Service {
            session,
            out,
            given: 0,
            may_rest: false,
            piece: [0; MAX_READ_BYTES],
        })
    }

    /// The session of the connection, as its last step left it.
    pub fn session(&self) -> &Session
        ensures { result.now ≡ self.now.session }
    {
        &self.session
    }

    /// One step, under the setup, at the places and over the link of the steps before: all is
    /// written that is to be written; the link rests if it may, and is read once, 4,096 bytes at
    /// most; what it gave is fed to the session, which then takes a turn of 16 frames at most.
    ///
    /// Answers how the connection is to be closed, if it is: a write or the read failed, the link
    /// or the session has ended, or 2^62 bytes came in. Then `close` is to follow.
    pub fn step<T: Turns<Ring>, B: Turns<Book>, L: Link>(
        &mut self,
        setup: &Setup,
        places: &mut Places<T, B>,
        link: &mut L,
    ) -> Option<Last>
        requires ready { IsSetUp setup.now }
        requires fit { Fit setup.now.config.now self.old.session.me
            (⟦<Places<T, B> as AllPlaces>⟧.known places.old) }
        requires cause { IfSome self.old.session.ended
            (IsCause (⟦<Places<T, B> as AllPlaces>⟧.worn places.old)) }
        requires served { (opening : Opening) × (me : ℕ) × (start : Histories)
            × (before : LinkTold) × IsServed setup.now.config.now opening me start
            (⟦<Places<T, B> as AllPlaces>⟧.seen places.old) before (L.told link.old) self.old }
        ensures stay { StayKnown (⟦<Places<T, B> as AllPlaces>⟧.known places.old)
            (⟦<Places<T, B> as AllPlaces>⟧.known places.new)
            (⟦<Places<T, B> as AllPlaces>⟧.worn places.old)
            (⟦<Places<T, B> as AllPlaces>⟧.worn places.new) }
        ensures cause { IfSome self.new.session.ended
            (IsCause (⟦<Places<T, B> as AllPlaces>⟧.worn places.new)) }
        ensures goes_on { IfNone result (HasStepped setup.now.config.now
            (⟦<Places<T, B> as AllPlaces>⟧.seen places.old)
            (⟦<Places<T, B> as AllPlaces>⟧.seen places.new) (L.told link.old) (L.told link.new)
            self.old self.new) }
        ensures closes { IfSome result (ComesTo setup.now.config.now
            (⟦<Places<T, B> as AllPlaces>⟧.seen places.old)
            (⟦<Places<T, B> as AllPlaces>⟧.seen places.new) (L.told link.old) (L.told link.new)
            self.old self.new) }
    {
        let Whereabouts { ended, mount } = self.session.whereabouts();
        let Ok(()) = send(mount, link, &mut self.out, self.may_rest) else {
            return Some(Last::WriteFault);
        };
        if ended || self.given >= MAX_LINK_BYTES {
            return Some(Last::End);
        }
        match link.read(&mut self.piece) {
            Got::Bytes(count) => {
                self.given += count as u64;
                self.may_rest = false;
                let bytes = &self.piece[..count];
                match self
                    .session
                    .feed(setup.config, setup.table, bytes, places, &mut self.out)
                {
                    Flow::Ended => None,
                    Flow::Open => {
                        take_turn(&mut self.session, places, &mut self.out);
                        None
                    }
                }
            }
            Got::Idle => {
                self.may_rest = take_turn(&mut self.session, places, &mut self.out);
                None
            }
            Got::End => Some(Last::End),
            Got::Failed => Some(Last::ReadFault),
        }
    }

    /// Closes the connection as its last step answered, at the places of its steps: what it holds
    /// is given back, and its receipt says what became of it. What the session held before is what
    /// the receipt's record came to, and what it asked is what its bytes say.
    pub fn close<T: Turns<Ring>, B: Turns<Book>>(
        self,
        last: Last,
        places: &mut Places<T, B>,
    ) -> Receipt
        requires cause { IfSome self.session.ended
            (IsCause (⟦<Places<T, B> as AllPlaces>⟧.worn places.old)) }
        requires came { IsToClose (⟦<Places<T, B> as AllPlaces>⟧.seen places.old)
            (⟦<Places<T, B> as AllPlaces>⟧.known places.old) self last }
        ensures stay { StayKnown (⟦<Places<T, B> as AllPlaces>⟧.known places.old)
            (⟦<Places<T, B> as AllPlaces>⟧.known places.new)
            (⟦<Places<T, B> as AllPlaces>⟧.worn places.old)
            (⟦<Places<T, B> as AllPlaces>⟧.worn places.new) }
        ensures served { IsClosedFrom (⟦<Places<T, B> as AllPlaces>⟧.seen places.old)
            (⟦<Places<T, B> as AllPlaces>⟧.seen places.new)
            (⟦<Places<T, B> as AllPlaces>⟧.known places.old) self last result }
        ensures worn { IsWornBy (⟦<Places<T, B> as AllPlaces>⟧.worn places.new) result.ending }
        ensures unsettled { result.settled ≡ false
            → MayRefuse (wear_of (⟦<Places<T, B> as AllPlaces>⟧.known places.new)
            (⟦<Places<T, B> as AllPlaces>⟧.worn places.new)) }
    {
        self.session.close(last, places)
    }
}
