//! One connection, from its first byte to its receipt.

ghost use Rattle.std.specs.Prelude.{◌≡◌, ◌<◌, ◌≤◌, ◌++◌, ℕ, List, [], length, map, IsTrue, IfOk, OnOk, OnErr, None, Some, false, is_some};
ghost use Rattle.session_calls.specs.Steps.{Step};
ghost use Rattle.session_calls.specs.Rings.{AllSpeak};
ghost use Rattle.cast_config.specs.declared.config.Config.{Config as ConfigValue};
ghost use Rattle.cast_config.specs.Kept.{KeepsRules};
ghost use Rattle.session_model.specs.Called.{Called, OthersCalled};
ghost use Rattle.session_core.specs.Closing.{closing_of};
ghost use Rattle.session_model.specs.Headings.{Heading};
ghost use Rattle.session_model.specs.Judged.{Opening, judged, relays, sends_head};
ghost use Rattle.session_core.specs.Refusals.{MayRefuse};
ghost use Rattle.session_model.specs.Replies.{opening_text};
ghost use Rattle.session_model.specs.Reports.{IsHeadingOf};
ghost use Rattle.session_model.specs.Run.{Histories};
ghost use Rattle.session_model.specs.Setting.{caps, shapes};
ghost use Rattle.session_core.specs.Standing.{Follows, IsNewRelay, StandsFor};
ghost use Rattle.session_core.specs.Asking.{TellsAsked};
ghost use Rattle.session_core.specs.Closed.{IsClosed, IsSettled};
ghost use Rattle.upstream_relay.specs.Request.{relay_request};
ghost use Rattle.session_core.specs.Places.{Stay, seen_in, alone_in, worn_in, lacks_in};

use crate::asked::Asked;
use crate::closing::receipt_of;
use crate::places::Places;
use crate::session_stage::SessionStage;
use crate::settle::settle;
use cast_config::{Config, Relay};
use caster_accounts::Book;
use mount_ring::Ring;
use ntrip_head::HeadBuf;
use session_model::{Ending, Last, Receipt};
use std::alloc::{AllocError, Global};
use turn_log::Turns;
use upstream_relay::RelaySession;

/// One connection: the bytes that come in on it are fed to it, and what is to be sent it appends.
#[derive(Drop)]
pub struct Session {
    pub(crate) alloc: Global,
    pub(crate) me: u32,
    pub(crate) stage: SessionStage,
    pub(crate) ended: Option<Ending>,
    /// What its head asked.
    pub(crate) asked: Option<Asked>,
}

/// A relay before the first byte of the answer, whose request is appended.
fn new_relay(
    alloc: Global,
    me: u32,
    relay: &Relay,
    out: &mut Vec<u8>,
) -> Result<SessionStage, AllocError>
    requires { (1 ≤ relay.now.protocol) × (relay.now.protocol ≤ 2) }
    ensures ok { OnOk result (out.new.items ≡ out.old.items ++ relay_request relay.now) }
    ensures err { OnErr result (out.new.items ≡ out.old.items) }
    ensures stage { IfOk result (IsNewRelay me relay.now.mount) }
{
    let session = RelaySession::new(alloc, me, relay)?;
    let Ok(()) = session.request(out) else {
        drop(session);
        return Err(AllocError);
    };
    let mount = relay.mount;
    Ok(SessionStage::Relay { mount, session })
}

impl Session {
    /// A connection that is to send a head (RTCM 10410.0, or RTCM 10410.1 over RFC 9112), served as
    /// the caller `me`.
    ///
    /// # Errors
    /// For want of memory.
    pub fn open(alloc: Global, me: u32) -> Result<Session, AllocError>
        ensures me { IfOk result (λ session. session.me ≡ me) }
        ensures goes_on { IfOk result (λ session. session.ended ≡ None) }
        ensures stands { IfOk result (λ session. (c : Config) (histories : Histories)
            → StandsFor c session sends_head [] [] histories []) }
        ensures asks { IfOk result (λ session. TellsAsked sends_head [] session) }
    {
        let head = HeadBuf::new(alloc)?;
        Ok(Session {
            alloc,
            me,
            stage: SessionStage::Head(head),
            ended: None,
            asked: None,
        })
    }

    /// A connection to another caster, for the relay of this number: its request is appended.
    ///
    /// # Errors
    /// For want of memory. Then `out` is as it was.
    pub fn relay(
        alloc: Global,
        config: &Config,
        me: u32,
        number: u32,
        out: &mut Vec<u8>,
    ) -> Result<Session, AllocError>
        requires there { number < length config.now.relay }
        requires kept { (cap : ℕ) × KeepsRules cap config.now }
        ensures me { IfOk result (λ session. session.me ≡ me) }
        ensures goes_on { IfOk result (λ session. session.ended ≡ None) }
        ensures ok { OnOk result
            (out.new.items ≡ out.old.items ++ opening_text config.now (relays number)) }
        ensures err { OnErr result (out.new.items ≡ out.old.items) }
        ensures stands { IfOk result (λ session. (histories : Histories)
            → StandsFor config.now session (relays number) [] [] histories
            (opening_text config.now (relays number))) }
        ensures asks { IfOk result (λ session. TellsAsked (relays number) [] session) }
    {
        let stage = new_relay(alloc, me, &config.relay.as_slice()[number as usize], out)?;
        Ok(Session {
            alloc,
            me,
            stage,
            ended: None,
            asked: None,
        })
    }

    /// Whether it ended by itself, or was halted.
    pub fn ended(&self) -> bool
        ensures { result ≡ is_some self.now.ended }
    {
        self.ended.is_some()
    }

    /// Closes the connection, for the reason `last`: a claim that it holds is given back, or the
    /// account that it entered is left with what its segments count. One turn, or none where
    /// nothing is held. Where the turn was refused, the receipt is not settled, which comes only
    /// where a place may lack memory or is worn.
    pub fn close<T: Turns<Ring>, B: Turns<Book>>(
        self,
        last: Last,
        places: &mut Places<T, B>,
    ) -> Receipt
        requires rings { AllSpeak T.speaks places.old.rings.items self.me }
        requires book { IsTrue (B.speaks places.old.book self.me) }
        requires follows { (c : ConfigValue) × (map T.shape places.old.rings.items ≡ shapes c)
            × (B.shape places.old.book ≡ caps c)
            × Follows c self (seen_in T.Turns B.Turns places.old) 0 }
        ensures stay { Stay T.Turns B.Turns places.old places.new }
        ensures called { (c : ConfigValue) → map T.shape places.old.rings.items ≡ shapes c
            → B.shape places.old.book ≡ caps c → (more : List Step)
            × Called c (alone_in T.Turns B.Turns places.old) (seen_in T.Turns B.Turns places.old)
            (seen_in T.Turns B.Turns places.new) self.me more
            × IsSettled result.settled (closing_of self) more }
        ensures unsettled { result.settled ≡ false
            → MayRefuse (lacks_in T.Turns B.Turns places.old) (worn_in T.Turns B.Turns places.new) }
        ensures closed { (c : ConfigValue) (opening : Opening) (heading : Heading) (text : List ℕ)
            (steps : List Step) (histories : Histories) (sent : List ℕ)
            → map T.shape places.old.rings.items ≡ shapes c → B.shape places.old.book ≡ caps c
            → IsHeadingOf (Some opening) text heading
            → StandsFor c self opening text steps histories sent
            → OthersCalled histories (seen_in T.Turns B.Turns places.old) self.me
            → IsClosed c (alone_in T.Turns B.Turns places.old) (seen_in T.Turns B.Turns places.old)
            (seen_in T.Turns B.Turns places.new) self.me self.ended (judged c opening heading text)
            steps last result }
    {
        let mut stage = self.stage;
        let settled = settle(self.me, &mut stage, places);
        receipt_of(self.alloc, stage, self.ended, last, settled.is_ok())
    }
}
