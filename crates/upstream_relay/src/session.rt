ghost use Rattle.std.specs.Prelude.{◌≡◌, ℕ, ◌+◌, ◌^◌, ◌<◌, ◌≤◌, IsTrue, List, [], ◌∷◌, ◌++◌, length, Some, None, OnOk, OnErr, IfOk, IfErr, IfSome, IfNone};
ghost use Rattle.std.specs.Result.{result_err};
ghost use Rattle.std.specs.Vec.{vec_capacity};
ghost use Rattle.turn_log.specs.Faults.{IsFault};
ghost use Rattle.mount_ring.specs.History.{state_of};
ghost use Rattle.session_calls.specs.Steps.{Step};
ghost use Rattle.source_session.specs.Calls.{HeldSince};
ghost use Rattle.source_session.specs.Places.{Stays, HeardAt};
ghost use Rattle.upstream_relay.specs.Request.{relay_request};
ghost use Rattle.upstream_relay.specs.Standing.{StandsFor, halt_at, claim_at};
ghost use Rattle.upstream_relay.specs.Junk.{IsJunk, IsAtMostJunk};
ghost use Rattle.upstream_relay.specs.Halts.{IsHaltOf};
ghost use Rattle.upstream_relay.specs.Called.{AddsAt, IsHoldingBy, IsHeldAt};

use crate::body::{RelayStage, go_on};
use crate::fault::RelayHalt;
use cast_config::Relay;
use mount_ring::{Ring, RingAnswer, RingCall};
use ntrip_client::{AnswerHead, push_request, version_of};
use rtcm_frame::Cutter;
use std::alloc::{AllocError, Global};
use std::{fmt, mem};
use turn_log::{TurnFault, Turns};

/// A relay: it has a request for another caster, is fed what that caster answers, and publishes the
/// frames of the answer's body (RTCM 10403.3) at a mountpoint here, which it claims once the answer
/// is accepted.
///
/// Of the answer no more is kept than its head and a frame that is not complete. `StandsFor` ties a
/// relay to all bytes that it was fed and to all calls that it made, and says that these are the
/// calls that the bytes owe.
#[derive(Drop)]
pub struct RelaySession {
    me: u32,
    request: Vec<u8>,
    stage: RelayStage,
}

impl RelaySession {
    /// A relay as the configuration has it, for the caller `me`, before the first byte of the
    /// answer.
    pub fn new(alloc: Global, me: u32, r: &Relay) -> Result<RelaySession, AllocError>
        requires { (1 ≤ r.now.protocol) × (r.now.protocol ≤ 2) }
        ensures me { IfOk result (λ session. session.me ≡ me) }
        ensures request { IfOk result (λ session. session.request.items ≡ relay_request r.now) }
        ensures stands { IfOk result (λ session. (mount : ℕ) → StandsFor mount session [] []) }
        ensures goes_on { IfOk result (λ session. halt_at session.stage ≡ None) }
        ensures unclaimed { IfOk result (λ session. claim_at session.stage ≡ None) }
    {
        let mut request = Vec::new(alloc);
        push_request(
            version_of(r.protocol),
            &r.upstream,
            &r.address,
            r.user.as_ref(),
            &r.password,
            &mut request,
        )?;
        let head = AnswerHead::new(alloc)?;
        let cutter = Box::new(alloc, Cutter::new())?;
        Ok(RelaySession {
            me,
            request,
            stage: RelayStage::Head { head, cutter },
        })
    }

    /// Appends the request, in bytes as they are sent.
    ///
    /// # Errors
    /// For want of memory, and never where room for it was reserved. Then `out` is as it was.
    pub fn request(&self, out: &mut Vec<u8>) -> Result<(), AllocError>
        ensures ok { OnOk result (out.new.items ≡ out.old.items ++ self.now.request.items) }
        ensures err { OnErr result (out.new.items ≡ out.old.items) }
        ensures capacity { vec_capacity out.old ≤ vec_capacity out.new }
    {
        out.extend_from_slice(&self.request)
    }

    /// Takes more bytes of the other caster's answer, and does what they owe: the mountpoint is
    /// claimed, one turn, where they end the head of an answer that is accepted, and then each
    /// frame that they complete is published, one turn a frame.
    ///
    /// All calls together take fewer than 2^63 bytes. The claim was not given back, and the
    /// relay's caller made no other call since its last.
    ///
    /// # Errors
    /// Where the answer gives no body, the claim is not given, the chunked body ends within these
    /// bytes or is bad there, or a turn was refused. What stands before that has been done, and
    /// each later call answers the same and calls nothing.
    pub fn feed<T: Turns<Ring>>(&mut self, bytes: &[u8], place: &mut T) -> Result<(), RelayHalt>
        requires speaks { IsTrue (T.speaks place.old self.old.me) }
        requires held { IsHeldAt self.old.me self.old.stage (T.seen place.old) }
        requires few { (mount : ℕ) × (before : List ℕ) × (steps : List Step)
            × StandsFor mount self.old before steps
            × (length before + length bytes.now < 2 ^ 63) }
        ensures stays { Stays T.Turns place.old place.new }
        ensures relay { (self.new.me ≡ self.old.me)
            × (self.new.request.items ≡ self.old.request.items) }
        ensures adds { (mount : ℕ) (before : List ℕ) (steps : List Step)
            → StandsFor mount self.old before steps
            → AddsAt T.Turns place.old place.new self.old.me mount (λ more.
            StandsFor mount self.new (before ++ bytes.now) (steps ++ more)) }
        ensures fed { halt_at self.new.stage ≡ result_err result }
        ensures halted { IfSome (halt_at self.old.stage) (λ halt.
            (self.new ≡ self.old) × (place.new ≡ place.old)) }
        ensures holds { IfNone (halt_at self.old.stage)
            (IsHoldingBy self.old.me (claim_at self.new.stage) (T.seen place.new)) }
        ensures cause { IfNone (halt_at self.old.stage)
            (IfErr result (IsHaltOf (T.may_lack place.old) (T.worn place.new))) }
    {
        let stage = mem::replace(&mut self.stage, RelayStage::Halted(RelayHalt::Memory));
        let begun = go_on(stage, self.me, bytes, place);
        self.stage = begun.stage;
        begun.fed
    }

    /// Gives the claim back, which was given: one turn, which calls Release. After a refusal it is
    /// still held.
    pub fn release<T: Turns<Ring>>(&mut self, place: &mut T) -> Result<(), TurnFault>
        requires speaks { IsTrue (T.speaks place.old self.old.me) }
        requires claimed { (claim : ℕ) × (claim_at self.old.stage ≡ Some claim)
            × HeldSince self.old.me claim (T.seen place.old) }
        requires stands { (mount : ℕ) × (bytes : List ℕ) × (steps : List Step)
            × StandsFor mount self.old bytes steps }
        ensures stays { Stays T.Turns place.old place.new }
        ensures session { self.new ≡ self.old }
        ensures released { OnOk result (IfSome (claim_at self.old.stage) (λ claim.
            HeardAt T.Turns place.old place.new self.old.me
            ((RingCall.Release claim, RingAnswer.Released) ∷ []))) }
        ensures free { OnOk result ((state_of (T.seen place.new)).holder ≡ None) }
        ensures refused { OnErr result (T.seen place.new ≡ T.seen place.old) }
        ensures holds { OnErr result
            (IsHoldingBy self.old.me (claim_at self.old.stage) (T.seen place.new)) }
        ensures fault { IfErr result (IsFault (T.may_lack place.old) (T.worn place.new)) }
    {
        match &mut self.stage {
            RelayStage::Body(source) => source.release(place),
            RelayStage::Head { head: _, cutter: _ } => unreachable!(),
            RelayStage::Halted(_) => unreachable!(),
        }
    }

    /// The number of the claim, from 1, once it was given.
    pub fn claim_number(&self) -> Option<u64>
        ensures { result ≡ claim_at self.now.stage }
    {
        match &self.stage {
            RelayStage::Body(source) => Some(source.claim_number()),
            RelayStage::Head { head: _, cutter: _ } => None,
            RelayStage::Halted(_) => None,
        }
    }

    /// How many bytes of the body so far were no part of a frame; none where no claim was given.
    pub fn junk(&self) -> u64
        ensures unclaimed { IfNone (claim_at self.now.stage) (result ≡ 0) }
        ensures junk { IfSome (claim_at self.now.stage) (λ claim. IsJunk self.now result) }
        ensures at_most { IfSome (claim_at self.now.stage) (λ claim.
            IsAtMostJunk self.now result) }
    {
        match &self.stage {
            RelayStage::Body(source) => source.junk(),
            RelayStage::Head { head: _, cutter: _ } => 0,
            RelayStage::Halted(_) => 0,
        }
    }
}

// The request holds a password, and is not shown.
impl fmt::Debug for RelaySession {
    fn fmt<W: fmt::Write>(&self, f: &mut fmt::Formatter<W>) -> fmt::Result {
        f.debug_struct("RelaySession")
            .field("me", &self.me)
            .field("stage", &self.stage)
            .finish_non_exhaustive()
    }
}
