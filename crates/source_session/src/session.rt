ghost use Rattle.std.specs.Prelude.{◌≡◌, ℕ, ◌+◌, ◌^◌, ◌<◌, ◌≤◌, IsTrue, List, [], ◌∷◌, ◌++◌, length, ◌⊎◌, is_some, Some, None, OnOk, OnErr, IfOk, IfErr, IfSome, IfNone};
ghost use Rattle.std.specs.Result.{result_err};
ghost use Rattle.rtcm_frame.specs.Cut.{cut};
ghost use Rattle.turn_log.specs.Faults.{IsFault};
ghost use Rattle.mount_ring.specs.History.{state_of};
ghost use Rattle.source_session.specs.Body.{payload, completed};
ghost use Rattle.source_session.specs.Calls.{IsHolding, HeldSince};
ghost use Rattle.source_session.specs.Places.{Stays, HeardAt, PublishedBy, IsUnclaimedAt};
ghost use Rattle.source_session.specs.Standing.{GoesOnAt, StandsBy, StandsFor, IsUnfed, is_chunked, is_cut_short, junk_of};
ghost use Rattle.source_session.specs.Refusals.{IsClaimFault, IsHaltOf};
ghost use Rattle.source_session.specs.Taken.{TookMore, HasTaken};

use crate::fault::{ClaimFault, SourceHalt};
use crate::publish::{publish_chunked, publish_plain};
use chunk_body::Dechunk;
use mount_ring::{Outbox, Ring, RingAnswer, RingCall};
use rtcm_frame::Cutter;
use turn_log::{TurnFault, Turns};

/// A source that was given the claim of a mountpoint: it is fed the bytes of its body, and
/// publishes each frame of RTCM 10403.3 as soon as these complete it.
///
/// A body comes as it is, or in the chunked transfer coding (RFC 9112, section 7.1). Of the body no
/// more is kept than a frame that is not complete. No call takes memory.
///
/// `StandsFor` ties a session to the body that it was fed so far, and each call says what it makes
/// of that.
#[derive(Debug, Drop)]
pub struct SourceSession {
    me: u32,
    claim: u64,
    chunks: Option<Dechunk>,
    cutter: Box<Cutter>,
    halt: Option<SourceHalt>,
}

impl SourceSession {
    /// Claims a mountpoint for the caller `me`: one turn, which calls Claim. `chunked` says how the
    /// body will come, and `cutter` is what will cut its frames: what that held is let go.
    ///
    /// Answers `Taken` where the mountpoint is held, by this caller or another.
    pub fn claim<T: Turns<Ring>>(
        me: u32,
        chunked: bool,
        cutter: Box<Cutter>,
        place: &mut T,
    ) -> Result<SourceSession, ClaimFault>
        requires speaks { IsTrue (T.speaks place.old me) }
        ensures stays { Stays T.Turns place.old place.new }
        ensures given { IfOk result (λ session.
            HeardAt T.Turns place.old place.new me
            ((RingCall.Claim, RingAnswer.Given session.claim) ∷ [])) }
        ensures holds { IfOk result (λ session.
            IsHolding me session.claim (T.seen place.new)) }
        ensures begins { IfOk result (λ session. IsUnfed session me chunked) }
        ensures unclaimed { IfErr result (λ fault.
            IsUnclaimedAt T.Turns place.old place.new me fault) }
        ensures cause { IfErr result (IsClaimFault (T.may_lack place.old) (T.worn place.new)) }
    {
        let mut room = Outbox::new();
        match place.turn(me, RingCall::Claim, &mut room)? {
            RingAnswer::Given(claim) => Ok(SourceSession::begin(me, claim, chunked, cutter)),
            RingAnswer::Taken { caller, claim } => Err(ClaimFault::Taken { caller, claim }),
            _ => unreachable!(),
        }
    }

    /// Takes more bytes of the body, and publishes each frame that they complete: one turn a frame,
    /// which calls Publish.
    ///
    /// Answers a halt where the chunked body ends within these bytes or is bad there, or where a
    /// turn was refused. What stands before that was published, and each later call answers the
    /// same halt and calls nothing. All calls together take fewer than 2^63 bytes. The claim was
    /// not given back, and the session's caller made no other call since its last.
    pub fn feed<T: Turns<Ring>>(&mut self, bytes: &[u8], place: &mut T) -> Result<(), SourceHalt>
        requires speaks { IsTrue (T.speaks place.old self.old.me) }
        requires held { IfNone self.old.halt
            (HeldSince self.old.me self.old.claim (T.seen place.old)) }
        requires few { (body : List ℕ) × StandsFor self.old body
            × (length body + length bytes.now < 2 ^ 63) }
        ensures stays { Stays T.Turns place.old place.new }
        ensures source { (self.new.me ≡ self.old.me) × (self.new.claim ≡ self.old.claim)
            × (is_chunked self.new ≡ is_chunked self.old) }
        ensures stands { (body : List ℕ) → StandsFor self.old body
            → StandsFor self.new (body ++ bytes.now) }
        ensures heard { (body : List ℕ) → StandsFor self.old body
            → PublishedBy T.Turns place.old place.new self.old.me self.old.claim
            (result_err result) (completed (is_chunked self.old) body bytes.now) }
        ensures halt { self.new.halt ≡ result_err result }
        ensures halted { IfSome self.old.halt (λ halt.
            (self.new ≡ self.old) × (place.new ≡ place.old)) }
        ensures taken { IfNone self.old.halt
            (HasTaken T.Turns place.old place.new self.old self.new bytes.now result) }
    {
        match self.halt {
            Some(halt) => Err(halt),
            None => {
                let fed = self.take(bytes, place);
                self.halt = fed.err();
                fed
            }
        }
    }

    /// Gives the claim back: one turn, which calls Release. After a refusal it is still held.
    pub fn release<T: Turns<Ring>>(&mut self, place: &mut T) -> Result<(), TurnFault>
        requires speaks { IsTrue (T.speaks place.old self.old.me) }
        requires held { HeldSince self.old.me self.old.claim (T.seen place.old) }
        ensures stays { Stays T.Turns place.old place.new }
        ensures session { self.new ≡ self.old }
        ensures released { OnOk result
            (HeardAt T.Turns place.old place.new self.old.me
            ((RingCall.Release self.old.claim, RingAnswer.Released) ∷ [])) }
        ensures free { OnOk result ((state_of (T.seen place.new)).holder ≡ None) }
        ensures refused { OnErr result (T.seen place.new ≡ T.seen place.old) }
        ensures holds { OnErr result (IsHolding self.old.me self.old.claim (T.seen place.new)) }
        ensures fault { IfErr result (IsFault (T.may_lack place.old) (T.worn place.new)) }
    {
        let mut room = Outbox::new();
        place.turn(self.me, RingCall::Release(self.claim), &mut room)?;
        Ok(())
    }

    /// The number of the claim, from 1.
    pub fn claim_number(&self) -> u64
        ensures { result ≡ self.now.claim }
    {
        self.claim
    }

    /// How many bytes so far were no part of a frame: where a turn was refused, of those in front
    /// of the frame that was not published.
    pub fn junk(&self) -> u64
        ensures told { result ≡ junk_of self.now }
        ensures junk { (body : List ℕ) → StandsFor self.now body
            → IsTrue (is_cut_short self.now.halt)
            ⊎ (result ≡ (cut (payload (is_chunked self.now) body)).junk) }
        ensures at_most { (body : List ℕ) → StandsFor self.now body
            → result ≤ (cut (payload (is_chunked self.now) body)).junk }
    {
        self.cutter.junk()
    }

    // A session that was fed nothing.
    fn begin(me: u32, claim: u64, chunked: bool, mut cutter: Box<Cutter>) -> SourceSession
        ensures begins { IsUnfed result me chunked }
        ensures claim { result.claim ≡ claim }
    {
        let chunks = chunk_reader(chunked);
        *cutter = Cutter::new();
        SourceSession {
            me,
            claim,
            chunks,
            cutter,
            halt: None,
        }
    }

    // Takes more bytes of a body that goes on.
    fn take<T: Turns<Ring>>(&mut self, bytes: &[u8], place: &mut T) -> Result<(), SourceHalt>
        requires speaks { IsTrue (T.speaks place.old self.old.me) }
        requires holds { IsHolding self.old.me self.old.claim (T.seen place.old) }
        requires few { (body : List ℕ) × StandsBy None self.old.chunks self.old.cutter.value body
            × (length body + length bytes.now < 2 ^ 63) }
        ensures stays { Stays T.Turns place.old place.new }
        ensures holds { IsHolding self.old.me self.old.claim (T.seen place.new) }
        ensures source { (self.new.me ≡ self.old.me) × (self.new.claim ≡ self.old.claim)
            × (is_chunked self.new ≡ is_chunked self.old) }
        ensures took { (body : List ℕ)
            → StandsBy None self.old.chunks self.old.cutter.value body
            → TookMore T.Turns place.old place.new self.old.me self.old.claim (result_err result)
            self.new.chunks self.new.cutter.value body bytes.now }
        ensures cause { IfErr result (IsHaltOf (T.may_lack place.old) (T.worn place.new)) }
    {
        match &mut self.chunks {
            None => publish_plain(&mut self.cutter, self.me, self.claim, bytes, place),
            Some(chunks) => {
                publish_chunked(chunks, &mut self.cutter, self.me, self.claim, bytes, place)
            }
        }
    }
}

// A reader of the chunks of a body that comes in chunks.
fn chunk_reader(chunked: bool) -> Option<Dechunk>
    ensures begins { GoesOnAt result [] }
    ensures chunked { is_some result ≡ chunked }
{
    if chunked { Some(Dechunk::new()) } else { None }
}
