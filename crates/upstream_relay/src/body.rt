//! From the head of an answer to its body.
ghost use Rattle.std.specs.Prelude.{◌≡◌, ℕ, ◌+◌, ◌^◌, ◌<◌, IsTrue, List, [], ◌++◌, length, IfSome, IfNone, IfErr};
ghost use Rattle.std.specs.Result.{result_err};
ghost use Rattle.session_calls.specs.Steps.{Step};
ghost use Rattle.source_session.specs.Calls.{IsHolding, HeldSince};
ghost use Rattle.source_session.specs.Places.{Stays};
ghost use Rattle.ntrip_client.specs.Answer.{IsAnswer};
ghost use Rattle.upstream_relay.specs.Standing.{StandsAt, halt_at, claim_at};
ghost use Rattle.upstream_relay.specs.Halts.{IsHaltOf};
ghost use Rattle.upstream_relay.specs.Called.{AddsAt, IsHeldAt, IsHoldingBy};

use crate::fault::RelayHalt;
use mount_ring::Ring;
use ntrip_client::{Answer, AnswerHead};
use rtcm_frame::Cutter;
use source_session::SourceSession;
use turn_log::Turns;

/// How far a relay is with the answer of the other caster.
#[derive(Debug, Drop)]
pub enum RelayStage {
    /// The head of the answer comes; the frames of its body will be cut by this cutter.
    Head {
        head: AnswerHead,
        cutter: Box<Cutter>,
    },
    /// The answer was accepted and the mountpoint claimed, and the body comes.
    Body(SourceSession),
    /// There is no body, or the claim was not given.
    Halted(RelayHalt),
}

/// What a relay comes to with more bytes of the answer.
#[derive(Debug, Drop)]
pub struct Begun {
    pub stage: RelayStage,
    pub fed: Result<(), RelayHalt>,
}

/// Publishes the frames that more of the body completes.
pub fn feed_body<T: Turns<Ring>>(
    source: &mut SourceSession,
    bytes: &[u8],
    place: &mut T,
) -> Result<(), RelayHalt>
    requires speaks { IsTrue (T.speaks place.old source.old.me) }
    requires held { IfNone source.old.halt
        (HeldSince source.old.me source.old.claim (T.seen place.old)) }
    requires few { (mount : ℕ) × (body : List ℕ) × (steps : List Step)
        × StandsAt mount source.old.me (RelayStage.Body source.old) body steps
        × (length body + length bytes.now < 2 ^ 63) }
    ensures stays { Stays T.Turns place.old place.new }
    ensures source { (source.new.me ≡ source.old.me) × (source.new.claim ≡ source.old.claim) }
    ensures adds { (mount : ℕ) (before : List ℕ) (steps : List Step)
        → StandsAt mount source.old.me (RelayStage.Body source.old) before steps
        → AddsAt T.Turns place.old place.new source.old.me mount (λ more.
        StandsAt mount source.old.me (RelayStage.Body source.new) (before ++ bytes.now)
        (steps ++ more)) }
    ensures fed { halt_at (RelayStage.Body source.new) ≡ result_err result }
    ensures halted { IfSome source.old.halt (λ halt.
        (source.new ≡ source.old) × (place.new ≡ place.old)) }
    ensures holds { IfNone source.old.halt
        (IsHolding source.old.me source.old.claim (T.seen place.new)) }
    ensures cause { IfNone source.old.halt
        (IfErr result (IsHaltOf (T.may_lack place.old) (T.worn place.new))) }
{
    match source.feed(bytes, place) {
        Ok(()) => Ok(()),
        Err(halt) => Err(RelayHalt::from(halt)),
    }
}

/// Claims the mountpoint, and publishes the frames of the body so far.
pub fn begin<T: Turns<Ring>>(
    me: u32,
    chunked: bool,
    cutter: Box<Cutter>,
    body: &[u8],
    place: &mut T,
) -> Begun
    requires speaks { IsTrue (T.speaks place.old me) }
    requires accepted { (head : List ℕ) × IsAnswer head (Answer.Accepted (length head) chunked)
        × (length head + length body.now < 2 ^ 63) }
    ensures stays { Stays T.Turns place.old place.new }
    ensures adds { (mount : ℕ) (head : List ℕ)
        → IsAnswer head (Answer.Accepted (length head) chunked)
        → AddsAt T.Turns place.old place.new me mount
        (StandsAt mount me result.stage (head ++ body.now)) }
    ensures fed { halt_at result.stage ≡ result_err result.fed }
    ensures holds { IsHoldingBy me (claim_at result.stage) (T.seen place.new) }
    ensures cause { IfErr result.fed (IsHaltOf (T.may_lack place.old) (T.worn place.new)) }
{
    match SourceSession::claim(me, chunked, cutter, place) {
        Err(fault) => {
            let halt = RelayHalt::from(fault);
            Begun {
                stage: RelayStage::Halted(halt),
                fed: Err(halt),
            }
        }
        Ok(mut source) => {
            let fed = feed_body(&mut source, body, place);
            Begun {
                stage: RelayStage::Body(source),
                fed,
            }
        }
    }
}

/// Takes more bytes of an answer whose head goes on, and where the head ends within them, what it
/// says is done.
pub fn decide<T: Turns<Ring>>(
    mut head: AnswerHead,
    cutter: Box<Cutter>,
    me: u32,
    bytes: &[u8],
    place: &mut T,
) -> Begun
    requires open { IsAnswer head Answer.Open }
    requires speaks { IsTrue (T.speaks place.old me) }
    requires few { length head + length bytes.now < 2 ^ 63 }
    ensures stays { Stays T.Turns place.old place.new }
    ensures adds { (mount : ℕ)
        → AddsAt T.Turns place.old place.new me mount
        (StandsAt mount me result.stage (head ++ bytes.now)) }
    ensures fed { halt_at result.stage ≡ result_err result.fed }
    ensures holds { IsHoldingBy me (claim_at result.stage) (T.seen place.new) }
    ensures cause { IfErr result.fed (IsHaltOf (T.may_lack place.old) (T.worn place.new)) }
{
    let taken = head.feed(bytes);
    match taken.answer {
        Answer::Open => Begun {
            stage: RelayStage::Head { head, cutter },
            fed: Ok(()),
        },
        Answer::Accepted { at: _, chunked } => {
            begin(me, chunked, cutter, &bytes[taken.count..], place)
        }
        Answer::Refused(refusal) => {
            let halt = RelayHalt::from(refusal);
            Begun {
                stage: RelayStage::Halted(halt),
                fed: Err(halt),
            }
        }
    }
}

/// Takes more bytes of an answer at this stage.
pub fn go_on<T: Turns<Ring>>(stage: RelayStage, me: u32, bytes: &[u8], place: &mut T) -> Begun
    requires speaks { IsTrue (T.speaks place.old me) }
    requires held { IsHeldAt me stage (T.seen place.old) }
    requires few { (mount : ℕ) × (before : List ℕ) × (steps : List Step)
        × StandsAt mount me stage before steps × (length before + length bytes.now < 2 ^ 63) }
    ensures stays { Stays T.Turns place.old place.new }
    ensures adds { (mount : ℕ) (before : List ℕ) (steps : List Step)
        → StandsAt mount me stage before steps
        → AddsAt T.Turns place.old place.new me mount (λ more.
        StandsAt mount me result.stage (before ++ bytes.now) (steps ++ more)) }
    ensures fed { halt_at result.stage ≡ result_err result.fed }
    ensures halted { IfSome (halt_at stage) (λ halt.
        (result.stage ≡ stage) × (place.new ≡ place.old)) }
    ensures holds { IfNone (halt_at stage)
        (IsHoldingBy me (claim_at result.stage) (T.seen place.new)) }
    ensures cause { IfNone (halt_at stage)
        (IfErr result.fed (IsHaltOf (T.may_lack place.old) (T.worn place.new))) }
{
    match stage {
        RelayStage::Halted(halt) => Begun {
            stage: RelayStage::Halted(halt),
            fed: Err(halt),
        },
        RelayStage::Body(mut source) => {
            let fed = feed_body(&mut source, bytes, place);
            Begun {
                stage: RelayStage::Body(source),
                fed,
            }
        }
        RelayStage::Head { head, cutter } => decide(head, cutter, me, bytes, place),
    }
}
