//! From the head of an answer to its body.

ghost use Rattle.std.specs.Prelude.{◌≡◌, ◌<◌, ◌+◌, ◌^◌, ℕ, List, [], ◌++◌, length, Option, OnErr, IfOk};
ghost use Rattle.ntrip_client.specs.Answer.{IsAnswer};
ghost use Rattle.ntrip_fetch.specs.Sinks.{Counts};
ghost use Rattle.ntrip_fetch.specs.Writing.{HasWritten};
ghost use Rattle.ntrip_fetch.specs.Stages.{DecidedIs, IsAtStage, StageIs, StageTorn};

use crate::body::{Body, begin, take_body};
use crate::left::Left;
use cast_io::{Failed, Sink};
use ntrip_client::{Answer, AnswerHead};

/// How far a fetch is with what its link gives.
#[derive(Drop)]
pub(crate) enum FetchStage {
    /// The head of the answer comes.
    Head(AnswerHead),
    /// The answer was accepted, and the body comes.
    Body(Body),
}

/// What more bytes of a head say.
pub(crate) enum Decided {
    /// The head goes on.
    Open,
    /// No body follows.
    Refused(Left),
    /// A body follows, of which this was taken; it may be left already.
    Begun(Body, Option<Left>),
}

/// Takes more bytes of an answer whose head goes on. Where it ends within them and a body
/// follows, the frames that the rest of them completes are written, until `most` were.
fn decide<O: Sink>(
    head: &mut AnswerHead,
    count: &mut u64,
    most: u64,
    bytes: &[u8],
    out: &mut O,
) -> Result<Decided, Failed>
    requires open { IsAnswer head.old Answer.Open }
    requires few { length head.old + length bytes.now < 2 ^ 63 }
    requires none { count.old ≡ 0 }
    requires some { 0 < most }
    ensures decided { IfOk result (λ decided. (start : Option (List ℕ))
        → HasWritten start (O.taken out.old) [] count.old
        → DecidedIs start (O.taken out.new) most head.new (head.old ++ bytes.now) count.new
        decided) }
    ensures torn { OnErr result ((start : Option (List ℕ))
        → HasWritten start (O.taken out.old) [] count.old
        → StageTorn start (O.taken out.new) most (head.old ++ bytes.now)) }
    ensures sink { Counts (O.faults out.old) (O.faults out.new) result }
{
    let taken = head.feed(bytes);
    match taken.answer {
        Answer::Open => Ok(Decided::Open),
        Answer::Accepted { at: _, chunked } => {
            let mut body = begin(chunked);
            let left = take_body(&mut body, count, most, &bytes[taken.count..], out)?;
            Ok(Decided::Begun(body, left))
        }
        Answer::Refused(refusal) => Ok(Decided::Refused(Left::from(refusal))),
    }
}

/// Takes more bytes of the link, and writes the frames that they complete, until `most` were
/// written in all. Answers why the link is to be left, if it is.
pub(crate) fn take<O: Sink>(
    stage: &mut FetchStage,
    count: &mut u64,
    most: u64,
    bytes: &[u8],
    out: &mut O,
) -> Result<Option<Left>, Failed>
    requires few { (start : Option (List ℕ)) × (before : List ℕ)
        × IsAtStage start (O.taken out.old) most stage.old before count.old
        × (length before + length bytes.now < 2 ^ 63) }
    requires some { 0 < most }
    ensures took { IfOk result (λ left. (start : Option (List ℕ)) (before : List ℕ)
        → IsAtStage start (O.taken out.old) most stage.old before count.old
        → StageIs start (O.taken out.new) most stage.new (before ++ bytes.now) count.new left) }
    ensures torn { OnErr result ((start : Option (List ℕ)) (before : List ℕ)
        → IsAtStage start (O.taken out.old) most stage.old before count.old
        → StageTorn start (O.taken out.new) most (before ++ bytes.now)) }
    ensures sink { Counts (O.faults out.old) (O.faults out.new) result }
{
    match stage {
        FetchStage::Body(body) => take_body(body, count, most, bytes, out),
        FetchStage::Head(head) => match decide(head, count, most, bytes, out)? {
            Decided::Open => Ok(None),
            Decided::Refused(left) => Ok(Some(left)),
            Decided::Begun(body, left) => {
                *stage = FetchStage::Body(body);
                Ok(left)
            }
        },
    }
}
