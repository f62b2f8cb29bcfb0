//! What is told of a connection that is closed.

ghost use Rattle.std.specs.Prelude.{◌≡◌, [], reverse, true, false, unwrap_or};
ghost use Rattle.rover_session.specs.Made.{overrun_in, sent_in};
ghost use Rattle.session_core.specs.Closing.{IsJunkAt, end_at, segments_at};
ghost use Rattle.session_model.specs.Endings.{ended_last};
ghost use Rattle.session_core.specs.Turned.{is_rover};

use crate::session_stage::SessionStage;
use rover_session::RoverSession;
use session_model::{Ending, Last, Receipt, Segments};
use std::alloc::Global;

/// The ending of a connection whose peer ended it at this stage.
fn ending_at_end(stage: &SessionStage) -> Ending
    ensures { result ≡ end_at stage.now }
{
    match stage {
        SessionStage::Source { mount: _, session } => Ending::SourceEnd {
            claim: session.claim_number(),
        },
        SessionStage::Relay { mount: _, session } => match session.claim_number() {
            None => Ending::NoHead,
            Some(claim) => Ending::SourceEnd { claim },
        },
        SessionStage::Rover {
            account: _,
            session: _,
        } => Ending::RoverEnd,
        _ => Ending::NoHead,
    }
}

/// The ending of a connection that is closed at this stage for this reason.
fn ending_last(stage: &SessionStage, last: Last) -> Ending
    ensures { result ≡ ended_last last (end_at stage.now) }
{
    match last {
        Last::End => ending_at_end(stage),
        Last::ReadFault => Ending::ReadFault,
        Last::WriteFault => Ending::WriteFault,
    }
}

/// How many bytes of a source's payload were no part of a frame.
fn junk_at(stage: &SessionStage) -> u64
    ensures { IsJunkAt stage.now result }
{
    match stage {
        SessionStage::Source { mount: _, session } => session.junk(),
        SessionStage::Relay { mount: _, session } => session.junk(),
        _ => 0,
    }
}

/// What is told of a connection that was closed and is no rover.
fn receipt_of_no_rover(alloc: Global, ending: Ending, junk: u64, settled: bool) -> Receipt
    ensures { result ≡ record {
      ending = ending;
      segments = [];
      sent = 0;
      overrun = 0;
      junk = junk;
      entered = false;
      settled = settled;
    } }
{
    Receipt {
        ending,
        segments: Segments::new(Vec::new(alloc)),
        sent: 0,
        overrun: 0,
        junk,
        entered: false,
        settled,
    }
}

/// What is told of a rover that was closed.
fn receipt_of_rover(session: RoverSession, ending: Ending, junk: u64, settled: bool) -> Receipt
    ensures ending { result.ending ≡ ending }
    ensures segments { result.segments ≡ reverse session.segments }
    ensures sent { result.sent ≡ sent_in session.segments }
    ensures overrun { result.overrun ≡ overrun_in session.segments }
    ensures junk { result.junk ≡ junk }
    ensures entered { result.entered ≡ true }
    ensures settled { result.settled ≡ settled }
{
    let sent = session.sent();
    let overrun = session.overrun();
    Receipt {
        ending,
        segments: Segments::new(session.into_segments()),
        sent,
        overrun,
        junk,
        entered: true,
        settled,
    }
}

/// What is told of a connection that was closed at this stage.
pub(crate) fn receipt_of(
    alloc: Global,
    stage: SessionStage,
    ended: Option<Ending>,
    last: Last,
    settled: bool,
) -> Receipt
    ensures ending { result.ending ≡ unwrap_or ended (ended_last last (end_at stage)) }
    ensures segments { result.segments ≡ reverse (segments_at stage) }
    ensures sent { result.sent ≡ sent_in (segments_at stage) }
    ensures overrun { result.overrun ≡ overrun_in (segments_at stage) }
    ensures junk { IsJunkAt stage result.junk }
    ensures entered { result.entered ≡ is_rover stage }
    ensures settled { result.settled ≡ settled }
{
    let ending = ended.unwrap_or(ending_last(&stage, last));
    let junk = junk_at(&stage);
    let told = receipt_of_no_rover(alloc, ending, junk, settled);
    match stage {
        SessionStage::Head(head) => {
            drop(head);
            told
        }
        SessionStage::Over => told,
        SessionStage::Source { mount: _, session } => {
            drop(session);
            told
        }
        SessionStage::Relay { mount: _, session } => {
            drop(session);
            told
        }
        SessionStage::Rover {
            account: _,
            session,
        } => {
            drop(told);
            receipt_of_rover(session, ending, junk, settled)
        }
    }
}
