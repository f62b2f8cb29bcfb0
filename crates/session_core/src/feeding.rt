//! Bytes that come in on a connection.

ghost use Rattle.std.specs.Prelude.{◌≡◌, ◌++◌, ℕ, IsTrue, List, length, map, IfSome, None};
ghost use Rattle.std.specs.Option.{option_map};
ghost use Rattle.std.specs.Result.{result_err};
ghost use Rattle.ntrip_head.specs.Ends.{IsEndOf};
ghost use Rattle.session_calls.specs.Steps.{Step};
ghost use Rattle.session_calls.specs.Rings.{AllSpeak};
ghost use Rattle.cast_config.specs.declared.config.Config.{Config as ConfigValue};
ghost use Rattle.cast_config.specs.Kept.{KeepsRules};
ghost use Rattle.session_model.specs.Called.{IsCause, OthersCalled};
ghost use Rattle.session_core.specs.Feeding.{FedOn, HasBegunFor, IsBehindHead, end_of_relay, end_of_source};
ghost use Rattle.session_model.specs.Judged.{Opening, sends_head};
ghost use Rattle.session_model.specs.Run.{Histories};
ghost use Rattle.session_model.specs.Setting.{caps, shapes};
ghost use Rattle.session_model.specs.Setting as setting;
ghost use Rattle.session_core.specs.Turned.{flow_of};
ghost use Rattle.session_core.specs.Asking.{StaysItself, TellsAsked, TellsBehind};
ghost use Rattle.session_core.specs.Standing.{Fed, Follows, Stands, StandsFor};
ghost use Rattle.session_core.specs.Setups.{IsSetUp};
ghost use Rattle.session_core.specs.Places.{Stay, seen_in, alone_in, worn_in};

use crate::asked::{Asked, asked_of};
use crate::begun::{Begun, finish};
use crate::ending::Flow;
use crate::judging::{begin_request, refused_head};
use crate::places::Places;
use crate::rovers::halt_of;
use crate::session::Session;
use crate::session_stage::SessionStage;
use crate::setup::Setup;
use crate::turning::flow_after;
use cast_config::Config;
use caster_accounts::Book;
use mount_ring::Ring;
use ntrip_head::{HeadEnd, HeadError, Version};
use ntrip_reply::Reply;
use session_model::Ending;
use source_session::SourceHalt;
use std::mem;
use turn_log::Turns;
use upstream_relay::RelayHalt;

/// How a source under this claim is ended by what its bytes came to.
fn ended_source(claim: u64, fed: Result<(), SourceHalt>) -> Option<Ending>
    ensures { result ≡ option_map (end_of_source claim) (result_err fed) }
{
    match fed {
        Ok(()) => None,
        Err(SourceHalt::Done) => Some(Ending::SourceEnd { claim }),
        Err(SourceHalt::BadChunk { at }) => Some(Ending::BadChunk { at }),
        Err(SourceHalt::Worn { turns }) => Some(Ending::Worn { turns }),
        Err(SourceHalt::Memory) => Some(Ending::Memory),
    }
}

/// How a relay is ended by what its bytes came to. A body is over only under a claim.
fn end_of_relay(claim: Option<u64>, halt: RelayHalt) -> Ending
    ensures { result ≡ end_of_relay claim halt }
{
    match halt {
        RelayHalt::BadHead => Ending::BadHead,
        RelayHalt::LongHead => Ending::LongHead,
        RelayHalt::Coding => Ending::Coding,
        RelayHalt::Table => Ending::UpstreamTable,
        RelayHalt::Status(status) => Ending::Upstream { status },
        RelayHalt::Taken { caller, claim } => Ending::Taken { caller, claim },
        RelayHalt::Done => Ending::SourceEnd {
            claim: claim.unwrap_or(0),
        },
        RelayHalt::BadChunk { at } => Ending::BadChunk { at },
        RelayHalt::Worn { turns } => Ending::Worn { turns },
        RelayHalt::Memory => Ending::Memory,
    }
}

/// How a relay is ended, if it is.
fn ended_relay(claim: Option<u64>, fed: Result<(), RelayHalt>) -> Option<Ending>
    ensures { result ≡ option_map (end_of_relay claim) (result_err fed) }
{
    match fed {
        Ok(()) => None,
        Err(halt) => Some(end_of_relay(claim, halt)),
    }
}

/// Begins a connection whose head ended this way. Gives what the head asked for, too.
fn begin<T: Turns<Ring>, B: Turns<Book>>(
    setup: &Setup,
    end: HeadEnd,
    places: &mut Places<T, B>,
    out: &mut Vec<u8>,
) -> (Begun, Option<Asked>)
    requires ready { IsSetUp setup.now }
    requires ended { (head : List ℕ) × IsEndOf head end }
    requires shapes { map T.shape places.old.rings.items ≡ shapes setup.now.config.now }
    requires caps { B.shape places.old.book ≡ caps setup.now.config.now }
    requires rings { AllSpeak T.speaks places.old.rings.items setup.now.me }
    requires book { IsTrue (B.speaks places.old.book setup.now.me) }
    ensures stay { Stay T.Turns B.Turns places.old places.new }
    ensures begun { (head : List ℕ) → IsEndOf head end
        → HasBegunFor setup.now.config.now (alone_in T.Turns B.Turns places.old)
        (seen_in T.Turns B.Turns places.old) (seen_in T.Turns B.Turns places.new) setup.now.me
        head result.0.stage result.0.ended out.old.items out.new.items }
    ensures asks { (head : List ℕ) → IsEndOf head end
        → TellsBehind sends_head head result.1 result.0.ended }
    ensures cause { IfSome result.0.ended (IsCause (worn_in T.Turns B.Turns places.new)) }
{
    match end {
        HeadEnd::Long => {
            let last = (Reply::BadHead, Ending::LongHead);
            (finish(Some(Version::One), last, setup.table, out), None)
        }
        HeadEnd::Whole(answer) => match answer {
            Ok(request) => {
                let begun = begin_request(setup, &request, places, out);
                (begun, Some(asked_of(request)))
            }
            Err(error) => match error {
                HeadError::Refused(fault) => {
                    let last = refused_head(fault);
                    (finish(Some(Version::One), last, setup.table, out), None)
                }
                HeadError::Memory => (Begun::over(Ending::Memory), None),
            },
        },
    }
}

impl Session {
    /// Takes more bytes behind the head. Those of a source or of a relay come to calls at the ring
    /// of its mountpoint.
    fn feed_behind<T: Turns<Ring>, B: Turns<Book>>(
        &mut self,
        bytes: &[u8],
        places: &mut Places<T, B>,
    )
        requires behind { IsBehindHead self.old.stage }
        requires goes_on { self.old.ended ≡ None }
        requires rings { AllSpeak T.speaks places.old.rings.items self.old.me }
        requires follows { (c : ConfigValue) × ((cap : ℕ) × KeepsRules cap c)
            × (map T.shape places.old.rings.items ≡ shapes c)
            × Follows c self.old (seen_in T.Turns B.Turns places.old) (length bytes.now) }
        ensures stay { Stay T.Turns B.Turns places.old places.new }
        ensures itself { StaysItself self.old self.new }
        ensures asks { (opening : Opening) (text : List ℕ) → TellsAsked opening text self.old
            → TellsAsked opening (text ++ bytes.now) self.new }
        ensures fed { (c : ConfigValue) (opening : Opening) (text : List ℕ) (steps : List Step)
            (histories : Histories) (sent : List ℕ) → map T.shape places.old.rings.items ≡ shapes c
            → Stands c self.old opening text steps histories sent
            → OthersCalled histories (seen_in T.Turns B.Turns places.old) self.old.me
            → FedOn c (alone_in T.Turns B.Turns places.old) (seen_in T.Turns B.Turns places.old)
            (seen_in T.Turns B.Turns places.new) self.new opening (text ++ bytes.now) steps sent }
        ensures cause { IfSome self.new.ended (IsCause (worn_in T.Turns B.Turns places.new)) }
    {
        match &mut self.stage {
            SessionStage::Head(_) => unreachable!(),
            SessionStage::Over => unreachable!(),
            SessionStage::Source { mount, session } => {
                let fed = session.feed(bytes, &mut places.rings[*mount as usize]);
                self.ended = ended_source(session.claim_number(), fed);
            }
            SessionStage::Relay { mount, session } => {
                let fed = session.feed(bytes, &mut places.rings[*mount as usize]);
                self.ended = ended_relay(session.claim_number(), fed);
            }
            SessionStage::Rover {
                account: _,
                session,
            } => {
                self.ended = halt_of(session.feed(bytes, places.rings.as_mut_slice()));
            }
        }
    }

    /// Takes bytes that came in. Where they end the head, the connection is judged by it: it is
    /// refused or sent the sourcetable, or it claims its mountpoint, or enters its account and
    /// joins; its reply is appended. Bytes behind the head are published frame by frame, or are a
    /// rover's reports.
    ///
    /// The places are as `close` has them, of the same configuration in each call, and `table` is
    /// its sourcetable. All calls together take fewer than 2^63 bytes.
    pub fn feed<T: Turns<Ring>, B: Turns<Book>>(
        &mut self,
        config: &Config,
        table: &[u8],
        bytes: &[u8],
        places: &mut Places<T, B>,
        out: &mut Vec<u8>,
    ) -> Flow
        requires goes_on { self.old.ended ≡ None }
        requires kept { (cap : ℕ) × KeepsRules cap config.now }
        requires table { table.now ≡ setting.table config.now }
        requires shapes { map T.shape places.old.rings.items ≡ shapes config.now }
        requires caps { B.shape places.old.book ≡ caps config.now }
        requires rings { AllSpeak T.speaks places.old.rings.items self.old.me }
        requires book { IsTrue (B.speaks places.old.book self.old.me) }
        requires follows { Follows config.now self.old (seen_in T.Turns B.Turns places.old)
            (length bytes.now) }
        ensures stay { Stay T.Turns B.Turns places.old places.new }
        ensures itself { StaysItself self.old self.new }
        ensures asks { (opening : Opening) (text : List ℕ) → TellsAsked opening text self.old
            → TellsAsked opening (text ++ bytes.now) self.new }
        ensures flow { result ≡ flow_of self.new.ended }
        ensures fed { (opening : Opening) (text : List ℕ) (steps : List Step)
            (histories : Histories) (sent : List ℕ)
            → StandsFor config.now self.old opening text steps histories sent
            → OthersCalled histories (seen_in T.Turns B.Turns places.old) self.old.me
            → Fed config.now (alone_in T.Turns B.Turns places.old)
            (seen_in T.Turns B.Turns places.old) (seen_in T.Turns B.Turns places.new) self.new
            opening (text ++ bytes.now) steps sent out.old.items out.new.items }
        ensures cause { IfSome self.new.ended (IsCause (worn_in T.Turns B.Turns places.new)) }
    {
        let SessionStage::Head(head) = &mut self.stage else {
            self.feed_behind(bytes, places);
            return flow_after(self.ended);
        };
        let (count, end) = head.read(bytes);
        let Some(end) = end else {
            return Flow::Open;
        };
        let setup = Setup {
            alloc: self.alloc,
            config,
            table,
            me: self.me,
        };
        let (begun, asked) = begin(&setup, end, places, out);
        drop(mem::replace(&mut self.stage, begun.stage));
        drop(mem::replace(&mut self.asked, asked));
        self.ended = begun.ended;
        if self.ended.is_some() {
            return Flow::Ended;
        }
        self.feed_behind(&bytes[count..], places);
        flow_after(self.ended)
    }
}
