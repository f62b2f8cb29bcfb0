//! A caster that records its session.

ghost use Rattle.std.specs.Prelude.{◌≡◌, ℕ, ◌+◌, ◌<◌, ◌≤◌, ◌⊎◌, ◌++◌, [], ◌∷◌, length, map, false, vec_len, vec_capacity, IsTrue, IfOk, OnErr, OnOk};
ghost use Rattle.std.specs.Result.{IsErrOf};
ghost use Rattle.cast_config.specs.Kept.{KeepsRules};
ghost use Rattle.cast_io.specs.Causes.{Rose};
ghost use Rattle.cast_io.specs.Doors.{HasAccepted};
ghost use Rattle.cast_io.specs.Links.{IsNewLink};
ghost use Rattle.cast_io.specs.Told.{DoorTold};
ghost use Rattle.session_model.specs.Reports.{IsReport};
ghost use Rattle.caster_replay.specs.Going.{GoesOn};
ghost use Rattle.caster_replay.specs.Kept.{sent_by_run};
ghost use Rattle.caster_replay.specs.Sends.{told_sent};
ghost use Rattle.caster_record.specs.Arriving.{HasTakenBack, HaveCome, HaveLeft};
ghost use Rattle.caster_record.specs.Keeping.{IsWithin, RestsAfter};
ghost use Rattle.caster_record.specs.Recorded.{IsAtEnd, IsRecorded};
ghost use Rattle.caster_record.specs.Recording.{Records, events_in};

use crate::fault::RecorderFault;
use crate::recorder::Recorder;
use crate::rounds::MAX_TAPE_BYTES;
use crate::setup::RecordSetup;
use cast_config::Config;
use cast_io::{Arrived, Door, Link};
use session_core::Report;
use session_script::Event;
use std::alloc::{AllocError, Global};
use std::sync::Wait;

/// A session that was recorded.
#[derive(Drop)]
pub struct Recorded<L> {
    /// What happened, one event after the other.
    pub events: Vec<Event>,
    /// The report of these events.
    pub report: Report,
    /// The links that came, in the order of the connections' numbers, from 1.
    pub links: Vec<L>,
}

/// The events and the report.
#[derive(Drop)]
struct RecordedRun {
    events: Vec<Event>,
    report: Report,
}

impl Recorder {
    /// Whether none of the connections from 1 to this number goes on.
    fn none_goes_on(&self, config: &Config, count: u32) -> bool
        requires records { Records config.now self.now }
        ensures { IsTrue result → (k : ℕ) → 1 ≤ k → k ≤ count
            → GoesOn config.now (events_in self.now) k false }
    {
        for before in 0..count {
            if self.run.goes_on(before + 1) {
                return false;
            }
        }
        true
    }

    /// Whether the recording is at its end, where so many links came.
    fn is_at_end(&self, config: &Config, limit: u32, count: usize) -> bool
        requires records { Records config.now self.now }
        requires few { count ≤ 256 }
        ensures { IsTrue result → IsAtEnd config.now limit (events_in self.now) count }
    {
        self.tape.size > MAX_TAPE_BYTES || count as u32 == limit && self.none_goes_on(config, limit)
    }

    /// Whether the door is to be asked for a link: fewer came than may, and the record has not come
    /// to its limit.
    fn may_ask(&self, limit: u32, count: usize) -> bool
        requires few { count ≤ 256 }
        ensures open { IsTrue result → (count < limit) × (self.now.tape.size ≤ 8370000) }
        ensures full { result ≡ false → (limit ≤ count) ⊎ (8370000 < self.now.tape.size) }
    {
        (count as u32) < limit && self.tape.size <= MAX_TAPE_BYTES
    }

    /// A link came: its connection opens, and no write to it was torn.
    fn open_link<L: Link>(
        &mut self,
        setup: &RecordSetup,
        link: L,
        links: &mut Vec<L>,
        torn: &mut Vec<bool>,
    ) -> Result<(), AllocError>
        requires kept { (cap : ℕ) × KeepsRules cap setup.now.config.now }
        requires limit { setup.now.limit ≤ 256 }
        requires rests { (before : DoorTold) × (door : DoorTold)
            × RestsAfter L.told setup.now.config.now setup.now.limit before door self.old
            links.old.items torn.old.items }
        requires fresh { IsNewLink (L.told link) }
        requires fewer { length links.old.items < setup.now.limit }
        requires small { self.old.tape.size ≤ 8370000 }
        requires room { vec_len links.old + 1 ≤ vec_capacity links.old }
        requires mark { vec_len torn.old + 1 ≤ vec_capacity torn.old }
        ensures begins { OnOk result ((before door later : DoorTold)
            → RestsAfter L.told setup.now.config.now setup.now.limit before door self.old
            links.old.items torn.old.items → HasAccepted L.told door later (Arrived.Link link)
            → IsWithin L.told setup.now.config.now setup.now.limit 0 before later self.new
            links.new.items torn.new.items) }
        ensures pushed { links.new.items ≡ links.old.items ++ link ∷ [] }
    {
        links.push_reserved(link);
        torn.push_reserved(false);
        self.play(setup.alloc, setup.config, Event::Open(links.len() as u32))?;
        Ok(())
    }

    /// Asks the door for a link. Answers whether one came.
    fn ask<D: Door>(
        &mut self,
        setup: &RecordSetup,
        door: &mut D,
        links: &mut Vec<D::Link>,
        torn: &mut Vec<bool>,
    ) -> Result<bool, RecorderFault>
        requires kept { (cap : ℕ) × KeepsRules cap setup.now.config.now }
        requires limit { setup.now.limit ≤ 256 }
        requires rests { (before : DoorTold)
            × RestsAfter D.Link.told setup.now.config.now setup.now.limit before (D.told door.old)
            self.old links.old.items torn.old.items }
        requires fewer { length links.old.items < setup.now.limit }
        requires small { self.old.tape.size ≤ 8370000 }
        requires room { vec_len links.old + 1 ≤ vec_capacity links.old }
        requires mark { vec_len torn.old + 1 ≤ vec_capacity torn.old }
        ensures begins { IfOk result (λ came. (before : DoorTold)
            → RestsAfter D.Link.told setup.now.config.now setup.now.limit before (D.told door.old)
            self.old links.old.items torn.old.items
            → IsWithin D.Link.told setup.now.config.now setup.now.limit 0 before (D.told door.new)
            self.new links.new.items torn.new.items) }
        ensures come { HaveCome (D.told door.old) (D.told door.new)
            (map D.Link.told links.old.items) (map D.Link.told links.new.items) }
        ensures network { IsErrOf result RecorderFault.Network
            → Rose (D.told door.old).faults (D.told door.new).faults }
    {
        match door.accept() {
            Arrived::Link(link) => {
                self.open_link(setup, link, links, torn)?;
                Ok(true)
            }
            Arrived::Idle => Ok(false),
            Arrived::Failed => Err(RecorderFault::Network),
        }
    }

    /// Asks the door for a link, where one may come. Answers whether one came.
    fn accept<D: Door>(
        &mut self,
        setup: &RecordSetup,
        door: &mut D,
        links: &mut Vec<D::Link>,
        torn: &mut Vec<bool>,
    ) -> Result<bool, RecorderFault>
        requires kept { (cap : ℕ) × KeepsRules cap setup.now.config.now }
        requires limit { setup.now.limit ≤ 256 }
        requires rests { (before : DoorTold)
            × RestsAfter D.Link.told setup.now.config.now setup.now.limit before (D.told door.old)
            self.old links.old.items torn.old.items }
        ensures begins { IfOk result (λ came. (before : DoorTold)
            → RestsAfter D.Link.told setup.now.config.now setup.now.limit before (D.told door.old)
            self.old links.old.items torn.old.items
            → IsWithin D.Link.told setup.now.config.now setup.now.limit 0 before (D.told door.new)
            self.new links.new.items torn.new.items) }
        ensures come { HaveCome (D.told door.old) (D.told door.new)
            (map D.Link.told links.old.items) (map D.Link.told links.new.items) }
        ensures network { IsErrOf result RecorderFault.Network
            → Rose (D.told door.old).faults (D.told door.new).faults }
    {
        if !self.may_ask(setup.limit, links.len()) {
            return Ok(false);
        }
        links.reserve(1)?;
        torn.reserve(1)?;
        let came = self.ask(setup, door, links, torn)?;
        Ok(came)
    }
}

/// One round: a link may come, and then all that are due are served.
fn round<D: Door>(
    setup: &RecordSetup,
    door: &mut D,
    recorder: &mut Recorder,
    links: &mut Vec<D::Link>,
    torn: &mut Vec<bool>,
) -> Result<(), RecorderFault>
    requires kept { (cap : ℕ) × KeepsRules cap setup.now.config.now }
    requires limit { setup.now.limit ≤ 256 }
    requires rests { (before : DoorTold)
        × RestsAfter D.Link.told setup.now.config.now setup.now.limit before (D.told door.old)
        recorder.old links.old.items torn.old.items }
    ensures rests { OnOk result ((before : DoorTold)
        → RestsAfter D.Link.told setup.now.config.now setup.now.limit before (D.told door.old)
        recorder.old links.old.items torn.old.items
        → RestsAfter D.Link.told setup.now.config.now setup.now.limit before (D.told door.new)
        recorder.new links.new.items torn.new.items) }
    ensures come { HaveCome (D.told door.old) (D.told door.new)
        (map D.Link.told links.old.items) (map D.Link.told links.new.items) }
    ensures network { IsErrOf result RecorderFault.Network
        → Rose (D.told door.old).faults (D.told door.new).faults }
{
    let came = recorder.accept(setup, door, links, torn)?;
    let busy = recorder.serve_all(setup, links, torn)?;
    if came || busy {
        return Ok(());
    }
    door.rest();
    Ok(())
}

/// Rounds, until the recording is at its end.
fn run<D: Door, R: Wait>(
    rt: &R,
    setup: &RecordSetup,
    door: &mut D,
    recorder: &mut Recorder,
    links: &mut Vec<D::Link>,
    torn: &mut Vec<bool>,
) -> Result<(), RecorderFault>
    requires kept { (cap : ℕ) × KeepsRules cap setup.now.config.now }
    requires limit { setup.now.limit ≤ 256 }
    requires rests { RestsAfter D.Link.told setup.now.config.now setup.now.limit (D.told door.old)
        (D.told door.old) recorder.old links.old.items torn.old.items }
    ensures rests { OnOk result (RestsAfter D.Link.told setup.now.config.now setup.now.limit
        (D.told door.old) (D.told door.new) recorder.new links.new.items torn.new.items) }
    ensures ended { OnOk result (IsAtEnd setup.now.config.now setup.now.limit
        (events_in recorder.new) (length links.new.items)) }
    ensures come { HaveCome (D.told door.old) (D.told door.new)
        (map D.Link.told links.old.items) (map D.Link.told links.new.items) }
    ensures network { IsErrOf result RecorderFault.Network
        → Rose (D.told door.old).faults (D.told door.new).faults }
{
    for _ in rt.forever() {
        if recorder.is_at_end(setup.config, setup.limit, links.len()) {
            return Ok(());
        }
        round(setup, door, recorder, links, torn)?;
    }
    unreachable!()
}

/// The events and the report of what was recorded.
fn finish_run(alloc: Global, config: &Config, recorder: Recorder) -> Result<RecordedRun, AllocError>
    requires kept { (cap : ℕ) × KeepsRules cap config.now }
    requires records { Records config.now recorder }
    requires bound { recorder.tape.size ≤ 8378380 }
    ensures events { IfOk result (λ told. told.events.items ≡ events_in recorder) }
    ensures report { IfOk result (λ told.
        IsReport config.now (events_in recorder) told.report) }
    ensures sent { (n : ℕ) → IfOk result (λ told.
        told_sent n told.report.connections ≡ sent_by_run recorder.run n) }
{
    let Recorder { run, tape } = recorder;
    let report = run.finish(alloc, config)?;
    Ok(RecordedRun {
        events: tape.events,
        report,
    })
}

/// Records a session, whose links stand in `links` then.
fn session<D: Door, R: Wait>(
    rt: &R,
    alloc: Global,
    config: &Config,
    limit: u32,
    door: &mut D,
    links: &mut Vec<D::Link>,
) -> Result<RecordedRun, RecorderFault>
    requires kept { (cap : ℕ) × KeepsRules cap config.now }
    requires limit { limit ≤ 256 }
    requires empty { links.old.items ≡ [] }
    ensures recorded { IfOk result (λ told. IsRecorded config.now limit (D.told door.old)
        (D.told door.new) told.events.items told.report (map D.Link.told links.new.items)) }
    ensures calm { OnOk result ((D.told door.new).faults ≡ (D.told door.old).faults) }
    ensures come { HaveCome (D.told door.old) (D.told door.new) []
        (map D.Link.told links.new.items) }
    ensures network { IsErrOf result RecorderFault.Network
        → Rose (D.told door.old).faults (D.told door.new).faults }
{
    let mut recorder = Recorder::new(alloc, config)?;
    let mut torn = Vec::new(alloc);
    let setup = RecordSetup {
        alloc,
        config,
        limit,
    };
    run(rt, &setup, door, &mut recorder, links, &mut torn)?;
    let told = finish_run(alloc, config, recorder)?;
    Ok(told)
}

/// Hangs all of these links up at the door that gave them, in order.
pub fn hang_up_all<D: Door>(door: &mut D, links: Vec<D::Link>)
    ensures { HasTakenBack (map D.Link.told links.items) (D.told door.old) (D.told door.new) }
{
    let mut links = links.into_iter();
    while let Some(link) = links.next() {
        door.hang_up(link);
    }
    links.destroy_empty();
}

/// Serves the links that come to the door, at most `limit` of them, 1 to 256, and records what
/// happens.
///
/// It goes in rounds: one accept while fewer links came than may, whoever is connected; then, for
/// each connection that goes on, in increasing order of number, a read of at most 4,096 bytes, a
/// turn of 16 frames where it has frames to read, and a write of what it was then sent. A
/// connection whose write fails while it goes on breaks. After a round in which nothing happened
/// the door rests. It ends where `limit` links came and none goes on, or where the lines of the
/// events have more than 8,370,000 bytes.
///
/// # Errors
/// `Network` where the door failed, and `Memory` for want of memory, also where a session was
/// halted by it. Then the links that came were hung up at the door.
pub fn record<D: Door, R: Wait>(
    rt: &R,
    alloc: Global,
    config: &Config,
    limit: u32,
    door: &mut D,
) -> Result<Recorded<D::Link>, RecorderFault>
    requires kept { (cap : ℕ) × KeepsRules cap config.now }
    requires limit { (1 ≤ limit) × (limit ≤ 256) }
    ensures recorded { IfOk result (λ r. IsRecorded config.now limit (D.told door.old)
        (D.told door.new) r.events.items r.report (map D.Link.told r.links.items)) }
    ensures calm { OnOk result ((D.told door.new).faults ≡ (D.told door.old).faults) }
    ensures come { IfOk result
        (λ r. HaveCome (D.told door.old) (D.told door.new) [] (map D.Link.told r.links.items)) }
    ensures network { IsErrOf result RecorderFault.Network
        → Rose (D.told door.old).faults (D.told door.new).faults }
    ensures left { OnErr result (HaveLeft (D.told door.old) (D.told door.new)) }
{
    let mut links = Vec::new(alloc);
    match session(rt, alloc, config, limit, door, &mut links) {
        Ok(RecordedRun { events, report }) => Ok(Recorded {
            events,
            report,
            links,
        }),
        Err(fault) => {
            hang_up_all(door, links);
            Err(fault)
        }
    }
}
