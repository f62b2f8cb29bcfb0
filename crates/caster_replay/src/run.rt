//! A run that is played event by event.

ghost use Rattle.std.specs.Prelude.{◌≡◌, ℕ, ◌+◌, [], ◌∷◌, ◌++◌, List, IsTrue, IfOk, OnOk};
ghost use Rattle.cast_config.specs.declared.config.Config.{Config as ConfigValue};
ghost use Rattle.cast_config.specs.Kept.{KeepsRules};
ghost use Rattle.session_model.specs.declared.report.Connection.{Connection as ConnectionValue};
ghost use Rattle.session_model.specs.Reports.{IsReport};
ghost use Rattle.session_script.specs.declared.Event.{Event as EventValue};
ghost use Rattle.caster_replay.specs.RunConnections.{AreOver, IsOverAt};
ghost use Rattle.caster_replay.specs.Going.{GoesOn, IsBehind, IsRover, MaySpeak};
ghost use Rattle.caster_replay.specs.Kept.{HasRings, MayCome, SameButRings, StandsFor, homes_of, lives_of, sent_by_run};
ghost use Rattle.caster_replay.specs.Lives.{AreTold, IsToldBy, lives_in};
ghost use Rattle.caster_replay.specs.Scripts.{IsShort, Stands};
ghost use Rattle.caster_replay.specs.Sends.{IsSilent, Sends, told_sent};

use crate::desks::Desks;
use crate::event::{Request, request_of};
use crate::lives::{apply, close_all, find, open, rover_of};
use crate::ring_place::RingPlace;
use crate::run_connection::{RunConnection, State};
use crate::totals::totals;
use cast_config::Config;
use config_table::table_text;
use mount_ring::Ring;
use session_core::{Closed, Connection, Connections, Report, RoverState, Sent};
use session_script::Event;
use std::alloc::{AllocError, Global};
use turn_log::Turns;

/// The connections of a recorded run, the places that they call at, and the sourcetable that
/// clients are sent.
#[derive(Drop)]
pub struct Run<P: Turns<Ring>> {
    table: Vec<u8>,
    entries: Vec<RunConnection>,
    desks: Desks<P>,
}

/// What is told of a connection that is over.
fn outcome_of(entry: RunConnection) -> Connection
    requires over { IsOverAt entry.state }
    ensures { IsToldBy entry.state entry.number entry.bytes.items result }
{
    let RunConnection {
        number,
        state,
        bytes,
    } = entry;
    let State::Closed(receipt) = state else {
        unreachable!();
    };
    Connection {
        number,
        receipt,
        bytes: Sent::new(bytes),
    }
}

/// What is told of all connections, which are over.
fn told_all(alloc: Global, entries: Vec<RunConnection>) -> Result<Vec<Connection>, AllocError>
    requires over { AreOver (lives_in entries.items) }
    ensures { IfOk result (λ list. AreTold (lives_in entries.items) list.items) }
{
    let mut list = Vec::new(alloc);
    for entry in entries {
        list.push(outcome_of(entry))?;
    }
    Ok(list)
}

/// Closes the connections that go on, each as its end, and tells what the mountpoints and accounts
/// came to.
fn close_down<P: RingPlace>(
    alloc: Global,
    config: &Config,
    entries: &mut Vec<RunConnection>,
    desks: &mut Desks<P>,
) -> Result<Closed, AllocError>
    requires kept { (cap : ℕ) × KeepsRules cap config.now }
    requires run { (script : List EventValue) × IsShort script
        × Stands config.now script entries.old.items desks.old }
    ensures report { (script : List EventValue) → IsShort script
        → Stands config.now script entries.old.items desks.old → IfOk result (λ closed.
        (told : List ConnectionValue) → AreTold (lives_in entries.new.items) told
        → IsReport config.now script (record { connections = told; closed = closed })) }
    ensures over { OnOk result (AreOver (lives_in entries.new.items)) }
    ensures silent { OnOk result
        (IsSilent (lives_in entries.old.items) (lives_in entries.new.items)) }
{
    close_all(entries, desks)?;
    totals(alloc, config, desks)
}

impl<P: RingPlace> Run<P> {
    /// The run of no events yet, over one place a mountpoint, made as the configuration says, and
    /// one desk of the book of accounts.
    pub fn new(alloc: Global, config: &Config) -> Result<Run<P>, AllocError>
        requires kept { (cap : ℕ) × KeepsRules cap config.now }
        ensures stands { IfOk result (λ run. StandsFor config.now [] run) }
        ensures unsent { (n : ℕ) → IfOk result (λ run. sent_by_run run n ≡ []) }
    {
        let table = table_text(alloc, config)?;
        let desks = Desks::new(alloc, config)?;
        let entries = Vec::new(alloc);
        Ok(Run {
            table,
            entries,
            desks,
        })
    }

    /// Plays one event more. A connection that ends by itself is closed at once.
    ///
    /// # Errors
    /// For want of memory, also where a session or a turn was halted by it. Then the run is of no
    /// further use.
    pub fn play(&mut self, alloc: Global, config: &Config, event: &Event) -> Result<(), AllocError>
        requires kept { (cap : ℕ) × KeepsRules cap config.now }
        requires run { (script : List EventValue) × StandsFor config.now script self.old
            × MayCome config.now script event.now }
        ensures played { (script : List EventValue) → StandsFor config.now script self.old
            → MayCome config.now script event.now
            → OnOk result (StandsFor config.now (script ++ event.now ∷ []) self.new) }

        // Nobody else than the event's own connection is sent more.
        ensures sends { OnOk result (Sends event.now (lives_of self.old) (lives_of self.new)) }
        ensures homes { homes_of self.new ≡ homes_of self.old }
    {
        let (number, request) = request_of(event);
        let entries = &mut self.entries;
        let desks = &mut self.desks;
        match request {
            Request::Open(way) => open(alloc, config, entries, desks, number, way),
            Request::Apply(act) => apply(config, &self.table, entries, desks, number, act),
        }
    }

    /// Whether the connection of this number was opened and goes on.
    pub fn goes_on(&self, number: u32) -> bool
        requires run { (c : ConfigValue) × (script : List EventValue)
            × StandsFor c script self.now }
        ensures goes_on { (c : ConfigValue) (script : List EventValue)
            → StandsFor c script self.now → GoesOn c script number result }
        ensures speaks { (c : ConfigValue) (script : List EventValue)
            → StandsFor c script self.now → IsTrue result → MaySpeak script number }
    {
        match find(&self.entries, number) {
            Some(entry) => entry.is_open(),
            None => false,
        }
    }

    /// Whether the connection of this number is a rover that goes on and has frames to read: the
    /// mountpoint of its newest segment published more than the segment has passed.
    pub fn is_behind(&self, number: u32) -> bool
        requires run { (c : ConfigValue) × (script : List EventValue)
            × StandsFor c script self.now }
        ensures { (c : ConfigValue) (script : List EventValue) → StandsFor c script self.now
            → IsBehind c script number result }
    {
        match rover_of(&self.entries, number) {
            Some(rover) => rover.next < self.desks.published(rover.mount),
            None => false,
        }
    }

    /// All bytes that the connection of this number was sent so far, none where there is no such
    /// connection.
    pub fn sent(&self, number: u32) -> &[u8]
        requires run { (c : ConfigValue) × (script : List EventValue)
            × StandsFor c script self.now }
        ensures { result.now ≡ sent_by_run self.now number }
    {
        match find(&self.entries, number) {
            Some(entry) => &entry.bytes,
            None => &[],
        }
    }

    /// Where the rover of this number stands, if it goes on and has a segment.
    pub fn rover(&self, number: u32) -> Option<RoverState>
        requires run { (c : ConfigValue) × (script : List EventValue)
            × StandsFor c script self.now }
        ensures { (c : ConfigValue) (script : List EventValue) → StandsFor c script self.now
            → IsRover c script number result }
    {
        rover_of(&self.entries, number)
    }

    /// The places at the rings, in the order of their mountpoints.
    pub fn rings(&self) -> &[P]
        ensures { HasRings P.Turns self.now result.now }
    {
        self.desks.rings()
    }

    /// Takes these places at the rings, and gives those that there were. Nothing else changes.
    pub fn replace_rings(&mut self, rings: Vec<P>) -> Vec<P>
        ensures gives { HasRings P.Turns self.old result.items }
        ensures takes { HasRings P.Turns self.new rings.items }
        ensures rest { SameButRings self.old self.new }
    {
        self.desks.replace_rings(rings)
    }

    /// Closes the connections that go on, each as its end, in increasing order of number, and
    /// reports what each connection was sent and came to, in that order, and what the mountpoints
    /// and accounts came to.
    ///
    /// # Errors
    /// For want of memory, also where the turn that closes a session was halted by it.
    pub fn finish(self, alloc: Global, config: &Config) -> Result<Report, AllocError>
        requires kept { (cap : ℕ) × KeepsRules cap config.now }
        requires run { (script : List EventValue) × IsShort script
            × StandsFor config.now script self }
        ensures report { (script : List EventValue) → IsShort script
            → StandsFor config.now script self
            → IfOk result (λ report. IsReport config.now script report) }

        // What each connection was sent is what it was sent so far.
        ensures sent { (n : ℕ) → IfOk result (λ report.
            told_sent n report.connections ≡ sent_by_run self n) }
    {
        let (connections, closed) = self.parts(alloc, config)?;
        Ok(Report {
            connections: Connections::new(connections),
            closed,
        })
    }

    /// The two parts of the report: the connections, and the totals of mountpoints and accounts.
    ///
    /// # Errors
    /// For want of memory, also where the turn that closes a session was halted by it.
    pub fn parts(
        self,
        alloc: Global,
        config: &Config,
    ) -> Result<(Vec<Connection>, Closed), AllocError>
        requires kept { (cap : ℕ) × KeepsRules cap config.now }
        requires run { (script : List EventValue) × IsShort script
            × StandsFor config.now script self }
        ensures report { (script : List EventValue) → IsShort script
            → StandsFor config.now script self → IfOk result (λ parts.
            IsReport config.now script
            (record { connections = parts.0.items; closed = parts.1 })) }
        ensures sent { (n : ℕ) → IfOk result (λ parts.
            told_sent n parts.0.items ≡ sent_by_run self n) }
    {
        let Run {
            table,
            mut entries,
            mut desks,
        } = self;
        drop(table);
        let ended = close_down(alloc, config, &mut entries, &mut desks);
        drop(desks);
        let closed = ended?;
        let Ok(connections) = told_all(alloc, entries) else {
            drop(closed);
            return Err(AllocError);
        };
        Ok((connections, closed))
    }
}
