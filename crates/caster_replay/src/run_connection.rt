//! What a run keeps of one connection.

ghost use Rattle.std.specs.Prelude.{◌≡◌, ℕ, length, IfOk, OnOk};
ghost use Rattle.cast_config.specs.declared.config.Config.{Config as ConfigValue};
ghost use Rattle.cast_config.specs.Kept.{KeepsRules};
ghost use Rattle.session_model.specs.Called as called;
ghost use Rattle.session_model.specs.Setting as setting;
ghost use Rattle.caster_replay.specs.Caster.{ArePlaces, SamePlaces};
ghost use Rattle.caster_replay.specs.RunConnections.{ActedAt, ClosedAt, FedAt, MayAct, MayBeClosed, MayGoOn, SettledAt, TakenIn, TurnedAt, is_ended_at, is_open_at, rover_at};

use crate::desks::Desks;
use crate::ring_place::RingPlace;
use cast_config::Config;
use session_core::{Ending, Flow, Last, Receipt, RoverState, Segments, Session};
use std::alloc::{AllocError, Global};
use std::mem;

/// How far a connection is.
#[derive(Drop)]
pub(crate) enum State {
    /// It goes on.
    Open(Session),
    /// It is over, with this receipt.
    Closed(Receipt),
}

/// What happens to a connection that was opened.
#[derive(Clone, Copy)]
pub(crate) enum Act<'a> {
    /// These bytes come in on it.
    In(&'a [u8]),
    /// It takes a turn, with this budget of frames.
    Turn(u32),
    /// It is closed for this reason.
    Close(Last),
}

/// A connection of a run.
#[derive(Drop)]
pub(crate) struct RunConnection {
    /// Its number, which is that of its caller too.
    pub(crate) number: u32,
    /// Its session, or its receipt.
    pub(crate) state: State,
    /// All bytes that were sent to it.
    pub(crate) bytes: Vec<u8>,
}

/// Whether a place or want of memory gave this ending.
fn is_halt(ending: Ending) -> bool
    ensures { result ≡ called.is_halt ending }
{
    match ending {
        Ending::Worn { turns: _ } => true,
        Ending::Memory => true,
        _ => false,
    }
}

/// A session is closed, unless it is over already.
///
/// # Errors
/// Where it was halted, or the turn that closes it was refused.
fn close_state<P: RingPlace>(
    state: State,
    desks: &mut Desks<P>,
    last: Last,
) -> Result<State, AllocError>
    requires may { (c : ConfigValue) × ArePlaces c desks.old × MayBeClosed c desks.old.seen state }
    ensures same { SamePlaces desks.old desks.new }
    ensures closed { (c : ConfigValue) → ArePlaces c desks.old
        → IfOk result (ClosedAt c desks.old.seen desks.new.seen last state) }
{
    match state {
        State::Closed(receipt) => Ok(State::Closed(receipt)),
        State::Open(session) => {
            let receipt = desks.close(session, last);
            if !receipt.settled || is_halt(receipt.ending) {
                drop(receipt);
                return Err(AllocError);
            }
            Ok(State::Closed(receipt))
        }
    }
}

/// What stands for a connection while its session is being closed.
fn no_state(alloc: Global) -> State {
    State::Closed(Receipt {
        ending: Ending::Memory,
        segments: Segments::new(Vec::new(alloc)),
        sent: 0,
        overrun: 0,
        junk: 0,
        entered: false,
        settled: false,
    })
}

impl RunConnection {
    /// Whether its session ended by itself, or was halted, and waits to be closed.
    fn has_ended(&self) -> bool
        ensures { result ≡ is_ended_at self.now.state }
    {
        match &self.state {
            State::Open(session) => session.ended(),
            State::Closed(_) => false,
        }
    }

    /// Whether it goes on.
    pub(crate) fn is_open(&self) -> bool
        ensures { result ≡ is_open_at self.now.state }
    {
        match &self.state {
            State::Open(_) => true,
            State::Closed(_) => false,
        }
    }

    /// Where it stands, of a rover that goes on and has a segment.
    pub(crate) fn rover(&self) -> Option<RoverState>
        ensures { result ≡ rover_at self.now.state }
    {
        match &self.state {
            State::Open(session) => session.rover(),
            State::Closed(_) => None,
        }
    }

    /// Bytes come in on it.
    fn feed<P: RingPlace>(
        &mut self,
        config: &Config,
        table: &[u8],
        desks: &mut Desks<P>,
        bytes: &[u8],
    )
        requires kept { (cap : ℕ) × KeepsRules cap config.now }
        requires table { table.now ≡ setting.table config.now }
        requires places { ArePlaces config.now desks.old }
        requires may { MayGoOn config.now desks.old.seen (length bytes.now) self.old.state }
        ensures same { SamePlaces desks.old desks.new }
        ensures number { self.new.number ≡ self.old.number }
        ensures fed { FedAt config.now desks.old.seen desks.new.seen self.old.state
            self.new.state bytes.now self.old.bytes.items self.new.bytes.items }
    {
        match &mut self.state {
            State::Open(session) => desks.feed(session, config, table, bytes, &mut self.bytes),
            State::Closed(_) => {}
        }
    }

    /// Bytes come in on it. Where its session ends by them, it is closed at once.
    fn take_in<P: RingPlace>(
        &mut self,
        config: &Config,
        table: &[u8],
        desks: &mut Desks<P>,
        bytes: &[u8],
    ) -> Result<(), AllocError>
        requires kept { (cap : ℕ) × KeepsRules cap config.now }
        requires table { table.now ≡ setting.table config.now }
        requires places { ArePlaces config.now desks.old }
        requires may { MayGoOn config.now desks.old.seen (length bytes.now) self.old.state }
        ensures same { SamePlaces desks.old desks.new }
        ensures number { self.new.number ≡ self.old.number }
        ensures taken { OnOk result (TakenIn config.now desks.old.seen desks.new.seen
            self.old.state self.new.state bytes.now self.old.bytes.items self.new.bytes.items) }
    {
        self.feed(config, table, desks, bytes);
        self.settle(desks)
    }

    /// It takes a turn.
    ///
    /// # Errors
    /// Where it was halted. Then the run is of no further use.
    fn turn<P: RingPlace>(&mut self, desks: &mut Desks<P>, budget: u32) -> Result<(), AllocError>
        requires may { (c : ConfigValue) × ArePlaces c desks.old
            × MayGoOn c desks.old.seen 0 self.old.state }
        ensures same { SamePlaces desks.old desks.new }
        ensures number { self.new.number ≡ self.old.number }
        ensures turned { (c : ConfigValue) → ArePlaces c desks.old
            → OnOk result (TurnedAt c desks.old.seen desks.new.seen self.old.state self.new.state
            budget self.old.bytes.items self.new.bytes.items) }
    {
        match &mut self.state {
            State::Open(session) => match desks.turn(session, budget, &mut self.bytes) {
                Flow::Open => Ok(()),
                Flow::Ended => Err(AllocError),
            },
            State::Closed(_) => Ok(()),
        }
    }

    /// Its state, for a while in which it is being closed.
    fn take_state(&mut self) -> State
        ensures state { result ≡ self.old.state }
        ensures number { self.new.number ≡ self.old.number }
        ensures bytes { self.new.bytes.items ≡ self.old.bytes.items }
    {
        let between = no_state(*self.bytes.allocator());
        mem::replace(&mut self.state, between)
    }

    /// It has this state from now on.
    fn put_state(&mut self, state: State)
        ensures state { self.new.state ≡ state }
        ensures number { self.new.number ≡ self.old.number }
        ensures bytes { self.new.bytes.items ≡ self.old.bytes.items }
    {
        drop(mem::replace(&mut self.state, state));
    }

    /// It is closed, unless it is over already.
    ///
    /// # Errors
    /// Where its session was halted, or the turn that closes it was refused. Then the run is of no
    /// further use.
    pub(crate) fn close<P: RingPlace>(
        &mut self,
        desks: &mut Desks<P>,
        last: Last,
    ) -> Result<(), AllocError>
        requires may { (c : ConfigValue) × ArePlaces c desks.old
            × MayBeClosed c desks.old.seen self.old.state }
        ensures same { SamePlaces desks.old desks.new }
        ensures number { self.new.number ≡ self.old.number }
        ensures bytes { self.new.bytes.items ≡ self.old.bytes.items }
        ensures closed { (c : ConfigValue) → ArePlaces c desks.old → OnOk result
            (ClosedAt c desks.old.seen desks.new.seen last self.old.state self.new.state) }
    {
        let state = self.take_state();
        self.put_state(close_state(state, desks, last)?);
        Ok(())
    }

    /// It is closed at once, if its session ended by itself.
    ///
    /// # Errors
    /// As where it is closed.
    pub(crate) fn settle<P: RingPlace>(&mut self, desks: &mut Desks<P>) -> Result<(), AllocError>
        requires may { (c : ConfigValue) × ArePlaces c desks.old
            × MayBeClosed c desks.old.seen self.old.state }
        ensures same { SamePlaces desks.old desks.new }
        ensures number { self.new.number ≡ self.old.number }
        ensures bytes { self.new.bytes.items ≡ self.old.bytes.items }
        ensures settled { (c : ConfigValue) → ArePlaces c desks.old → OnOk result
            (SettledAt c desks.old.seen desks.new.seen self.old.state self.new.state) }
    {
        if self.has_ended() {
            self.close(desks, Last::End)
        } else {
            Ok(())
        }
    }

    /// This happens to it. Where its session ends by bytes, it is closed at once.
    ///
    /// # Errors
    /// Where its session was halted, or the turn that closes it was refused. Then the run is of no
    /// further use.
    pub(crate) fn apply<P: RingPlace>(
        &mut self,
        config: &Config,
        table: &[u8],
        desks: &mut Desks<P>,
        act: Act<'_>,
    ) -> Result<(), AllocError>
        requires kept { (cap : ℕ) × KeepsRules cap config.now }
        requires table { table.now ≡ setting.table config.now }
        requires places { ArePlaces config.now desks.old }
        requires may { MayAct config.now desks.old.seen act self.old.state }
        ensures same { SamePlaces desks.old desks.new }
        ensures number { self.new.number ≡ self.old.number }
        ensures acted { OnOk result (ActedAt config.now desks.old.seen desks.new.seen act.entry
            self.old.state self.new.state self.old.bytes.items self.new.bytes.items) }
    {
        match act {
            Act::In(bytes) => self.take_in(config, table, desks, bytes),
            Act::Turn(budget) => self.turn(desks, budget),
            Act::Close(last) => self.close(desks, last),
        }
    }
}
