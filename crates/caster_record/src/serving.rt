//! One step of a link's connection: a read, what it gave, a turn, and a write.

ghost use Rattle.std.specs.Prelude.{◌≡◌, ℕ, ◌≤◌, ◌+◌, ◌&&◌, ◌++◌, drop, length, true, IsTrue, IfOk, OnOk};
ghost use Rattle.cast_config.specs.Kept.{KeepsRules};
ghost use Rattle.session_script.specs.Line.{is_connection};
ghost use Rattle.caster_replay.specs.Going.{GoesOn, IsBehind, MaySpeak};
ghost use Rattle.caster_replay.specs.Kept.{lives_of, sent_by_run};
ghost use Rattle.caster_replay.specs.Sends.{IsSilent, SendsTo};
ghost use Rattle.caster_record.specs.Giving.{HasGiven};
ghost use Rattle.caster_record.specs.Hearing.{IsPiece, step_heard};
ghost use Rattle.caster_record.specs.Moves.{break_if, heard_by, turn_if};
ghost use Rattle.caster_record.specs.Recording.{Records, events_in};
ghost use Rattle.caster_record.specs.Steps.{IsServed};

use crate::hearing::{GotText, give, hear};
use crate::recorder::Recorder;
use cast_config::Config;
use cast_io::Link;
use session_script::{Event, MAX_BUDGET};
use std::alloc::{AllocError, Global};

/// What came of a step.
#[derive(Clone, Copy)]
pub(crate) struct Outcome {
    /// The write was torn.
    pub(crate) torn: bool,
    /// Something was read or written.
    pub(crate) busy: bool,
}

/// Whether something was read, or was written from one place to the other.
fn is_busy(idle: bool, from: usize, until: usize) -> bool {
    !idle || from < until
}

impl Recorder {
    /// Plays and records what a read gave.
    fn take_in(
        &mut self,
        alloc: Global,
        config: &Config,
        number: u32,
        heard: GotText,
    ) -> Result<(), AllocError>
        requires kept { (cap : ℕ) × KeepsRules cap config.now }
        requires records { Records config.now self.old }
        requires number { is_connection number ≡ true }
        requires speaks { MaySpeak (events_in self.old) number }
        requires piece { IsPiece heard }
        requires room { self.old.tape.size ≤ 8400000 }
        ensures records { OnOk result (Records config.now self.new) }
        ensures events { OnOk result
            (events_in self.new ≡ events_in self.old ++ heard_by number (step_heard heard)) }
        ensures sends { OnOk result
            (SendsTo number (lives_of self.old.run) (lives_of self.new.run)) }
        ensures size { OnOk result (self.new.tape.size ≤ self.old.tape.size + 8300) }
    {
        match heard {
            GotText::Bytes(bytes) => self.play(alloc, config, Event::In(number, bytes)),
            GotText::Idle => Ok(()),
            GotText::End => self.play(alloc, config, Event::End(number)),
            GotText::Failed => self.play(alloc, config, Event::Break(number)),
        }
    }

    /// Whether the connection of this number goes on and has frames to read.
    fn is_behind(&self, config: &Config, number: u32) -> bool
        requires records { Records config.now self.now }
        ensures behind { IsBehind config.now (events_in self.now) number result }
        ensures speaks { IsTrue result → MaySpeak (events_in self.now) number }
    {
        self.run.goes_on(number) && self.run.is_behind(number)
    }

    /// Gives the connection of this number a turn, where it has frames to read. Answers whether it
    /// had.
    fn turn_if_behind(
        &mut self,
        alloc: Global,
        config: &Config,
        number: u32,
    ) -> Result<bool, AllocError>
        requires kept { (cap : ℕ) × KeepsRules cap config.now }
        requires records { Records config.now self.old }
        requires number { is_connection number ≡ true }
        requires room { self.old.tape.size ≤ 8400000 }
        ensures records { IfOk result (λ behind. Records config.now self.new) }
        ensures behind { IfOk result (IsBehind config.now (events_in self.old) number) }
        ensures events { IfOk result
            (λ behind. events_in self.new ≡ events_in self.old ++ turn_if number behind) }
        ensures sends { IfOk result
            (λ behind. SendsTo number (lives_of self.old.run) (lives_of self.new.run)) }
        ensures size { IfOk result (λ behind. self.new.tape.size ≤ self.old.tape.size + 40) }
    {
        if self.is_behind(config, number) {
            self.play(alloc, config, Event::Turn(number, MAX_BUDGET))?;
            Ok(true)
        } else {
            Ok(false)
        }
    }

    /// Breaks the connection of this number off where a write was torn while it goes on. Answers
    /// whether it went on.
    fn break_if_torn(
        &mut self,
        alloc: Global,
        config: &Config,
        number: u32,
        torn: bool,
    ) -> Result<bool, AllocError>
        requires kept { (cap : ℕ) × KeepsRules cap config.now }
        requires records { Records config.now self.old }
        requires number { is_connection number ≡ true }
        requires room { self.old.tape.size ≤ 8400000 }
        ensures records { IfOk result (λ going. Records config.now self.new) }
        ensures going { IfOk result (GoesOn config.now (events_in self.old) number) }
        ensures events { IfOk result
            (λ going. events_in self.new ≡ events_in self.old ++ break_if number (torn && going)) }
        ensures silent { IfOk result
            (λ going. IsSilent (lives_of self.old.run) (lives_of self.new.run)) }
        ensures size { IfOk result (λ going. self.new.tape.size ≤ self.old.tape.size + 40) }
    {
        let going = self.run.goes_on(number);
        if torn && going {
            self.play(alloc, config, Event::Break(number))?;
        }
        Ok(going)
    }

    /// Gives a link what its connection was sent from this place on. Answers whether the write was
    /// torn.
    fn give_from<L: Link>(&self, config: &Config, number: u32, from: usize, link: &mut L) -> bool
        requires records { Records config.now self.now }
        requires within { from ≤ length (sent_by_run self.now.run number) }
        ensures { HasGiven (L.told link.old) (L.told link.new) result
            (drop from (sent_by_run self.now.run number)) }
    {
        let sent = self.run.sent(number);
        give(link, &sent[from..])
    }

    /// How many bytes the connection of this number was sent.
    fn sent_length(&self, config: &Config, number: u32) -> usize
        requires records { Records config.now self.now }
        ensures { result ≡ length (sent_by_run self.now.run number) }
    {
        self.run.sent(number).len()
    }

    /// One step of a connection that goes on: reads its link, plays what came, gives it a turn
    /// where it has frames to read, and gives the link what the connection was then sent.
    pub(crate) fn serve<L: Link>(
        &mut self,
        alloc: Global,
        config: &Config,
        number: u32,
        link: &mut L,
    ) -> Result<Outcome, AllocError>
        requires kept { (cap : ℕ) × KeepsRules cap config.now }
        requires records { Records config.now self.old }
        requires number { is_connection number ≡ true }
        requires goes_on { GoesOn config.now (events_in self.old) number true }
        requires speaks { MaySpeak (events_in self.old) number }
        requires room { self.old.tape.size ≤ 8370000 }
        ensures records { IfOk result (λ done. Records config.now self.new) }
        ensures served { IfOk result (λ done. IsServed config.now number (L.told link.old)
            (L.told link.new) self.old self.new done.torn) }
        ensures size { IfOk result (λ done. self.new.tape.size ≤ self.old.tape.size + 8380) }
        ensures given { (L.told link.new).given ≡ (L.told link.old).given }
    {
        let from = self.sent_length(config, number);
        let heard = hear(alloc, link)?;
        let idle = heard.is_idle();
        self.take_in(alloc, config, number, heard)?;
        self.turn_if_behind(alloc, config, number)?;
        let until = self.sent_length(config, number);
        let torn = self.give_from(config, number, from, link);
        self.break_if_torn(alloc, config, number, torn)?;
        Ok(Outcome {
            torn,
            busy: is_busy(idle, from, until),
        })
    }
}
