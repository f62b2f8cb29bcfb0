//! A run with the events that it was played by.

ghost use Rattle.std.specs.Prelude.{◌≡◌, ℕ, ◌≤◌, ◌<◌, ◌+◌, ◌^◌, [], ◌∷◌, ◌++◌, IfOk, OnOk};
ghost use Rattle.cast_config.specs.Kept.{KeepsRules};
ghost use Rattle.caster_replay.specs.Kept.{lives_of, sent_by_run};
ghost use Rattle.caster_replay.specs.Sends.{Sends};
ghost use Rattle.caster_record.specs.Recording.{IsNext, Records, events_in, most_of};

use crate::tape::Tape;
use cast_config::Config;
use caster_replay::Run;
use mount_ring::Ring;
use session_script::Event;
use std::alloc::{AllocError, Global};
use turn_log::Desk;

/// A run of the events that were recorded.
#[derive(Drop)]
pub(crate) struct Recorder {
    pub(crate) run: Run<Desk<Ring>>,
    pub(crate) tape: Tape,
}

impl Recorder {
    /// Nothing was recorded yet.
    pub(crate) fn new(alloc: Global, config: &Config) -> Result<Recorder, AllocError>
        requires kept { (cap : ℕ) × KeepsRules cap config.now }
        ensures records { IfOk result (Records config.now) }
        ensures events { IfOk result (λ recorder. events_in recorder ≡ []) }
        ensures unsent { (n : ℕ) → IfOk result (λ recorder. sent_by_run recorder.run n ≡ []) }
    {
        let run = Run::new(alloc, config)?;
        let tape = Tape::new(alloc);
        Ok(Recorder { run, tape })
    }

    /// Plays and records one event more.
    pub(crate) fn play(
        &mut self,
        alloc: Global,
        config: &Config,
        event: Event,
    ) -> Result<(), AllocError>
        requires kept { (cap : ℕ) × KeepsRules cap config.now }
        requires records { Records config.now self.old }
        requires next { IsNext config.now (events_in self.old) event }
        requires room { self.old.tape.size < 2 ^ 40 }
        ensures records { OnOk result (Records config.now self.new) }
        ensures events { OnOk result (events_in self.new ≡ events_in self.old ++ event ∷ []) }
        ensures sends { OnOk result (Sends event (lives_of self.old.run) (lives_of self.new.run)) }
        ensures size { OnOk result (self.new.tape.size ≤ self.old.tape.size + most_of event) }
    {
        self.run.play(alloc, config, &event)?;
        self.tape.push(event)?;
        Ok(())
    }
}
