//! The links of a recorder, served one after the other.

ghost use Rattle.std.specs.Prelude.{◌≡◌, ℕ, ◌≤◌, ◌<◌, ◌+◌, length, map, true, false};
ghost use Rattle.std.specs.Prelude.{IfOk, IsTrue, List};
ghost use Rattle.cast_config.specs.Kept.{KeepsRules};
ghost use Rattle.cast_io.specs.Told.{DoorTold};
ghost use Rattle.caster_replay.specs.Going.{GoesOn, MaySpeak};
ghost use Rattle.caster_record.specs.Arriving.{given_in};
ghost use Rattle.caster_record.specs.Keeping.{IsWithin, RestsAfter};
ghost use Rattle.caster_record.specs.Moves.{Move, has_torn};
ghost use Rattle.caster_record.specs.Recording.{Records, events_in};
ghost use Rattle.caster_record.specs.Rounds.{IsPassed};

use crate::recorder::Recorder;
use crate::setup::RecordSetup;
use cast_config::Config;
use cast_io::Link;
use std::alloc::AllocError;

/// The most bytes that the lines of the events have before one more link or one more step.
pub(crate) const MAX_TAPE_BYTES: u64 = 8_370_000;

impl Recorder {
    /// Whether the connection of this number is due for a step: it goes on, no write to its link
    /// was torn, and the record has not come to its limit.
    fn is_due(&self, config: &Config, number: u32, torn: bool) -> bool
        requires records { Records config.now self.now }
        ensures whole { IsTrue result → torn ≡ false }
        ensures goes_on { IsTrue result → GoesOn config.now (events_in self.now) number true }
        ensures speaks { IsTrue result → MaySpeak (events_in self.now) number }
        ensures room { IsTrue result → self.now.tape.size ≤ 8370000 }
        ensures passed { result ≡ false → (earlier : List Move) → torn ≡ has_torn number earlier
            → IsPassed config.now earlier number (events_in self.now) }
    {
        !torn && self.tape.size <= MAX_TAPE_BYTES && self.run.goes_on(number)
    }

    /// Serves the link at this place, where it is due. Answers whether anything was read or
    /// written.
    fn serve_at<L: Link>(
        &mut self,
        setup: &RecordSetup,
        links: &mut Vec<L>,
        torn: &mut Vec<bool>,
        at: usize,
    ) -> Result<bool, AllocError>
        requires kept { (cap : ℕ) × KeepsRules cap setup.now.config.now }
        requires place { (before : DoorTold) × (door : DoorTold)
            × IsWithin L.told setup.now.config.now setup.now.limit at before door self.old
            links.old.items torn.old.items }
        requires within { at < length links.old.items }
        ensures place { IfOk result (λ busy. (before door : DoorTold)
            → IsWithin L.told setup.now.config.now setup.now.limit at before door self.old
            links.old.items torn.old.items
            → IsWithin L.told setup.now.config.now setup.now.limit (at + 1) before door self.new
            links.new.items torn.new.items) }
        ensures given { given_in (map L.told links.new.items)
            ≡ given_in (map L.told links.old.items) }
        ensures count { length links.new.items ≡ length links.old.items }
    {
        let number = at as u32 + 1;
        if !self.is_due(setup.config, number, torn[at]) {
            return Ok(false);
        }
        let outcome = self.serve(setup.alloc, setup.config, number, &mut links[at])?;
        torn[at] = outcome.torn;
        Ok(outcome.busy)
    }

    /// Serves each link that is due, in order. Answers whether anything was read or written.
    pub(crate) fn serve_all<L: Link>(
        &mut self,
        setup: &RecordSetup,
        links: &mut Vec<L>,
        torn: &mut Vec<bool>,
    ) -> Result<bool, AllocError>
        requires kept { (cap : ℕ) × KeepsRules cap setup.now.config.now }
        requires begins { (before : DoorTold) × (door : DoorTold)
            × IsWithin L.told setup.now.config.now setup.now.limit 0 before door self.old
            links.old.items torn.old.items }
        ensures rests { IfOk result (λ busy. (before door : DoorTold)
            → IsWithin L.told setup.now.config.now setup.now.limit 0 before door self.old
            links.old.items torn.old.items
            → RestsAfter L.told setup.now.config.now setup.now.limit before door self.new
            links.new.items torn.new.items) }
        ensures given { given_in (map L.told links.new.items)
            ≡ given_in (map L.told links.old.items) }
    {
        let mut busy = false;
        for at in 0..links.len() {
            busy = self.serve_at(setup, links, torn, at)? || busy;
        }
        Ok(busy)
    }
}
