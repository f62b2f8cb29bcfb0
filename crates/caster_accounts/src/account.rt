ghost use Rattle.std.specs.Prelude.{◌≡◌, ◌^◌, ◌<◌, ◌≤◌, ◌+◌};
ghost use Rattle.caster_accounts.specs.History.{entry_answer};
ghost use Rattle.caster_accounts.specs.Kept.{entered, left};
ghost use Rattle.caster_accounts.specs.Sums.{added};

use crate::call::BookAnswer;

/// What the sessions of one account were, added up as they end.
#[derive(Clone, Copy, Debug, Default, PartialEq, Eq)]
pub struct Sum {
    /// How many sessions ended.
    pub sessions: u64,
    /// How many frames they were sent.
    pub sent: u128,
    /// How many frames were overwritten before they could read them.
    pub overrun: u128,
}

impl Sum {
    /// Adds one more session.
    pub(crate) fn add(&mut self, sent: u64, overrun: u64)
        requires sessions { self.old.sessions < 2 ^ 63 }
        requires sent { self.old.sent < 2 ^ 127 }
        requires overrun { self.old.overrun < 2 ^ 127 }
        ensures { self.new ≡ added self.old sent overrun }
    {
        self.sessions += 1;
        self.sent += u128::from(sent);
        self.overrun += u128::from(overrun);
    }
}

/// What the book keeps of one account.
#[derive(Clone, Copy, Debug, PartialEq, Eq)]
pub(crate) struct Account {
    /// How many sessions may be open at once.
    pub(crate) cap: u32,
    /// How many sessions are open.
    pub(crate) busy: u32,
    /// What the sessions that ended add up to.
    pub(crate) sum: Sum,
}

impl Account {
    /// An account of this cap, which nobody entered yet.
    pub(crate) fn new(cap: u32) -> Account
        ensures cap { result.cap ≡ cap }
        ensures busy { result.busy ≡ 0 }
        ensures sum { result.sum ≡ record { sessions = 0; sent = 0; overrun = 0 } }
    {
        Account {
            cap,
            busy: 0,
            sum: Sum::default(),
        }
    }

    /// Opens a session, where fewer are open than the cap.
    pub(crate) fn enter(&mut self) -> BookAnswer
        requires { self.old.busy ≤ self.old.cap }
        ensures answer { result ≡ entry_answer self.old.busy self.old.cap }
        ensures account { self.new ≡ entered self.old }
    {
        if self.busy == self.cap {
            return BookAnswer::Full {
                busy: self.busy,
                cap: self.cap,
            };
        }
        self.busy += 1;
        BookAnswer::Entered
    }

    /// Ends a session, and adds it to the sums.
    pub(crate) fn leave(&mut self, sent: u64, overrun: u64)
        requires busy { 0 < self.old.busy }
        requires sessions { self.old.sum.sessions < 2 ^ 63 }
        requires sent { self.old.sum.sent < 2 ^ 127 }
        requires overrun { self.old.sum.overrun < 2 ^ 127 }
        ensures { self.new ≡ left self.old sent overrun }
    {
        self.busy -= 1;
        self.sum.add(sent, overrun);
    }
}
