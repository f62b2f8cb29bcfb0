//! Writes that are to end soon.
ghost use Rattle.std.specs.Prelude.{◌≡◌, ◌-◌, ◌≤◌, ◌↔◌, Some, IsTrue};
ghost use Rattle.std.specs.Bool.{OnFalse, OnTrue};
ghost use Rattle.send_room.specs.Flows.{hurries_since, unhurried};

// For how long a write that hurries waits for room, in milliseconds.
const LIMIT: u64 = 10_000;

/// One wait of a write for room, as far as it hurries: a stop was asked for, or others wait for it.
/// Times are milliseconds since the wait began.
#[derive(Drop)]
pub struct Haste {
    since: Option<u64>,
}

impl Haste {
    /// A wait that begins, and has not hurried yet.
    pub fn new() -> Haste
        ensures { result ≡ unhurried }
    {
        Haste { since: None }
    }

    /// Whether the wait is over at this time, at which it hurries or does not: that is where it has
    /// hurried for ten seconds.
    pub fn is_over(&mut self, now: u64, hurries: bool) -> bool
        ensures over { IsTrue result ↔ (IsTrue hurries × 10000 ≤ now - hurries_since now self.old) }
        ensures hurried { OnTrue hurries (self.new.since ≡ Some (hurries_since now self.old)) }
        ensures unhurried { OnFalse hurries (self.new ≡ self.old) }
    {
        if !hurries {
            return false;
        }
        let since = self.since.unwrap_or(now);
        self.since = Some(since);
        now.saturating_sub(since) >= LIMIT
    }
}
