//! Peers that take nothing for too long.
ghost use Rattle.std.specs.Prelude.{◌≡◌, ◌-◌, ◌≤◌, ◌↔◌, IsSome, IfSome};
ghost use Rattle.send_room.specs.Flows.{IsStuck};

// For how long a socket may have no room at any look, in milliseconds.
const LIMIT: u64 = 90_000;

/// What shows that a socket had no room at any look for 90 seconds: since when, and at which look.
/// Both are milliseconds since the connection began.
#[derive(Clone, Copy)]
pub struct Stuck {
    since: u64,
    now: u64,
}

impl Stuck {
    /// What a look now shows of a socket that has had no room since then, where that is as long.
    pub(crate) fn since(since: u64, now: u64) -> Option<Stuck>
        ensures stuck { IsSome result ↔ (90000 ≤ now - since) }
        ensures shown { IfSome result IsStuck }
        ensures from { IfSome result (λ stuck. stuck.since ≡ since) }
    {
        if now.saturating_sub(since) < LIMIT {
            return None;
        }
        Some(Stuck { since, now })
    }
}
