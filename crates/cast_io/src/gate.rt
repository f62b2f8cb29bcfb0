//! A door that says when it is over.
ghost use Rattle.std.specs.Prelude.{◌≡◌, ℕ, List, Bool};
ghost use Rattle.cast_io.specs.declared.yard_asked.YardAsked.{YardAsked};

use crate::door::Door;
use crate::peer::PeerAddr;

/// A door of a caster that serves until it is told to stop: it says when no further link is to be
/// served. The clauses of `accept`, `rest` and `hang_up` say nothing of that, nor of the peer: ask
/// after each of them. What it was made for is told of a gate that was just given, and is not said
/// to stay.
pub trait Gate: Door {
    /// No further link is to be served.
    ghost over: { Self → Bool };

    /// The peer of the link that was given last, as a word.
    ghost peer: { Self → List ℕ };

    /// What it was made for: what the yard was asked that gave it.
    ghost origin: { Self → YardAsked };

    /// Asks whether it is over. What the gate tells as a door stays.
    fn is_over(&mut self) -> bool
        ensures over { result ≡ over self.new }
        ensures peer { peer self.new ≡ peer self.old }
        ensures same { Self.told self.new ≡ Self.told self.old };

    /// The peer of the link that was given last: `-` where it is not told.
    fn peer(&self) -> &PeerAddr
        ensures { result.now ≡ peer self.now };
}
