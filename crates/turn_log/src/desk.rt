ghost use Rattle.std.specs.Prelude.{◌≡◌, ◌<◌, ◌≤◌, true, false, IsTrue, [], ◌∷◌, ◌++◌, length, IfOk, IfErr};
ghost use Rattle.turn_log.specs.History.{IsLegal};
ghost use Rattle.turn_log.specs.Past.{so_far};

use crate::object::Played;
use crate::past::{Entry, and_then};
use crate::place::{MAX_TURNS, TurnFault, Turns};
use std::snapshot::Snapshot;

/// A place of one thread: it keeps the object and counts the calls, and speaks for every caller.
///
/// It takes no memory. Its history is there for clauses alone, and has no bytes.
#[derive(Drop)]
pub struct Desk<V: Played> {
    value: V,
    turns: u64,
    past: Option<Snapshot<Entry<V::Call>>>,
    // As many turns were given as the history has calls.
    ghost counted: { turns ≡ length (so_far past) },
    // The object is what the calls so far leave of a new one.
    ghost stands: { V.stands value (so_far past) } by { V.stands_once value (so_far past) },
    // Each call fitted when it was made.
    ghost legal: { IsLegal (V.fits (V.shape value)) (so_far past) },
}

impl<V: Played> Desk<V> {
    /// A desk for a new object.
    pub fn new(value: V) -> Desk<V>
        requires { V.stands value [] }
        ensures empty { ⟦<Desk<V> as Turns<V>>⟧.seen result ≡ [] }
        ensures shape { ⟦<Desk<V> as Turns<V>>⟧.shape result ≡ V.shape value }
    {
        Desk {
            value,
            turns: 0,
            past: None,
        }
    }

    /// The object as the calls so far left it.
    pub fn value(&self) -> &V
        ensures stands { V.stands result.now (⟦<Desk<V> as Turns<V>>⟧.seen self.now) }
        ensures shape { V.shape result.now ≡ ⟦<Desk<V> as Turns<V>>⟧.shape self.now }
    {
        &self.value
    }
}

impl<V: Played> Turns<V> for Desk<V> {
    ghost use Rattle.std.specs.Prelude.{◌≡◌, ◌≤◌, true, false, IsTrue, [], ◌∷◌, ◌++◌, length, IfOk, IfErr};
    ghost use Rattle.turn_log.specs.Faults.{IsFault, IsWornAt, worn_of};
    ghost use Rattle.turn_log.specs.Past.{so_far};
    ghost use base.Stored.{gnil};

    ghost seen = { λ desk. so_far desk.past };

    ghost shape = { λ desk. V.shape desk.value };

    ghost speaks = { λ desk me. true };

    ghost may_lack = { λ desk. false };

    ghost alone = { λ desk. true };

    ghost worn = { λ desk. worn_of (length (so_far desk.past)) };

    ghost home = { λ desk. gnil };

    fn turn(&mut self, me: u32, call: V::Call, room: &mut V::Room) -> Result<V::Answer, TurnFault>
        requires { let desk = ⟦<Desk<V> as Turns<V>>⟧ in
            IsTrue (V.fits (desk.shape self.old) (desk.seen self.old) me call) }
        ensures shape { let desk = ⟦<Desk<V> as Turns<V>>⟧ in
            desk.shape self.new ≡ desk.shape self.old }
        ensures worn { let desk = ⟦<Desk<V> as Turns<V>>⟧ in
            desk.worn self.old ≤ desk.worn self.new }

        // Nobody comes between: the history is exactly the old one, followed by this call.
        ensures ok { let desk = ⟦<Desk<V> as Turns<V>>⟧ in
            IfOk result (λ reply. (desk.seen self.new ≡ desk.seen self.old ++ (me, call) ∷ [])
            × (reply ≡ V.answer (desk.shape self.old) (desk.seen self.old) me call)
            × (room.new ≡ V.filled (desk.shape self.old) (desk.seen self.old) me call room.old)) }
        ensures exactly { IsWornAt (length (⟦<Desk<V> as Turns<V>>⟧.seen self.old)) result }
        ensures err { let desk = ⟦<Desk<V> as Turns<V>>⟧ in
            IfErr result (λ fault.
            (desk.seen self.new ≡ desk.seen self.old) × (room.new ≡ room.old)
            × IsFault false (desk.worn self.new) fault) }
    {
        if self.turns >= MAX_TURNS {
            return Err(TurnFault::Worn { turns: self.turns });
        }
        let answer = self.value.play(me, call, room);
        self.turns += 1;
        self.past = and_then(self.past.take(), me, call);
        Ok(answer)
    }

    ghost legal = { λ desk. desk.legal };
}
