//! The steps of one turn, each at the lock's table.
ghost use Rattle.std.specs.Prelude.{◌≡◌, ◌^◌, ◌<◌, ◌≤◌, [], ◌∷◌, ◌++◌, length, IsTrue, IfOk, IfErr};
ghost use Rattle.turn_log.specs.declared.lock.rule.SeatStage.TheVariants.{Idle, Waiting};
ghost use Rattle.turn_log.specs.History.{History};
ghost use Rattle.turn_log.specs.LockRule.{times};
ghost use Rattle.turn_log.specs.LockSteps.{Took, TookTurn};

use super::parts::{Token, Turn};
use super::plays::{Advance, Clear, Draw, Look};
use super::rule::Held;
use crate::object::Played;
use crate::place::MAX_TURNS;
use std::hint::spin_loop;
use std::sync::Wait;

/// The word of the ticket that is served.
pub const SERVING: usize = 0;

/// The word of the ticket that is drawn next.
pub const TICKET: usize = 1;

/// The lock's one slot.
pub const OBJECT: usize = 0;

/// How often who waits looks before it sleeps between two looks.
const LOOKS: u32 = 50;

impl<V: Played> Turn<V> {
    /// Draws a ticket. Where 2^62 or more were drawn, it tells how many.
    fn draw(&self, token: &mut Token<V>) -> Result<u64, u64>
        requires here { token.old.table_id ≡ self.now.table.shared.table_id }
        requires idle { token.old.me.0.stage ≡ Idle }
        requires speaks { 0 < length token.old.me.0.numbers }
        ensures same { (token.new.table_id ≡ token.old.table_id) × (token.new.id ≡ token.old.id)
            × (token.new.me.1 ≡ token.old.me.1) }
        ensures ok { IfOk result (λ ticket.
            token.new.me.0 ≡ record token.old.me.0 { stage = Waiting ticket }) }
        ensures err { IfErr result (λ turns. (2 ^ 62 ≤ turns) × (token.old.me.0.worn ≤ turns)
            × (token.new.me.0 ≡ record token.old.me.0 { worn = turns })) }
    {
        let drawn = self.table.shared.load::<Clear<V>>(token, TICKET);
        if drawn >= MAX_TURNS {
            return Err(drawn);
        }
        Ok(self.table.shared.fetch_add::<Draw<V>>(token, TICKET, 1))
    }

    /// Waits until the ticket is served, and then the object is lent to the token. After some looks
    /// it sleeps between two of them: a wake that comes between a look and the sleep ends that at
    /// once.
    fn wait<R: Wait>(&self, rt: &R, token: &mut Token<V>, ticket: u64)
        requires here { token.old.table_id ≡ self.now.table.shared.table_id }
        requires waiting { token.old.me.0.stage ≡ Waiting ticket }
        requires empty { token.old.me.1 ≡ [] }
        ensures same { (token.new.table_id ≡ token.old.table_id) × (token.new.id ≡ token.old.id) }
        ensures took { Took V.stands V.shape V.fits ticket token.old.me token.new.me }
    {
        let parker = self.bells.of(ticket);
        let mut looks: u32 = 0;
        for _ in rt.forever() {
            let serving = self.table.shared.load::<Look<V>>(token, SERVING);
            if serving == ticket {
                return;
            }
            if looks < LOOKS {
                looks += 1;
                spin_loop();
            } else {
                parker.park(rt);
            }
        }
        unreachable!()
    }

    /// Wakes who has the ticket after this one, if it was drawn. Who draws it later looks at the
    /// word that is served later too, and need not be woken.
    fn wake_next(&self, ticket: u64) {
        let next = ticket.wrapping_add(1);
        if self.table.shared.peek(TICKET) != next {
            self.bells.of(next).unpark();
        }
    }

    /// Draws a ticket, waits for it, plays the object and lets the next be served. Where 2^62 or
    /// more tickets were drawn, it tells how many.
    pub(super) fn take_turn<R: Wait>(
        &self,
        rt: &R,
        token: &mut Token<V>,
        me: u32,
        call: V::Call,
        room: &mut V::Room,
    ) -> Result<V::Answer, u64>
        requires here { token.old.table_id ≡ self.now.table.shared.table_id }
        requires idle { token.old.me.0.stage ≡ Idle }
        requires empty { token.old.me.1 ≡ [] }
        requires none_brought { token.old.me.0.brought ≡ [] }
        requires speaks { 0 < times me token.old.me.0.numbers }
        requires about { (value : V) × (token.old.me.0.about ≡ Some value) }
        requires fits { (value : V) → token.old.me.0.about ≡ Some value
            → IsTrue (V.fits (V.shape value) token.old.me.0.seen me call) }
        ensures same { (token.new.table_id ≡ token.old.table_id) × (token.new.me.1 ≡ []) }
        ensures ok { IfOk result (λ reply. TookTurn V.shape V.fits V.answer V.filled token.old.me.0
            token.new.me.0 me call reply room.old room.new) }
        ensures err { IfErr result (λ turns. (2 ^ 62 ≤ turns) × (token.old.me.0.worn ≤ turns)
            × (token.new.me.0 ≡ record token.old.me.0 { worn = turns }) × (room.new ≡ room.old)) }
    {
        let ticket = self.draw(token)?;
        self.wait(rt, token, ticket);
        let answer = play_held(token.slot_mut(&self.table.shared, OBJECT), me, call, room);
        self.table.shared.fetch_add::<Advance<V>>(token, SERVING, 1);
        self.wake_next(ticket);
        Ok(answer)
    }
}

/// Plays the object and notes the call.
fn play_held<V: Played>(
    held: &mut Held<V, V::Call>,
    me: u32,
    call: V::Call,
    room: &mut V::Room,
) -> V::Answer
    requires { (h : History V.Call) × V.stands held.old.value h × (length h < 2 ^ 63)
        × IsTrue (V.fits (V.shape held.old.value) h me call) }
    ensures shape { V.shape held.new.value ≡ V.shape held.old.value }
    ensures last { held.new.last ≡ Some (me, call) }
    ensures played { (h : History V.Call) → V.stands held.old.value h → length h < 2 ^ 63
        → IsTrue (V.fits (V.shape held.old.value) h me call)
        → V.stands held.new.value (h ++ (me, call) ∷ [])
        × (result ≡ V.answer (V.shape held.old.value) h me call)
        × (room.new ≡ V.filled (V.shape held.old.value) h me call room.old) }
{
    let answer = held.value.play(me, call, room);
    held.last = Some((me, call));
    answer
}
