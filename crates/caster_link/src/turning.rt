//! Turns of a session over its link.

ghost use Rattle.std.specs.Prelude.{◌≡◌, ℕ, List, [], ◌∷◌, None, IfSome};
ghost use Rattle.cast_config.specs.declared.config.Config.{Config as ConfigValue};
ghost use Rattle.session_model.specs.Called.{IsCause};
ghost use Rattle.session_model.specs.Judged.{Opening};
ghost use Rattle.session_model.specs.Owed.{Happening, takes_turn};
ghost use Rattle.session_model.specs.Run.{Histories};
ghost use Rattle.session_core.specs.Standing.{Follows};
ghost use Rattle.session_core.specs.States.{session_holding};
ghost use Rattle.session_core.specs.Holding.{HoldsOn};
ghost use Rattle.caster_places.specs.Known.{Fit, StayKnown};
ghost use Rattle.caster_link.specs.Resting.{is_caught_up, next_of};
ghost use Rattle.caster_link.specs.Served.{Arrived, Reached};

use caster_accounts::Book;
use caster_places::AllPlaces;
use mount_ring::{MAX_BUDGET, Ring};
use session_core::{Places, Session};
use turn_log::Turns;

/// The place of the next frame that a rover reads; 0 of any other session.
fn next_of(session: &Session) -> u64
    ensures { result ≡ next_of session.now }
{
    match session.rover() {
        Some(state) => state.next,
        None => 0,
    }
}

/// A session may rest that goes on and looked at fewer frames than a turn may take, since it read
/// from this place on: no frame is left for it.
fn is_caught_up(session: &Session, from: u64) -> bool
    ensures { result ≡ is_caught_up session.now from }
{
    !session.ended() && next_of(session).saturating_sub(from) < u64::from(MAX_BUDGET)
}

/// One turn of a session that goes on. Answers whether its link may rest.
pub(crate) fn take_turn<T: Turns<Ring>, B: Turns<Book>>(
    session: &mut Session,
    places: &mut Places<T, B>,
    out: &mut Vec<u8>,
) -> bool
    requires goes_on { session.old.ended ≡ None }
    requires ready { (c : ConfigValue)
        × Fit c session.old.me (⟦<Places<T, B> as AllPlaces>⟧.known places.old)
        × Follows c session.old (⟦<Places<T, B> as AllPlaces>⟧.seen places.old) 0 }
    ensures holds { HoldsOn (session_holding session.old) (session_holding session.new) }
    ensures asks_still { session.new.asked ≡ session.old.asked }
    ensures rests { result ≡ is_caught_up session.new (next_of session.old) }
    ensures stay { StayKnown (⟦<Places<T, B> as AllPlaces>⟧.known places.old)
        (⟦<Places<T, B> as AllPlaces>⟧.known places.new)
        (⟦<Places<T, B> as AllPlaces>⟧.worn places.old)
        (⟦<Places<T, B> as AllPlaces>⟧.worn places.new) }
    ensures cause { IfSome session.new.ended
        (IsCause (⟦<Places<T, B> as AllPlaces>⟧.worn places.new)) }
    ensures turned { (c : ConfigValue) (opening : Opening) (me : ℕ) (start : Histories)
        (sent : List ℕ) (whats : List Happening)
        → Fit c me (⟦<Places<T, B> as AllPlaces>⟧.known places.old)
        → Reached c opening me start (⟦<Places<T, B> as AllPlaces>⟧.seen places.old) session.old
        sent whats
        → Arrived c opening me start (⟦<Places<T, B> as AllPlaces>⟧.seen places.new) session.new
        sent out.old.items out.new.items whats (takes_turn 16 ∷ []) }
{
    let from = next_of(session);
    session.turn(MAX_BUDGET, places, out);
    is_caught_up(session, from)
}
