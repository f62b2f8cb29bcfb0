//! Turns of a rover.

ghost use Rattle.std.specs.Prelude.{◌≡◌, ℕ, List, false, map, IfSome, None, true};
ghost use Rattle.session_calls.specs.Steps.{Step};
ghost use Rattle.session_calls.specs.Rings.{AllSpeak, all_alone};
ghost use Rattle.cast_config.specs.declared.config.Config.{Config as ConfigValue};
ghost use Rattle.session_model.specs.Called.{IsCause, OthersCalled};
ghost use Rattle.session_model.specs.Judged.{Opening};
ghost use Rattle.session_model.specs.Run.{Histories};
ghost use Rattle.session_model.specs.Setting.{caps, shapes};
ghost use Rattle.session_core.specs.Standing.{Follows, StandsFor};
ghost use Rattle.session_core.specs.Turned.{HaltedUnread, IsReadBy, Turned, TurnedAt, flow_of, is_rover};
ghost use Rattle.session_core.specs.States.{holding_at};
ghost use Rattle.session_core.specs.Holding.{HoldsOn};
ghost use Rattle.session_core.specs.Asking.{StaysItself};
ghost use Rattle.session_core.specs.Places.{Stay, StayAtRings, seen_in, alone_in, worn_in};

use crate::ending::Flow;
use crate::places::Places;
use crate::rovers::halt_of;
use crate::session::Session;
use crate::session_stage::SessionStage;
use caster_accounts::Book;
use mount_ring::Ring;
use session_model::Ending;
use turn_log::Turns;

/// Whether a session goes on, by its ending, if it has one.
pub(crate) fn flow_after(ended: Option<Ending>) -> Flow
    ensures { result ≡ flow_of ended }
{
    match ended {
        None => Flow::Open,
        Some(_) => Flow::Ended,
    }
}

/// One turn of a rover, whose frames are appended; gives what halted it. Nothing else takes a turn.
fn turn_at<T: Turns<Ring>>(
    me: u32,
    stage: &mut SessionStage,
    budget: u32,
    rings: &mut [T],
    out: &mut Vec<u8>,
) -> Option<Ending>
    requires speaks { AllSpeak T.speaks rings.old me }
    requires reads { IsReadBy (map T.shape rings.old) me (map T.seen rings.old) stage.old }
    ensures stay { StayAtRings T.Turns rings.old rings.new }
    ensures holds { HoldsOn (holding_at stage.old) (holding_at stage.new) }
    ensures bystander { is_rover stage.old ≡ false → (result ≡ None) × (stage.new ≡ stage.old)
        × (rings.new ≡ rings.old) × (out.new.items ≡ out.old.items) }
    ensures turned { TurnedAt (map T.shape rings.old) (all_alone T.alone rings.old)
        (map T.seen rings.old) (map T.seen rings.new) budget stage.old stage.new result
        out.old.items out.new.items }
    ensures halted { IfSome result (HaltedUnread (map T.seen rings.old) (map T.seen rings.new)
        out.old.items out.new.items) }
    ensures cause { IfSome result (IsCause (map T.worn rings.new)) }
{
    match stage {
        SessionStage::Rover {
            account: _account,
            session,
        } => halt_of(session.turn(budget, rings, out)),
        _ => None,
    }
}

impl Session {
    /// One turn of a rover: the frames that its place gives are appended, at most `budget` of them
    /// and at most 16, each as it is under NTRIP 1.0 (RTCM 10410.0), and as one chunk (RFC 9112,
    /// section 7.1) under NTRIP 2.0 (RTCM 10410.1). Of any other session nothing changes.
    ///
    /// Answers whether the session goes on. A place that is worn, or want of memory, ends it; then
    /// nothing was read and nothing appended.
    pub fn turn<T: Turns<Ring>, B: Turns<Book>>(
        &mut self,
        budget: u32,
        places: &mut Places<T, B>,
        out: &mut Vec<u8>,
    ) -> Flow
        requires rings { AllSpeak T.speaks places.old.rings.items self.old.me }
        requires goes_on { self.old.ended ≡ None }
        requires follows { (c : ConfigValue) × (map T.shape places.old.rings.items ≡ shapes c)
            × (B.shape places.old.book ≡ caps c)
            × Follows c self.old (seen_in T.Turns B.Turns places.old) 0 }
        ensures itself { StaysItself self.old self.new }
        ensures stay { Stay T.Turns B.Turns places.old places.new }
        ensures flow { result ≡ flow_of self.new.ended }
        ensures halted { IfSome self.new.ended (HaltedUnread (seen_in T.Turns B.Turns places.old)
            (seen_in T.Turns B.Turns places.new) out.old.items out.new.items) }
        ensures cause { IfSome self.new.ended (IsCause (worn_in T.Turns B.Turns places.new)) }
        ensures bystander { is_rover self.old.stage ≡ false → (self.new ≡ self.old)
            × (places.new.rings.items ≡ places.old.rings.items)
            × (places.new.book ≡ places.old.book) × (out.new.items ≡ out.old.items) }
        ensures turned { is_rover self.old.stage ≡ true
            → (c : ConfigValue) (opening : Opening) (text : List ℕ) (steps : List Step)
            (histories : Histories) (sent : List ℕ) → map T.shape places.old.rings.items ≡ shapes c
            → B.shape places.old.book ≡ caps c
            → StandsFor c self.old opening text steps histories sent
            → OthersCalled histories (seen_in T.Turns B.Turns places.old) self.old.me
            → Turned c (alone_in T.Turns B.Turns places.old) (seen_in T.Turns B.Turns places.old)
            (seen_in T.Turns B.Turns places.new) budget self.new opening text steps sent
            out.old.items out.new.items }
    {
        let rings = places.rings.as_mut_slice();
        let ended = turn_at(self.me, &mut self.stage, budget, rings, out);
        self.ended = ended;
        flow_after(ended)
    }
}
