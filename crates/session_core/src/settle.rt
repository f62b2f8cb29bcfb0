//! How what a connection holds is given back.

ghost use Rattle.std.specs.Prelude.{◌≡◌, map, IfErr, IsTrue, OnErr, OnOk};
ghost use Rattle.session_calls.specs.Rings.{AllSpeak};
ghost use Rattle.cast_config.specs.declared.config.Config.{Config};
ghost use Rattle.session_core.specs.Closing.{IsHeldBy, Makes, closing_at};
ghost use Rattle.session_core.specs.Refusals.{IsTurnRefused};
ghost use Rattle.session_model.specs.Setting.{caps, shapes};
ghost use Rattle.session_core.specs.Places.{Stay, seen_in, alone_in, worn_in, lacks_in};

use crate::book::leave;
use crate::places::Places;
use crate::session_stage::SessionStage;
use caster_accounts::Book;
use mount_ring::Ring;
use turn_log::{TurnFault, Turns};

/// Gives back what a connection at this stage holds: the claim of a source or a relay, or the
/// account of a rover, which is told what its segments count. One turn, or none where nothing is
/// held.
pub(crate) fn settle<T: Turns<Ring>, B: Turns<Book>>(
    me: u32,
    stage: &mut SessionStage,
    places: &mut Places<T, B>,
) -> Result<(), TurnFault>
    requires rings { AllSpeak T.speaks places.old.rings.items me }
    requires book { IsTrue (B.speaks places.old.book me) }
    requires held { IsHeldBy (B.shape places.old.book) me (seen_in T.Turns B.Turns places.old)
        stage.old }
    ensures stay { Stay T.Turns B.Turns places.old places.new }
    ensures stage { stage.new ≡ stage.old }
    ensures settled { OnOk result ((c : Config) → map T.shape places.old.rings.items ≡ shapes c
        → B.shape places.old.book ≡ caps c → Makes c (alone_in T.Turns B.Turns places.old)
        (seen_in T.Turns B.Turns places.old) (seen_in T.Turns B.Turns places.new) me
        (closing_at stage.old)) }
    ensures refused { OnErr result (seen_in T.Turns B.Turns places.new ≡ seen_in T.Turns B.Turns
        places.old) }
    ensures cause { IfErr result (IsTurnRefused (lacks_in T.Turns B.Turns places.old)
        (worn_in T.Turns B.Turns places.new)) }
{
    match stage {
        SessionStage::Head(_) => Ok(()),
        SessionStage::Over => Ok(()),
        SessionStage::Source { mount, session } => session.release(
            &mut places.rings[*mount as usize],
        ),
        SessionStage::Relay { mount, session } => match session.claim_number() {
            None => Ok(()),
            Some(_) => session.release(&mut places.rings[*mount as usize]),
        },
        SessionStage::Rover { account, session } => {
            let sent = session.sent();
            leave(&mut places.book, me, *account, sent, session.overrun())
        }
    }
}
