//! What a session holds.

ghost use Rattle.std.specs.Prelude.{◌≡◌, ℕ, List, Some};
ghost use Rattle.cast_config.specs.declared.config.Config.{Config};
ghost use Rattle.session_calls.specs.Steps.{Step};
ghost use Rattle.session_model.specs.Headings.{Heading};
ghost use Rattle.session_model.specs.Judged.{Opening, judged};
ghost use Rattle.session_model.specs.Owed.{came_to};
ghost use Rattle.session_model.specs.Reports.{IsHeadingOf};
ghost use Rattle.session_model.specs.Run.{Histories};
ghost use Rattle.session_core.specs.Standing.{StandsFor};
ghost use Rattle.session_core.specs.States.{holding_at, session_holding};
ghost use Rattle.session_core.specs.Holding.{HoldsAs};

use crate::session::Session;
use crate::session_stage::SessionStage;

/// What a connection holds, which its closing gives back.
#[derive(Clone, Copy)]
pub enum Held {
    /// Nothing: its head is awaited, or it was refused or sent the sourcetable.
    Nothing,
    /// A rover that is inside the account of this number.
    Rover { account: u32 },
    /// A source that has the claim of this number, from 1, of the mountpoint of this number.
    Source { mount: u32, claim: u64 },
    /// A relay that feeds the mountpoint of this number, with its claim once it was given one.
    Relay { mount: u32, claim: Option<u64> },
}

/// What a connection at this stage holds.
fn held_at(stage: &SessionStage) -> Held
    ensures { result ≡ holding_at stage.now }
{
    match stage {
        SessionStage::Head(_head) => Held::Nothing,
        SessionStage::Over => Held::Nothing,
        SessionStage::Source { mount, session } => Held::Source {
            mount: *mount,
            claim: session.claim_number(),
        },
        SessionStage::Relay { mount, session } => Held::Relay {
            mount: *mount,
            claim: session.claim_number(),
        },
        SessionStage::Rover {
            account,
            session: _session,
        } => Held::Rover { account: *account },
    }
}

impl Session {
    /// What it holds: by the bytes that came in and the answers to its calls, exactly what its
    /// connection came to.
    pub fn holds(&self) -> Held
        ensures value { result ≡ session_holding self.now }
        ensures came { (c : Config) (opening : Opening) (heading : Heading) (text : List ℕ)
            (steps : List Step) (histories : Histories) (sent : List ℕ)
            → IsHeadingOf (Some opening) text heading
            → StandsFor c self.now opening text steps histories sent
            → HoldsAs c opening (came_to (judged c opening heading text) steps) result }
    {
        held_at(&self.stage)
    }
}
