//! How far a rover is, and at which mountpoint a session is.

ghost use Rattle.std.specs.Prelude.{◌≡◌, is_some};
ghost use Rattle.session_core.specs.States.{rover_state, session_mount, state_of};

use crate::session::Session;
use crate::session_stage::SessionStage;
use ntrip_head::Version;
use rover_session::RoverSession;

/// Where a rover stands that goes on and has a segment.
#[derive(Clone, Copy, Debug, PartialEq, Eq)]
pub struct RoverState {
    /// The version of NTRIP in which it is served.
    pub version: Version,
    /// The number of its present mountpoint.
    pub mount: u32,
    /// The place of the next frame that it reads there, counted from 0.
    pub next: u64,
    /// How many segments it has.
    pub segments: u64,
}

/// What whoever serves a session over a link is to know of it before each call of the link.
#[derive(Clone, Copy)]
pub struct Whereabouts {
    /// Whether it ended by itself, or was halted.
    pub ended: bool,
    /// The number of the mountpoint at which it is: that of a source or a relay, and of a rover
    /// that goes on the one of its newest segment.
    pub mount: Option<u32>,
}

/// Where a rover's session stands, if it has a segment.
fn state_of(session: &RoverSession) -> Option<RoverState>
    ensures { result ≡ state_of session.now }
{
    let segments = session.segments();
    let newest = segments.last()?;
    Some(RoverState {
        version: session.version(),
        mount: newest.mount,
        next: newest.cursor.next,
        segments: segments.len() as u64,
    })
}

impl Session {
    /// Where it stands, of a rover that goes on and has a segment.
    pub fn rover(&self) -> Option<RoverState>
        ensures { result ≡ rover_state self.now }
    {
        match (&self.ended, &self.stage) {
            (
                None,
                SessionStage::Rover {
                    account: _,
                    session,
                },
            ) => state_of(session),
            _ => None,
        }
    }

    /// The number of the mountpoint at which it is.
    fn mount(&self) -> Option<u32>
        ensures { result ≡ session_mount self.now }
    {
        match &self.stage {
            SessionStage::Head(_head) => None,
            SessionStage::Over => None,
            SessionStage::Source { mount, session: _ } => Some(*mount),
            SessionStage::Relay { mount, session: _ } => Some(*mount),
            SessionStage::Rover {
                account: _,
                session: _,
            } => self.rover().map(|rover| rover.mount),
        }
    }

    /// Whether it ended, and at which mountpoint it is.
    pub fn whereabouts(&self) -> Whereabouts
        ensures ended { result.ended ≡ is_some self.now.ended }
        ensures mount { result.mount ≡ session_mount self.now }
    {
        Whereabouts {
            ended: self.ended.is_some(),
            mount: self.mount(),
        }
    }
}
