//! Connections without head and reply.

ghost use Rattle.std.specs.Prelude.{◌≡◌, ℕ, IsTrue, [], map, None, IfOk, IfSome, OnErr};
ghost use Rattle.session_calls.specs.Rings.{AllSpeak};
ghost use Rattle.cast_config.specs.Kept.{KeepsRules};
ghost use Rattle.session_model.specs.Called.{IsCause};
ghost use Rattle.session_core.specs.Beginnings.{bare_opening};
ghost use Rattle.session_model.specs.Setting.{caps, shapes};
ghost use Rattle.session_core.specs.Standing.{Fed};
ghost use Rattle.session_core.specs.Asking.{TellsAsked};
ghost use Rattle.session_core.specs.Places.{Stay, seen_in, alone_in, worn_in};

use crate::begun::{Begun, REPLY_ROOM};
use crate::ending::Bare;
use crate::judging::{judge_bare_source, judge_rover};
use crate::places::Places;
use crate::session::Session;
use crate::setup::Setup;
use cast_config::Config;
use cast_text::MountName;
use caster_accounts::Book;
use mount_ring::Ring;
use ntrip_head::Auth;
use std::alloc::{AllocError, Global};
use turn_log::Turns;

impl Session {
    /// The session that began with this stage, or with this ending.
    fn of(alloc: Global, me: u32, begun: Begun) -> Session
        ensures { result ≡ record {
          alloc = alloc;
          me = me;
          stage = begun.stage;
          ended = begun.ended;
          asked = None;
        } }
    {
        Session {
            alloc,
            me,
            stage: begun.stage,
            ended: begun.ended,
            asked: None,
        }
    }

    /// A connection that is a source of the mountpoint of this name, or a rover of it without
    /// credentials, from its first byte on, served as the caller `me`. It has no head and is sent
    /// no reply: a source is asked for no password, and a rover is sent its frames as under NTRIP
    /// 1.0 (RTCM 10410.0).
    ///
    /// # Errors
    /// For want of memory, before anything is called.
    pub fn bare<T: Turns<Ring>, B: Turns<Book>>(
        alloc: Global,
        config: &Config,
        me: u32,
        role: Bare,
        mount: &MountName,
        places: &mut Places<T, B>,
    ) -> Result<Session, AllocError>
        requires kept { (cap : ℕ) × KeepsRules cap config.now }
        requires shapes { map T.shape places.old.rings.items ≡ shapes config.now }
        requires caps { B.shape places.old.book ≡ caps config.now }
        requires rings { AllSpeak T.speaks places.old.rings.items me }
        requires book { IsTrue (B.speaks places.old.book me) }
        ensures stay { Stay T.Turns B.Turns places.old places.new }
        ensures me { IfOk result (λ session. session.me ≡ me) }
        ensures begun { IfOk result (λ session. Fed config.now (alone_in T.Turns B.Turns places.old)
            (seen_in T.Turns B.Turns places.old) (seen_in T.Turns B.Turns places.new) session
            (bare_opening role mount.now) [] [] [] [] []) }
        ensures asks { IfOk result (λ session.
            TellsAsked (bare_opening role mount.now) [] session) }
        ensures cause { IfOk result (λ session. IfSome session.ended
            (IsCause (worn_in T.Turns B.Turns places.new))) }
        ensures err { OnErr result (places.new ≡ places.old) }
    {
        let mut nothing = Vec::with_capacity(alloc, REPLY_ROOM)?;
        match role {
            Bare::Source => {
                let begun = judge_bare_source(config, me, mount, places, &mut nothing);
                Ok(Session::of(alloc, me, begun))
            }
            Bare::Rover => {
                let table = &[];
                let setup = Setup {
                    alloc,
                    config,
                    table,
                    me,
                };
                let begun = judge_rover(
                    &setup,
                    None,
                    mount,
                    &Auth::None,
                    None,
                    places,
                    &mut nothing,
                );
                Ok(Session::of(alloc, me, begun))
            }
        }
    }
}
