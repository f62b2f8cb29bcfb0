//! A connection whose head was judged: its first stage, or its ending, and its reply.

ghost use Rattle.std.specs.Prelude.{◌≡◌, ℕ, ◌+◌, ◌≤◌, ◌++◌, Bool, List, [], vec_len, IfNone, IfSome, Some};
ghost use Rattle.std.specs.Vec.{vec_capacity};
ghost use Rattle.cast_config.specs.declared.config.Config.{Config as ConfigValue};
ghost use Rattle.session_model.specs.Called.{IsCause};
ghost use Rattle.session_model.specs.Judged.{finished, replied};
ghost use Rattle.session_model.specs.Replies.{text_if};
ghost use Rattle.session_model.specs.Run.{Histories};
ghost use Rattle.session_core.specs.Beginnings.{IsTableFor};
ghost use Rattle.session_core.specs.Begun.{BeginsFor};

use crate::session_stage::SessionStage;
use ntrip_head::Version;
use ntrip_reply::{Reply, reply};
use session_model::Ending;
use std::alloc::AllocError;

/// Room for each reply without a sourcetable.
pub(crate) const REPLY_ROOM: usize = 256;

/// The first stage of a connection, and its ending where it has one already.
#[derive(Drop)]
pub(crate) struct Begun {
    pub(crate) stage: SessionStage,
    /// How it ended by itself, or what halted it.
    pub(crate) ended: Option<Ending>,
}

impl Begun {
    /// Nothing is left to be closed.
    pub(crate) fn over(ending: Ending) -> Begun
        ensures stage { result.stage ≡ SessionStage.Over }
        ensures ended { result.ended ≡ Some ending }
    {
        Begun {
            stage: SessionStage::Over,
            ended: Some(ending),
        }
    }
}

/// Ends a connection with this ending, and sends it this last reply where it is sent one.
pub(crate) fn finish(
    version: Option<Version>,
    last: (Reply, Ending),
    table: &[u8],
    out: &mut Vec<u8>,
) -> Begun
    ensures begins { (c : ConfigValue) (alone : Bool) (h : Histories) (me : ℕ)
        → IsTableFor version table.now c
        → BeginsFor c alone h h me (finished (replied version last.0) last.1) result.stage
        result.ended out.old.items out.new.items }
    ensures untold { IfNone version (out.new.items ≡ out.old.items) }
    ensures cause { (worn : List ℕ) → IsCause worn last.1 → IfSome result.ended (IsCause worn) }
{
    let (with, ending) = last;
    match version {
        None => Begun::over(ending),
        Some(version) => match reply(version, &with, table, out) {
            Ok(()) => Begun::over(ending),
            Err(AllocError) => Begun::over(Ending::Memory),
        },
    }
}

/// Appends a reply without a sourcetable, if one is made. Room for it was reserved.
pub(crate) fn push_reply(version: Option<Version>, with: Reply, out: &mut Vec<u8>)
    requires room { vec_len out.old + 256 ≤ vec_capacity out.old }
    ensures { out.new.items ≡ out.old.items ++ text_if version with [] }
{
    if let Some(version) = version {
        let appended = reply(version, &with, &[], out);
        if appended.is_err() {
            unreachable!();
        }
    }
}
