//! How a connection begins, once its head is whole.

ghost use Rattle.std.specs.Prelude.{◌≡◌, ◌+◌, ◌<◌, ◌≤◌, ◌++◌, [], length, map, vec_len, Some, Ok, IfNone, IfSome, OnOk};
ghost use Rattle.std.specs.Vec.{vec_capacity};
ghost use Rattle.session_calls.specs.Rings.{AllSpeak};
ghost use Rattle.cast_config.specs.declared.config.Config.{Config as ConfigValue};
ghost use Rattle.session_model.specs.Setting.{shapes};
ghost use Rattle.session_model.specs.Judged.{source_judged};
ghost use Rattle.session_model.specs.Called.{IsCause};
ghost use Rattle.session_core.specs.Begun.{BeginsFor};
ghost use Rattle.session_core.specs.Beginnings.{text_unclaimed, end_unclaimed};
ghost use Rattle.session_core.specs.Places.{Stay, alone_in, seen_in, worn_in};

use crate::begun::{Begun, REPLY_ROOM, push_reply};
use crate::places::Places;
use crate::session_stage::SessionStage;
use caster_accounts::Book;
use mount_ring::Ring;
use ntrip_head::Version;
use ntrip_reply::Reply;
use rtcm_frame::Cutter;
use session_model::Ending;
use source_session::{ClaimFault, SourceSession};
use std::alloc::AllocError;
use turn_log::Turns;

/// Tells a source whose claim was not given that another caller holds the mountpoint, if one does.
fn begin_unclaimed(version: Option<Version>, fault: ClaimFault, out: &mut Vec<u8>) -> Begun
    requires room { vec_len out.old + 256 ≤ vec_capacity out.old }
    ensures stage { result.stage ≡ SessionStage.Over }
    ensures ended { result.ended ≡ Some (end_unclaimed fault) }
    ensures sent { out.new.items ≡ out.old.items ++ text_unclaimed version fault }
{
    match fault {
        ClaimFault::Taken { caller, claim } => {
            push_reply(version, Reply::Taken, out);
            Begun::over(Ending::Taken { caller, claim })
        }
        ClaimFault::Worn { turns } => Begun::over(Ending::Worn { turns }),
        ClaimFault::Memory => Begun::over(Ending::Memory),
    }
}

/// The cutter of a source. Room for its reply is reserved.
fn new_cutter(out: &mut Vec<u8>) -> Result<Box<Cutter>, AllocError>
    ensures room { OnOk result (vec_len out.new + 256 ≤ vec_capacity out.new) }
    ensures unsent { out.new.items ≡ out.old.items }
{
    out.reserve(REPLY_ROOM)?;
    Ok(Box::new(*out.allocator(), Cutter::new())?)
}

/// Lets a source in that is admitted to the mountpoint of this number: it claims the mountpoint,
/// and is then replied to.
pub(crate) fn begin_source<T: Turns<Ring>, B: Turns<Book>>(
    me: u32,
    version: Option<Version>,
    mount: u32,
    chunked: bool,
    places: &mut Places<T, B>,
    out: &mut Vec<u8>,
) -> Begun
    requires within { mount < length places.old.rings.items }
    requires speaks { AllSpeak T.speaks places.old.rings.items me }
    ensures stay { Stay T.Turns B.Turns places.old places.new }
    ensures begins { (c : ConfigValue) → map T.shape places.old.rings.items ≡ shapes c
        → BeginsFor c (alone_in T.Turns B.Turns places.old) (seen_in T.Turns B.Turns places.old)
        (seen_in T.Turns B.Turns places.new) me (source_judged version chunked [] (Ok mount))
        result.stage result.ended out.old.items out.new.items }
    ensures untold { IfNone version (out.new.items ≡ out.old.items) }
    ensures cause { IfSome result.ended (IsCause (worn_in T.Turns B.Turns places.new)) }
{
    let Ok(cutter) = new_cutter(out) else {
        return Begun::over(Ending::Memory);
    };
    match SourceSession::claim(me, chunked, cutter, &mut places.rings[mount as usize]) {
        Ok(session) => {
            push_reply(version, Reply::SourceOk, out);
            Begun {
                stage: SessionStage::Source { mount, session },
                ended: None,
            }
        }
        Err(fault) => begin_unclaimed(version, fault, out),
    }
}
