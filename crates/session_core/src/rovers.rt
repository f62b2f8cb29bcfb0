//! How a rover begins.

ghost use Rattle.std.specs.Prelude.{◌≡◌, ℕ, ◌+◌, ◌<◌, ◌≤◌, ◌++◌, Bool, IsTrue, List, [], length, map, unwrap_or, vec_len, vec_capacity, Ok, Err, IfNone, IfOk, IfSome, OnOk, option_to_list, slice_get};
ghost use Rattle.std.specs.Result.{result_err};
ghost use Rattle.base_select.specs.Measure.{IsOnEarth};
ghost use Rattle.session_calls.specs.Rings.{AllSpeak, all_alone};
ghost use Rattle.rover_session.specs.Standing.{AreWithin, IsNew, KnowsFilter};
ghost use Rattle.ntrip_head.specs.declared.request.Version.TheVariants.{One};
ghost use Rattle.ntrip_head.specs.declared.request.Auth.{Auth as AuthValue};
ghost use Rattle.cast_config.specs.declared.config.Config.{Config as ConfigValue};
ghost use Rattle.cast_config.specs.Kept.{KeepsRules};
ghost use Rattle.access_groups.specs.declared.admission.Admission.{Admission as AdmissionValue};
ghost use Rattle.access_groups.specs.Admission.{admission as admission_of};
ghost use Rattle.session_model.specs.Setting.{shapes, caps};
ghost use Rattle.session_model.specs.Setting as setting;
ghost use Rattle.session_model.specs.Judged.{rover_judged};
ghost use Rattle.session_model.specs.Owed.{terms_of};
ghost use Rattle.session_model.specs.Replies.{text_if};
ghost use Rattle.session_model.specs.Run.{Histories};
ghost use Rattle.session_model.specs.Called.{IsCause};
ghost use Rattle.session_core.specs.Beginnings.{end_unentered, ended_joining};
ghost use Rattle.session_core.specs.Begun.{BeginsFor};
ghost use Rattle.session_core.specs.Entries.{HasEntered};
ghost use Rattle.session_core.specs.Setups.{IsSetUpFor};
ghost use Rattle.session_core.specs.Places.{Stay, StayAtRings, seen_in, alone_in, worn_in};

use crate::begun::{Begun, REPLY_ROOM, push_reply};
use crate::book::{EnterAnswer, enter};
use crate::places::Places;
use crate::session_stage::SessionStage;
use crate::setup::Setup;
use access_groups::Admission;
use base_select::Base;
use cast_config::Config;
use caster_accounts::Book;
use gga_read::Position;
use mount_ring::Ring;
use ntrip_head::Version;
use ntrip_reply::Reply;
use rover_cursor::SegFault;
use rover_session::RoverSession;
use session_model::Ending;
use std::alloc::{AllocError, Global};
use turn_log::{TurnFault, Turns};

/// The mountpoint of this number as a base.
fn base_at(config: &Config, number: u32) -> Option<Base>
    ensures { option_to_list result ≡ setting.base_at number
        (slice_get config.now.mount number) }
{
    match config.mount.as_slice().get(number as usize) {
        Some(mount) => Some(Base {
            mount: number,
            at: mount.at,
        }),
        None => None,
    }
}

/// Appends the mountpoint of this number as a base.
fn push_base(config: &Config, number: u32, bases: &mut Vec<Base>) -> Result<(), AllocError>
    ensures { OnOk result (bases.new.items ≡ bases.old.items
        ++ setting.base_at number (slice_get config.now.mount number)) }
{
    match base_at(config, number) {
        Some(base) => {
            bases.push(base)?;
            Ok(())
        }
        None => Ok(()),
    }
}

/// The bases of these numbers, with their positions.
fn bases_of(alloc: Global, config: &Config, numbers: &[u32]) -> Result<Vec<Base>, AllocError>
    ensures { IfOk result (λ bases. bases.items ≡ setting.bases_at config.now numbers.now) }
{
    let mut bases = Vec::new(alloc);
    for number in numbers {
        push_base(config, *number, &mut bases)?;
    }
    Ok(bases)
}

/// The session of a rover that is admitted, before its first call. Room for its reply is reserved.
fn new_session(
    alloc: Global,
    config: &Config,
    me: u32,
    version: Option<Version>,
    admission: &Admission,
    out: &mut Vec<u8>,
) -> Result<RoverSession, AllocError>
    requires kept { (cap : ℕ) × KeepsRules cap config.now }
    requires admitted { (auth : AuthValue) × (name : List ℕ)
        × (admission_of config.now auth name ≡ Ok admission.now) }
    ensures new { IfOk result (λ session. IsNew session) }
    ensures me { IfOk result (λ session. session.me ≡ me) }
    ensures version { IfOk result (λ session.
        session.version ≡ unwrap_or version One) }
    ensures terms { IfOk result (λ session.
        session.terms ≡ terms_of config.now admission.now) }
    ensures room { OnOk result (vec_len out.new + 256 ≤ vec_capacity out.new) }
    ensures unsent { out.new.items ≡ out.old.items }
{
    out.reserve(REPLY_ROOM)?;
    let bases = bases_of(alloc, config, admission.bases.as_slice())?;
    RoverSession::new(
        alloc,
        version.unwrap_or(Version::One),
        me,
        admission.group,
        bases,
        config.hysteresis,
        admission.near,
    )
}

/// What ends a rover whose entry was refused.
fn entry_fault(fault: TurnFault) -> Ending
    ensures { result ≡ end_unentered fault }
{
    match fault {
        TurnFault::Worn { turns } => Ending::Worn { turns },
        TurnFault::Memory => Ending::Memory,
    }
}

/// What halted a rover, by what its session answered.
pub(crate) fn halt_of<X: Copy>(answered: Result<X, SegFault>) -> Option<Ending>
    ensures { result ≡ ended_joining (result_err answered) }
{
    match answered {
        Ok(_) => None,
        Err(SegFault::Worn { turns }) => Some(Ending::Worn { turns }),
        Err(SegFault::Memory) => Some(Ending::Memory),
    }
}

/// Replies to a rover that its account is full.
fn turn_away(version: Option<Version>, busy: u32, cap: u32, out: &mut Vec<u8>) -> Begun
    requires room { vec_len out.old + 256 ≤ vec_capacity out.old }
    ensures stage { result.stage ≡ SessionStage.Over }
    ensures ended { result.ended ≡ Some (Ending.Full busy cap) }
    ensures sent { out.new.items ≡ out.old.items ++ text_if version Reply.Full [] }
{
    push_reply(version, Reply::Full, out);
    Begun::over(Ending::Full { busy, cap })
}

/// Replies to a rover that it entered its account, and joins.
fn join<T: Turns<Ring>>(
    account: u32,
    mut session: RoverSession,
    version: Option<Version>,
    first: Option<Position>,
    rings: &mut [T],
    out: &mut Vec<u8>,
) -> Begun
    requires room { vec_len out.old + 256 ≤ vec_capacity out.old }
    requires new { IsNew session }
    requires within { AreWithin (length rings.old) session.terms.bases }
    requires filter { KnowsFilter (map T.shape rings.old) session.terms.filter }
    requires first { IfSome first IsOnEarth }
    requires speaks { AllSpeak T.speaks rings.old session.me }
    ensures stay { StayAtRings T.Turns rings.old rings.new }
    ensures begins { (c : ConfigValue) (alone : Bool) (old now : Histories) (me : ℕ)
        (a : AdmissionValue) → map T.shape rings.old ≡ shapes c
        → (IsTrue alone → IsTrue (all_alone T.alone rings.old)) → map T.seen rings.old ≡ old.rings
        → map T.seen rings.new ≡ now.rings → HasEntered c alone old now me version a account session
        → BeginsFor c alone old now me (rover_judged version first [] (Ok a)) result.stage
        result.ended out.old.items out.new.items }
    ensures untold { IfNone version (out.new.items ≡ out.old.items) }
    ensures cause { IfSome result.ended (IsCause (map T.worn rings.new)) }
{
    push_reply(version, Reply::RoverOk, out);
    let joined = session.start(first, rings);
    Begun {
        stage: SessionStage::Rover { account, session },
        ended: halt_of(joined),
    }
}

/// Lets a rover in that is admitted: it enters its account, is replied to, and joins.
pub(crate) fn begin_rover<T: Turns<Ring>, B: Turns<Book>>(
    setup: &Setup,
    version: Option<Version>,
    admission: &Admission,
    first: Option<Position>,
    places: &mut Places<T, B>,
    out: &mut Vec<u8>,
) -> Begun
    requires ready { IsSetUpFor version setup.now }
    requires admitted { (auth : AuthValue) × (name : List ℕ)
        × (admission_of setup.now.config.now auth name ≡ Ok admission.now) }
    requires first { IfSome first IsOnEarth }
    requires shapes { map T.shape places.old.rings.items ≡ shapes setup.now.config.now }
    requires caps { B.shape places.old.book ≡ caps setup.now.config.now }
    requires rings { AllSpeak T.speaks places.old.rings.items setup.now.me }
    requires book { IsTrue (B.speaks places.old.book setup.now.me) }
    ensures stay { Stay T.Turns B.Turns places.old places.new }
    ensures begins { BeginsFor setup.now.config.now (alone_in T.Turns B.Turns places.old)
        (seen_in T.Turns B.Turns places.old) (seen_in T.Turns B.Turns places.new) setup.now.me
        (rover_judged version first [] (Ok admission.now)) result.stage result.ended out.old.items
        out.new.items }
    ensures untold { IfNone version (out.new.items ≡ out.old.items) }
    ensures cause { IfSome result.ended (IsCause (worn_in T.Turns B.Turns places.new)) }
{
    let (alloc, config, me) = (setup.alloc, setup.config, setup.me);
    let Ok(session) = new_session(alloc, config, me, version, admission, out) else {
        return Begun::over(Ending::Memory);
    };
    let account = admission.account;
    match enter(&mut places.book, setup.me, account) {
        Ok(EnterAnswer::Entered) => {
            let rings = places.rings.as_mut_slice();
            join(account, session, version, first, rings, out)
        }
        Ok(EnterAnswer::Full { busy, cap }) => {
            drop(session);
            turn_away(version, busy, cap, out)
        }
        Err(fault) => {
            drop(session);
            Begun::over(entry_fault(fault))
        }
    }
}
