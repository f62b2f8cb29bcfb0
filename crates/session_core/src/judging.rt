//! Judges the request of a head: it is admitted, or refused with a reply.

ghost use Rattle.std.specs.Prelude.{◌≡◌, ℕ, ◌≤◌, Bool, IsTrue, [], length, map, Some, Ok, Err, IfNone, IfSome, Option, ◌<◌, None, IfOk, false};
ghost use Rattle.base_select.specs.Measure.{IsOnEarth};
ghost use Rattle.session_calls.specs.Rings.{AllSpeak};
ghost use Rattle.gga_read.specs.declared.Position.{Position as PositionValue};
ghost use Rattle.cast_config.specs.Kept.{KeepsRules};
ghost use Rattle.ntrip_head.specs.declared.request.Version.{Version as VersionValue};
ghost use Rattle.ntrip_head.specs.declared.request.Version.TheVariants.{One};
ghost use Rattle.access_groups.specs.Admission.{admission as admission_of, source_admission};
ghost use Rattle.session_model.specs.Setting.{shapes, caps};
ghost use Rattle.session_model.specs.Judged.{finished, replied, rover_judged, source_judged, fault_judged, request_judged, bare_admission};
ghost use Rattle.session_model.specs.Called.{IsCause};
ghost use Rattle.session_core.specs.Beginnings.{IsRequestOnEarth};
ghost use Rattle.session_core.specs.Begun.{BeginsFor};
ghost use Rattle.session_core.specs.Setups.{IsSetUp, IsSetUpFor};
ghost use Rattle.session_core.specs.Places.{Stay, seen_in, alone_in, worn_in};

use crate::begin::begin_source;
use crate::begun::{Begun, finish};
use crate::places::Places;
use crate::rovers::begin_rover;
use crate::setup::Setup;
use access_groups::{AdmissionError, Denial, SourceDenial, admit, admit_source};
use cast_config::{Config, place_named};
use cast_text::MountName;
use caster_accounts::Book;
use gga_read::Position;
use mount_ring::Ring;
use ntrip_head::{Auth, HeadFault, Request, Version};
use ntrip_reply::Reply;
use session_model::Ending;
use turn_log::Turns;

/// The last reply to a rover that is given nothing, and how it ends.
fn denial_answer(denial: Denial) -> (Reply, Ending)
    ensures { (version : Option VersionValue) (first : Option PositionValue)
        → finished (replied version result.0) result.1
        ≡ rover_judged version first [] (Err denial) }
{
    match denial {
        Denial::NoMount => (Reply::RoverNoMount, Ending::NoMount),
        Denial::NoAccount => (Reply::Unauthorized, Ending::NoAccount),
        Denial::Password { account } => (Reply::Unauthorized, Ending::Password { account }),
        Denial::Group { group } => (Reply::Denied, Ending::Denied { group }),
    }
}

/// The last reply to a source that may not feed its mountpoint, and how it ends.
fn denied_source(denial: SourceDenial) -> (Reply, Ending)
    ensures { (version : Option VersionValue) (chunked : Bool)
        → finished (replied version result.0) result.1
        ≡ source_judged version chunked [] (Err denial) }
{
    match denial {
        SourceDenial::NoMount => (Reply::SourceNoMount, Ending::NoMount),
        SourceDenial::Password => (Reply::SourcePassword, Ending::SourcePassword),
    }
}

/// The last reply to a connection whose head is refused, and how it ends.
pub(crate) fn refused_head(fault: HeadFault) -> (Reply, Ending)
    ensures { finished (replied (Some One) result.0) result.1 ≡ fault_judged fault }
{
    match fault {
        HeadFault::Bad => (Reply::BadHead, Ending::BadHead),
        HeadFault::Method => (Reply::Method, Ending::Method),
        HeadFault::Coding => (Reply::Coding, Ending::Coding),
    }
}

/// Admits a rover that asks for a mountpoint with these credentials, or refuses it.
pub(crate) fn judge_rover<T: Turns<Ring>, B: Turns<Book>>(
    setup: &Setup,
    version: Option<Version>,
    mount: &MountName,
    auth: &Auth,
    first: Option<Position>,
    places: &mut Places<T, B>,
    out: &mut Vec<u8>,
) -> Begun
    requires ready { IsSetUpFor version setup.now }
    requires first { IfSome first IsOnEarth }
    requires shapes { map T.shape places.old.rings.items ≡ shapes setup.now.config.now }
    requires caps { B.shape places.old.book ≡ caps setup.now.config.now }
    requires rings { AllSpeak T.speaks places.old.rings.items setup.now.me }
    requires book { IsTrue (B.speaks places.old.book setup.now.me) }
    ensures stay { Stay T.Turns B.Turns places.old places.new }
    ensures begins { BeginsFor setup.now.config.now (alone_in T.Turns B.Turns places.old)
        (seen_in T.Turns B.Turns places.old) (seen_in T.Turns B.Turns places.new) setup.now.me
        (rover_judged version first [] (admission_of setup.now.config.now auth.now mount.now))
        result.stage result.ended out.old.items out.new.items }
    ensures untold { IfNone version (out.new.items ≡ out.old.items) }
    ensures cause { IfSome result.ended (IsCause (worn_in T.Turns B.Turns places.new)) }
{
    match admit(setup.alloc, setup.config, auth, mount) {
        Ok(admission) => {
            let begun = begin_rover(setup, version, &admission, first, places, out);
            drop(admission);
            begun
        }
        Err(AdmissionError::Denied(denial)) => {
            finish(version, denial_answer(denial), setup.table, out)
        }
        Err(AdmissionError::Memory) => Begun::over(Ending::Memory),
    }
}

/// Admits a source that asks to feed a mountpoint with this password, or refuses it.
fn judge_source<T: Turns<Ring>, B: Turns<Book>>(
    setup: &Setup,
    version: Option<Version>,
    mount: &MountName,
    password: &[u8],
    chunked: bool,
    places: &mut Places<T, B>,
    out: &mut Vec<u8>,
) -> Begun
    requires ready { IsSetUpFor version setup.now }
    requires shapes { map T.shape places.old.rings.items ≡ shapes setup.now.config.now }
    requires speaks { AllSpeak T.speaks places.old.rings.items setup.now.me }
    ensures stay { Stay T.Turns B.Turns places.old places.new }
    ensures begins { BeginsFor setup.now.config.now (alone_in T.Turns B.Turns places.old)
        (seen_in T.Turns B.Turns places.old) (seen_in T.Turns B.Turns places.new) setup.now.me
        (source_judged version chunked []
        (source_admission setup.now.config.now mount.now password.now))
        result.stage result.ended out.old.items out.new.items }
    ensures untold { IfNone version (out.new.items ≡ out.old.items) }
    ensures cause { IfSome result.ended (IsCause (worn_in T.Turns B.Turns places.new)) }
{
    match admit_source(setup.config, mount, password) {
        Ok(mount) => begin_source(setup.me, version, mount, chunked, places, out),
        Err(denial) => finish(version, denied_source(denial), setup.table, out),
    }
}

/// The number of the mountpoint that a source without a head may feed: of the one with this name,
/// whatever its password is.
fn admit_bare(config: &Config, mount: &MountName) -> Result<u32, SourceDenial>
    requires { length config.now.mount ≤ 64 }
    ensures value { result ≡ bare_admission config.now mount.now }
    ensures within { IfOk result (λ number. number < length config.now.mount) }
{
    match place_named(config.mount.as_slice(), mount.bytes()) {
        Some(place) => Ok(place as u32),
        None => Err(SourceDenial::NoMount),
    }
}

/// Admits a source without a head by the name of its mountpoint alone, or refuses it.
pub(crate) fn judge_bare_source<T: Turns<Ring>, B: Turns<Book>>(
    config: &Config,
    me: u32,
    mount: &MountName,
    places: &mut Places<T, B>,
    out: &mut Vec<u8>,
) -> Begun
    requires kept { (cap : ℕ) × KeepsRules cap config.now }
    requires shapes { map T.shape places.old.rings.items ≡ shapes config.now }
    requires speaks { AllSpeak T.speaks places.old.rings.items me }
    ensures stay { Stay T.Turns B.Turns places.old places.new }
    ensures begins { BeginsFor config.now (alone_in T.Turns B.Turns places.old)
        (seen_in T.Turns B.Turns places.old) (seen_in T.Turns B.Turns places.new) me
        (source_judged None false [] (bare_admission config.now mount.now))
        result.stage result.ended out.old.items out.new.items }
    ensures untold { out.new.items ≡ out.old.items }
    ensures cause { IfSome result.ended (IsCause (worn_in T.Turns B.Turns places.new)) }
{
    match admit_bare(config, mount) {
        Ok(mount) => begin_source(me, None, mount, false, places, out),
        Err(denial) => finish(None, denied_source(denial), &[], out),
    }
}

/// Answers this request: sends the sourcetable, or judges the rover or source that asks.
pub(crate) fn begin_request<T: Turns<Ring>, B: Turns<Book>>(
    setup: &Setup,
    request: &Request,
    places: &mut Places<T, B>,
    out: &mut Vec<u8>,
) -> Begun
    requires ready { IsSetUp setup.now }
    requires first { IsRequestOnEarth request.now }
    requires shapes { map T.shape places.old.rings.items ≡ shapes setup.now.config.now }
    requires caps { B.shape places.old.book ≡ caps setup.now.config.now }
    requires rings { AllSpeak T.speaks places.old.rings.items setup.now.me }
    requires book { IsTrue (B.speaks places.old.book setup.now.me) }
    ensures stay { Stay T.Turns B.Turns places.old places.new }
    ensures begins { BeginsFor setup.now.config.now (alone_in T.Turns B.Turns places.old)
        (seen_in T.Turns B.Turns places.old) (seen_in T.Turns B.Turns places.new) setup.now.me
        (request_judged setup.now.config.now [] (Ok request.now)) result.stage result.ended
        out.old.items out.new.items }
    ensures cause { IfSome result.ended (IsCause (worn_in T.Turns B.Turns places.new)) }
{
    match request {
        Request::Table(version) => {
            let last = (Reply::Table, Ending::TableSent);
            finish(Some(*version), last, setup.table, out)
        }
        Request::Rover {
            version,
            mount,
            auth,
            gga,
        } => judge_rover(setup, Some(*version), mount, auth, *gga, places, out),
        Request::Source {
            version,
            mount,
            password,
            chunked,
        } => judge_source(
            setup,
            Some(*version),
            mount,
            password.bytes(),
            *chunked,
            places,
            out,
        ),
    }
}
