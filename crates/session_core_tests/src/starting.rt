//! How connections start.

ghost use Rattle.std.specs.Prelude.{◌≡◌, ◌≤◌, ℕ, IfOk, IsTrue, length, map};
ghost use Rattle.turn_log.specs.Turn.{SamePlace};
ghost use Rattle.session_calls.specs.Rings.{AllSpeak, SamePlaces};
ghost use Rattle.cast_config.specs.declared.config.Config.{Config as ConfigValue};
ghost use Rattle.cast_config.specs.Kept.{KeepsRules};
ghost use Rattle.session_model.specs.Called.{seen_at};
ghost use Rattle.session_model.specs.Run.{Histories};
ghost use Rattle.session_model.specs.Setting.{caps, shapes};
ghost use Rattle.session_core.specs.Standing.{Follows};

use crate::serving::Served;
use cast_config::Config;
use cast_text::MountName;
use caster_accounts::Book;
use mount_ring::Ring;
use session_core::{Bare, Places, Session};
use std::alloc::{AllocError, Global};
use turn_log::Turns;

/// How a connection starts.
#[derive(Clone, Copy, Debug)]
pub enum SessionStart<'a> {
    /// It is to send a head.
    Head,
    /// It is the first relay of the configuration.
    Relay,
    /// It has no head, at the mountpoint of this name.
    Bare(Bare, &'a MountName),
}

/// A connection that is to send a head.
pub fn start_head(alloc: Global, me: u32) -> Result<Served, AllocError>
    ensures me { IfOk result (λ served. served.session.me ≡ me) }
    ensures follows { IfOk result (λ served. (c : ConfigValue) (now : Histories)
        → Follows c served.session now 4294967296) }
{
    let session = Session::open(alloc, me)?;
    let sent = Vec::new(alloc);
    Ok(Served { session, sent })
}

/// The first relay of a configuration.
fn start_relay(alloc: Global, config: &Config, me: u32) -> Result<Served, AllocError>
    requires kept { (cap : ℕ) × KeepsRules cap config.now }
    requires relay { 1 ≤ length config.now.relay }
    ensures me { IfOk result (λ served. served.session.me ≡ me) }
    ensures follows { IfOk result (λ served. (now : Histories)
        → Follows config.now served.session now 4294967296) }
{
    let mut sent = Vec::new(alloc);
    let session = Session::relay(alloc, config, me, 0, &mut sent)?;
    Ok(Served { session, sent })
}

/// A connection without head.
fn start_bare<T: Turns<Ring>, B: Turns<Book>>(
    alloc: Global,
    config: &Config,
    me: u32,
    role: Bare,
    mount: &MountName,
    places: &mut Places<T, B>,
) -> Result<Served, AllocError>
    requires kept { (cap : ℕ) × KeepsRules cap config.now }
    requires shapes { map T.shape places.old.rings.items ≡ shapes config.now }
    requires caps { B.shape places.old.book ≡ caps config.now }
    requires rings { AllSpeak T.speaks places.old.rings.items me }
    requires book { IsTrue (B.speaks places.old.book me) }
    ensures me { IfOk result (λ served. served.session.me ≡ me) }
    ensures same_rings { SamePlaces T.shape T.speaks T.may_lack T.alone T.home
        places.old.rings.items places.new.rings.items }
    ensures same_book { SamePlace B.shape B.speaks B.may_lack B.alone B.home
        places.old.book places.new.book }
    ensures follows { IfOk result (λ served. Follows config.now served.session
        (seen_at T.seen B.seen places.new.rings.items places.new.book) 4294967296) }
{
    let session = Session::bare(alloc, config, me, role, mount, places)?;
    let sent = Vec::new(alloc);
    Ok(Served { session, sent })
}

/// A connection that starts so.
///
/// # Errors
/// For want of memory.
pub fn start_as<T: Turns<Ring>, B: Turns<Book>>(
    alloc: Global,
    config: &Config,
    me: u32,
    how: SessionStart,
    places: &mut Places<T, B>,
) -> Result<Served, AllocError>
    requires kept { (cap : ℕ) × KeepsRules cap config.now }
    requires relay { 1 ≤ length config.now.relay }
    requires shapes { map T.shape places.old.rings.items ≡ shapes config.now }
    requires caps { B.shape places.old.book ≡ caps config.now }
    requires rings { AllSpeak T.speaks places.old.rings.items me }
    requires book { IsTrue (B.speaks places.old.book me) }
    ensures me { IfOk result (λ served. served.session.me ≡ me) }
    ensures same_rings { SamePlaces T.shape T.speaks T.may_lack T.alone T.home
        places.old.rings.items places.new.rings.items }
    ensures same_book { SamePlace B.shape B.speaks B.may_lack B.alone B.home
        places.old.book places.new.book }
    ensures follows { IfOk result (λ served. Follows config.now served.session
        (seen_at T.seen B.seen places.new.rings.items places.new.book) 4294967296) }
{
    match how {
        SessionStart::Head => start_head(alloc, me),
        SessionStart::Relay => start_relay(alloc, config, me),
        SessionStart::Bare(role, mount) => start_bare(alloc, config, me, role, mount, places),
    }
}
