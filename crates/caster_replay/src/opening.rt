//! How connections of a run open.

ghost use Rattle.std.specs.Prelude.{◌≡◌, ℕ, ◌<◌, [], length, IfOk};
ghost use Rattle.cast_config.specs.declared.config.Config.{Config as ConfigValue};
ghost use Rattle.cast_config.specs.Kept.{KeepsRules};
ghost use Rattle.session_model.specs.Run.{Histories};
ghost use Rattle.session_model.specs.Judged.{relays, sends_head};
ghost use Rattle.session_core.specs.Beginnings.{bare_opening};
ghost use Rattle.caster_replay.specs.Caster.{ArePlaces, SamePlaces};
ghost use Rattle.caster_replay.specs.RunConnections.{HasOpened, IsUnsent, NamesRelay, opening_of};

use crate::desks::Desks;
use crate::ring_place::RingPlace;
use crate::run_connection::{RunConnection, State};
use cast_config::Config;
use cast_text::MountName;
use session_core::{Bare, Session};
use std::alloc::{AllocError, Global};

/// How a connection opens.
#[derive(Clone, Copy)]
pub(crate) enum Way<'a> {
    /// It will send a head.
    Head,
    /// It goes to another caster, for the relay of this number.
    Relay(u32),
    /// It is a source or a rover of this mountpoint, without head and reply.
    Bare(Bare, &'a MountName),
}

/// A connection that will send a head.
fn open_head(alloc: Global, number: u32) -> Result<RunConnection, AllocError>
    ensures number { IfOk result (λ entry. entry.number ≡ number) }
    ensures opened { (c : ConfigValue) (seen : Histories) → IfOk result (λ entry.
        HasOpened c seen seen number sends_head entry.state entry.bytes.items) }
    ensures unsent { IfOk result (λ entry. entry.bytes.items ≡ []) }
{
    let session = Session::open(alloc, number)?;
    Ok(RunConnection {
        number,
        state: State::Open(session),
        bytes: Vec::new(alloc),
    })
}

/// A connection to another caster, which its request is sent to.
fn open_relay(
    alloc: Global,
    config: &Config,
    number: u32,
    relay: u32,
) -> Result<RunConnection, AllocError>
    requires kept { (cap : ℕ) × KeepsRules cap config.now }
    requires there { relay < length config.now.relay }
    ensures number { IfOk result (λ entry. entry.number ≡ number) }
    ensures opened { (seen : Histories) → IfOk result (λ entry.
        HasOpened config.now seen seen number (relays relay) entry.state entry.bytes.items) }
{
    let mut bytes = Vec::new(alloc);
    let session = Session::relay(alloc, config, number, relay, &mut bytes)?;
    Ok(RunConnection {
        number,
        state: State::Open(session),
        bytes,
    })
}

/// A connection without head and reply.
fn open_bare<P: RingPlace>(
    alloc: Global,
    config: &Config,
    desks: &mut Desks<P>,
    number: u32,
    role: Bare,
    mount: &MountName,
) -> Result<RunConnection, AllocError>
    requires kept { (cap : ℕ) × KeepsRules cap config.now }
    requires places { ArePlaces config.now desks.old }
    ensures same { SamePlaces desks.old desks.new }
    ensures number { IfOk result (λ entry. entry.number ≡ number) }
    ensures opened { IfOk result (λ entry. HasOpened config.now desks.old.seen desks.new.seen
        number (bare_opening role mount.now) entry.state entry.bytes.items) }
    ensures unsent { IfOk result (λ entry. entry.bytes.items ≡ []) }
{
    let session = desks.bare(alloc, config, number, role, mount)?;
    Ok(RunConnection {
        number,
        state: State::Open(session),
        bytes: Vec::new(alloc),
    })
}

/// A connection opens under a number that no other has.
pub(crate) fn open_connection<P: RingPlace>(
    alloc: Global,
    config: &Config,
    desks: &mut Desks<P>,
    number: u32,
    way: Way<'_>,
) -> Result<RunConnection, AllocError>
    requires kept { (cap : ℕ) × KeepsRules cap config.now }
    requires places { ArePlaces config.now desks.old }
    requires relay { NamesRelay config.now (opening_of way) }
    ensures same { SamePlaces desks.old desks.new }
    ensures number { IfOk result (λ entry. entry.number ≡ number) }
    ensures opened { IfOk result (λ entry. HasOpened config.now desks.old.seen desks.new.seen
        number (opening_of way.entry) entry.state entry.bytes.items) }
    ensures unsent { IfOk result (λ entry. IsUnsent (opening_of way.entry) entry.bytes.items) }
{
    match way {
        Way::Head => open_head(alloc, number),
        Way::Relay(relay) => open_relay(alloc, config, number, relay),
        Way::Bare(role, mount) => open_bare(alloc, config, desks, number, role, mount),
    }
}
