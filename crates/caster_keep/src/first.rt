//! What is told of a link: who is at its other end, what its head asks, as what it was let in, and
//! whose its receipt is.

ghost use Rattle.std.specs.Prelude.{◌≡◌, ◌++◌, ℕ, List, Option, IsTrue, is_some};
ghost use Rattle.std.specs.Option.{option_copied};
ghost use Rattle.cast_config.specs.declared.config.Config.{Config as ConfigValue};
ghost use Rattle.turn_log.specs.History.{History};
ghost use Rattle.session_core.specs.declared.asked.Asked.{Asked as AskedValue};
ghost use Rattle.session_core.specs.declared.held.Held.{Held as HeldValue};
ghost use Rattle.session_core.specs.Asking.{AsksOn};
ghost use Rattle.session_core.specs.Holding.{HoldsOn, IsHolding};
ghost use Rattle.session_core.specs.States.{session_holding};
ghost use Rattle.caster_press.specs.declared.line.Line.{Line as LineValue};
ghost use Rattle.caster_press.specs.Lines.{text_of};
ghost use Rattle.caster_press.specs.Places.{IsSamePlace};
ghost use Rattle.keep_lines.specs.Lines.{user_shown};
ghost use Rattle.keep_lines.specs.Puts.{HasTold};
ghost use Rattle.caster_keep.specs.Links.{asked_line, entered_lines, entered_of, first_line, named_user, told_lines, who_of, whose};
ghost use Rattle.caster_keep.specs.Stations.{IsRoleOf};

use cast_config::Config;
use cast_io::PeerAddr;
use cast_text::Text;
use caster_link::Role;
use caster_press::{AtPress, Line, WaitsAtEnd};
use keep_lines::{Asks, Entered, LinkNumber, Peer, Wants, Who, asks_line, entered_line, link_line};
use session_core::{Asked, Held, Session};

/// Who tells of which link.
#[derive(Clone, Copy)]
pub(crate) struct Teller {
    /// The caller of the press that puts the lines.
    pub by: u32,
    /// The number of the link.
    pub number: LinkNumber,
}

/// The line of who is at the other end of a link: the peer of a client, or the address that a relay
/// dialled.
pub(crate) fn first_line(config: &Config, number: LinkNumber, role: Role, peer: &PeerAddr) -> Line
    requires { IsRoleOf config.now role }
    ensures { text_of result ≡ first_line config.now number role peer.now }
{
    match role {
        Role::Caller => link_line(number, Peer::From(peer.as_slice())),
        Role::Relay(relay) => {
            let relay = &config.relay.as_slice()[relay as usize];
            link_line(number, Peer::To(relay.address.bytes()))
        }
    }
}

/// The bytes of the user that credentials name, and none where they name none.
fn user_bytes(user: &Option<Text>) -> &[u8]
    ensures { user_shown result.now ≡ named_user user.now }
{
    match user {
        None => &[],
        Some(user) => user.bytes(),
    }
}

/// The line of what the head of a link asks.
fn asked_line(number: LinkNumber, asked: &Asked) -> Line
    ensures { text_of result ≡ asked_line number asked.now }
{
    let asks = match asked {
        Asked::Table(version) => Asks {
            version: *version,
            wants: Wants::Table,
            user: &[],
        },
        Asked::Rover {
            version,
            mount,
            user,
        } => Asks {
            version: *version,
            wants: Wants::Rover(mount),
            user: user_bytes(user),
        },
        Asked::Source { version, mount } => Asks {
            version: *version,
            wants: Wants::Source(mount),
            user: &[],
        },
    };
    asks_line(number, asks)
}

/// Puts the line of what the head of a link asks, where it was read by this step and asks
/// something: this is told of it now.
fn tell_asked<P: AtPress, R: WaitsAtEnd>(
    rt: &R,
    place: &mut P,
    teller: Teller,
    was_told: bool,
    asked: Option<&Asked>,
)
    requires { IsTrue ((P.told place.old).speaks teller.by) }
    ensures same { IsSamePlace (P.told place.old) (P.told place.new) }
    ensures put { (c : ConfigValue) (before : Option AskedValue) (held : HeldValue)
        (sheet : History LineValue)
        → was_told ≡ is_some before → AsksOn before (option_copied asked.entry)
        → (IsHolding held → option_copied asked.entry ≡ before)
        → HasTold teller.by (told_lines c teller.number before held)
        sheet (P.told place.old).seen
        → HasTold teller.by (told_lines c teller.number (option_copied asked.entry) held)
        sheet (P.told place.new).seen }
{
    if was_told {
        return;
    }
    let Some(asked) = asked else {
        return;
    };
    place.put(rt, teller.by, &asked_line(teller.number, asked));
}

/// As what a link was let in that holds this, if it was let in.
fn entered_of(held: Held) -> Option<Entered>
    ensures { result ≡ entered_of held }
{
    match held {
        Held::Nothing => None,
        Held::Rover { account } => Some(Entered::Rover { account }),
        Held::Source { mount, claim } => Some(Entered::Source { mount, claim }),
        Held::Relay {
            mount: _,
            claim: None,
        } => None,
        Held::Relay {
            mount,
            claim: Some(claim),
        } => Some(Entered::Relay { mount, claim }),
    }
}

/// Puts the line of what a link was let in as, where it was by this step: it holds this now, and
/// held that before.
fn tell_entered<P: AtPress, R: WaitsAtEnd>(
    rt: &R,
    place: &mut P,
    config: &Config,
    teller: Teller,
    before: Held,
    now: Held,
)
    requires { IsTrue ((P.told place.old).speaks teller.by) }
    ensures same { IsSamePlace (P.told place.old) (P.told place.new) }
    ensures put { (texts : List (List ℕ)) (sheet : History LineValue) → HoldsOn before now
        → HasTold teller.by (texts ++ entered_lines config.now teller.number before)
        sheet (P.told place.old).seen
        → HasTold teller.by (texts ++ entered_lines config.now teller.number now)
        sheet (P.told place.new).seen }
{
    if entered_of(before).is_some() {
        return;
    }
    let Some(entered) = entered_of(now) else {
        return;
    };
    place.put(rt, teller.by, &entered_line(config, teller.number, entered));
}

/// What was told of a connection: whether what its head asks, and what it held then.
#[derive(Drop)]
pub(crate) struct ToldSoFar {
    pub is_asked: bool,
    pub held: Held,
}

/// Puts what is known of a connection now and was not told before: what its head asks, and as what
/// it was let in.
pub(crate) fn tell_session<P: AtPress, R: WaitsAtEnd>(
    rt: &R,
    place: &mut P,
    config: &Config,
    teller: Teller,
    told: ToldSoFar,
    session: &Session,
) -> ToldSoFar
    requires { IsTrue ((P.told place.old).speaks teller.by) }
    ensures same { IsSamePlace (P.told place.old) (P.told place.new) }
    ensures asked { result.is_asked ≡ is_some session.now.asked }
    ensures held { result.held ≡ session_holding session.now }
    ensures put { (before : Option AskedValue) (sheet : History LineValue)
        → told.is_asked ≡ is_some before → AsksOn before session.now.asked
        → HoldsOn told.held (session_holding session.now)
        → (IsHolding told.held → session.now.asked ≡ before)
        → HasTold teller.by (told_lines config.now teller.number before told.held)
        sheet (P.told place.old).seen
        → HasTold teller.by (told_lines config.now teller.number session.now.asked result.held)
        sheet (P.told place.new).seen }
{
    let asked = session.asks();
    tell_asked(rt, place, teller, told.is_asked, asked);
    let held = session.holds();
    tell_entered(rt, place, config, teller, told.held, held);
    ToldSoFar {
        is_asked: asked.is_some(),
        held,
    }
}

/// Who holds this.
fn who_of(held: Held) -> Who
    ensures { result ≡ who_of held }
{
    match held {
        Held::Nothing => Who::Nobody,
        Held::Rover { account } => Who::Rover { account },
        Held::Source { mount, claim: _ } => Who::Source { mount },
        Held::Relay { mount, claim: _ } => Who::Relay { mount },
    }
}

/// Whose receipt that of a link in this role is which held this before it was closed.
pub(crate) fn whose(config: &Config, role: Role, held: Held) -> Who
    requires { IsRoleOf config.now role }
    ensures { result ≡ whose config.now role held }
{
    match role {
        Role::Caller => who_of(held),
        Role::Relay(relay) => {
            let relay = &config.relay.as_slice()[relay as usize];
            Who::Relay { mount: relay.mount }
        }
    }
}
