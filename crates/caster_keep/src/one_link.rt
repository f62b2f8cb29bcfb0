//! One link is kept: it is served to its receipt, and its lines are put.

ghost use Rattle.std.specs.Prelude.{◌≡◌, ◌<◌, ◌≤◌, ◌+◌, ◌^◌, ℕ, Option, IsTrue, length, false};
ghost use Rattle.cast_io.specs.Links.{IsNewLink};
ghost use Rattle.session_core.specs.declared.asked.Asked.{Asked as AskedValue};
ghost use Rattle.session_core.specs.Setups.{IsSetUp};
ghost use Rattle.caster_places.specs.Known.{Fit, StayKnown};
ghost use Rattle.caster_link.specs.Links.{opening_of};
ghost use Rattle.caster_link.specs.Stepped.{HasClosed};
ghost use Rattle.caster_link.specs.Wear.{IsWornBy, MayRefuse, wear_of};
ghost use Rattle.caster_press.specs.Places.{IsSamePlace};
ghost use Rattle.caster_serve.specs.Works.{IsWithin};
ghost use Rattle.keep_lines.specs.Lines.{receipt_lines};
ghost use Rattle.keep_lines.specs.Puts.{HasTold};
ghost use Rattle.caster_keep.specs.Links.{LinkKept, told_lines, whose};
ghost use Rattle.caster_keep.specs.Stations.{IsRoleOf};

use crate::first::{Teller, ToldSoFar, first_line, tell_session, whose};
use crate::keeper::Keeper;
use cast_config::Config;
use cast_io::{Gate, Link};
use caster_accounts::Book;
use caster_link::{Role, Service};
use caster_places::AllPlaces;
use caster_press::{AtPress, WaitsAtEnd};
use caster_serve::count_receipt;
use keep_lines::{LinkNumber, put_receipt};
use mount_ring::Ring;
use session_core::{Held, Places, Receipt, Setup};
use std::sync::Wait;
use turn_log::Turns;

/// How many links a keeper serves at most: their counts are held in a `u64`.
const MAX_LINKS: u64 = 1 << 62;

/// The outcome of a link that was served.
#[derive(Drop)]
struct Served {
    receipt: Receipt,
    /// What was told of its connection, before that was closed.
    told: ToldSoFar,
}

/// Serves the connection of a link in this role, step by step, to its receipt, and puts the line of
/// what its head asks, once it is read, and that of what it was let in as, once it was.
fn serve_steps<T: Turns<Ring>, B: Turns<Book>, L: Link, P: AtPress, R: Wait>(
    rt: &R,
    setup: &Setup,
    places: &mut Places<T, B>,
    role: Role,
    link: &mut L,
    place: &mut P,
    teller: Teller,
) -> Served
    requires ready { IsSetUp setup.now }
    requires fit { Fit setup.now.config.now setup.now.me
        (⟦<Places<T, B> as AllPlaces>⟧.known places.old) }
    requires relay { (number : ℕ) → role ≡ Role.Relay number
        → number < length setup.now.config.now.relay }
    requires speaks { IsTrue ((P.told place.old).speaks teller.by) }
    ensures stay { StayKnown (⟦<Places<T, B> as AllPlaces>⟧.known places.old)
        (⟦<Places<T, B> as AllPlaces>⟧.known places.new)
        (⟦<Places<T, B> as AllPlaces>⟧.worn places.old)
        (⟦<Places<T, B> as AllPlaces>⟧.worn places.new) }
    ensures closed { (asked : Option AskedValue) × HasClosed setup.now.config.now (opening_of role)
        setup.now.me (⟦<Places<T, B> as AllPlaces>⟧.seen places.old)
        (⟦<Places<T, B> as AllPlaces>⟧.seen places.new) (L.told link.old) (L.told link.new)
        result.told.held asked result.receipt
        × HasTold teller.by (told_lines setup.now.config.now teller.number asked result.told.held)
        (P.told place.old).seen (P.told place.new).seen }
    ensures worn { IsWornBy (⟦<Places<T, B> as AllPlaces>⟧.worn places.new)
        result.receipt.ending }
    ensures unsettled { result.receipt.settled ≡ false
        → MayRefuse (wear_of (⟦<Places<T, B> as AllPlaces>⟧.known places.new)
        (⟦<Places<T, B> as AllPlaces>⟧.worn places.new)) }
    ensures same { IsSamePlace (P.told place.old) (P.told place.new) }
{
    let mut told = ToldSoFar {
        is_asked: false,
        held: Held::Nothing,
    };
    let mut service = match Service::open(setup, role) {
        Ok(service) => service,
        Err(receipt) => return Served { receipt, told },
    };
    for _ in rt.forever() {
        told = tell_session(rt, place, setup.config, teller, told, service.session());
        if let Some(last) = service.step(setup, places, link) {
            let receipt = service.close(last, places);
            return Served { receipt, told };
        }
    }
    unreachable!()
}

/// Puts the receipt of a link that was served.
fn tell_receipt<P: AtPress, R: WaitsAtEnd>(
    rt: &R,
    place: &mut P,
    by: u32,
    config: &Config,
    number: LinkNumber,
    role: Role,
    served: &Served,
)
    requires role { IsRoleOf config.now role }
    requires speaks { IsTrue ((P.told place.old).speaks by) }
    ensures same { IsSamePlace (P.told place.old) (P.told place.new) }
    ensures put { HasTold by (receipt_lines config.now number
        (whose config.now role served.now.told.held) served.now.receipt)
        (P.told place.old).seen (P.told place.new).seen }
{
    let who = whose(config, role, served.told.held);
    put_receipt(rt, place, by, config, number, who, &served.receipt);
}

/// Goes on where a keeper that served so many links may serve one more. Else it waits for ever.
fn wait_at_limit<R: Wait>(rt: &R, count: u64)
    ensures { count < 2 ^ 62 }
{
    if count < MAX_LINKS {
        return;
    }
    for _ in rt.forever() {}
    unreachable!()
}

/// Keeps a link that the keeper's gate just gave, as the next of the keeper's: tells who is at its
/// other end, serves its connection to its receipt and tells meanwhile as what it was let in,
/// counts the receipt, hangs the link up, and puts the receipt. The lines are put as the caller
/// `by`. Behind 2^62 links the keeper waits for ever.
pub(crate) fn keep_link<T: Turns<Ring>, B: Turns<Book>, G: Gate, P: AtPress, R: Wait>(
    rt: &R,
    setup: &Setup,
    places: &mut Places<T, B>,
    keeper: &mut Keeper<G>,
    mut link: G::Link,
    place: &mut P,
    by: u32,
)
    requires ready { IsSetUp setup.now }
    requires fit { Fit setup.now.config.now setup.now.me
        (⟦<Places<T, B> as AllPlaces>⟧.known places.old) }
    requires role { IsRoleOf setup.now.config.now keeper.old.role }
    requires fresh { IsNewLink (G.Link.told link) }
    requires room { keeper.old.tally.sessions + 1 < 2 ^ 64 }
    requires within { IsWithin keeper.old.tally }
    requires speaks { IsTrue ((P.told place.old).speaks by) }
    ensures stay { StayKnown (⟦<Places<T, B> as AllPlaces>⟧.known places.old)
        (⟦<Places<T, B> as AllPlaces>⟧.known places.new)
        (⟦<Places<T, B> as AllPlaces>⟧.worn places.old)
        (⟦<Places<T, B> as AllPlaces>⟧.worn places.new) }
    ensures one_more { keeper.new ≡ record keeper.old {
      count = keeper.old.count + 1;
      tally = keeper.new.tally;
      gate = keeper.new.gate;
    } }
    ensures few { keeper.new.count ≤ 2 ^ 62 }
    ensures within { IsWithin keeper.new.tally }
    ensures same { IsSamePlace (P.told place.old) (P.told place.new) }
    ensures kept { LinkKept setup.now.config.now keeper.old.role setup.now.me keeper.new.count
        (wear_of (⟦<Places<T, B> as AllPlaces>⟧.known places.new)
        (⟦<Places<T, B> as AllPlaces>⟧.worn places.new))
        (⟦<Places<T, B> as AllPlaces>⟧.seen places.old)
        (⟦<Places<T, B> as AllPlaces>⟧.seen places.new) (G.Link.told link)
        (G.peer keeper.old.gate) (G.told keeper.old.gate) (G.told keeper.new.gate)
        keeper.old.tally keeper.new.tally by (P.told place.old).seen (P.told place.new).seen }
{
    wait_at_limit(rt, keeper.count);
    keeper.count += 1;
    let number = LinkNumber {
        caller: setup.me,
        count: keeper.count,
    };
    let first = first_line(setup.config, number, keeper.role, keeper.gate.peer());
    place.put(rt, by, &first);
    let teller = Teller { by, number };
    let served = serve_steps(rt, setup, places, keeper.role, &mut link, place, teller);
    count_receipt(&mut keeper.tally, &served.receipt);
    keeper.gate.hang_up(link);
    tell_receipt(rt, place, by, setup.config, number, keeper.role, &served);
}
