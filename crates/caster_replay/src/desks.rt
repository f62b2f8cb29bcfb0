//! The desks of a run: nobody but its connections calls at them.

ghost use Rattle.std.specs.Prelude.{◌≡◌, ℕ, [], length, IfOk, IfSome, IsTrue, None};
ghost use Rattle.cast_config.specs.declared.config.Config.{Config as ConfigValue};
ghost use Rattle.mount_ring.specs.History.{state_of};
ghost use Rattle.session_calls.specs.Rings.{history_at};
ghost use Rattle.cast_config.specs.Kept.{KeepsRules};
ghost use Rattle.session_model.specs.Setting.{caps};
ghost use Rattle.session_core.specs.Beginnings.{bare_opening};
ghost use Rattle.session_model.specs.Called.{is_halt};
ghost use Rattle.session_model.specs.Run.{nothing_called};
ghost use Rattle.session_model.specs.Setting as setting;
ghost use Rattle.session_core.specs.Standing.{Follows};
ghost use Rattle.session_core.specs.Turned.{flow_of};
ghost use Rattle.caster_replay.specs.Calls.{Closes, Feeds, Opens, TakesTurn};
ghost use Rattle.caster_replay.specs.Caster.{AreNew, ArePlaces, AreRings, SameBook, SamePlaces};

use crate::ring_place::RingPlace;
use cast_config::Config;
use cast_text::MountName;
use caster_accounts::Book;
use mount_ring::Ring;
use session_core::{Bare, Flow, Last, Places, Receipt, Session};
use session_model::caps_of;
use std::alloc::{AllocError, Global};
use std::marker::Model;
use std::mem;
use turn_log::{Desk, Played, Turns};

/// One place at the ring of each mountpoint, in the order of their numbers, and a desk at the book.
///
/// Contracts see what no call changes of them, and all calls so far.
#[derive(Drop)]
pub(crate) struct Desks<P: Turns<Ring>> {
    pub(crate) places: Places<P, Desk<Book>>,
}

impl<P: Turns<Ring>> Model for Desks<P> {
    ghost use Rattle.std.specs.Prelude.{map};
    ghost use Rattle.session_model.specs.Called.{seen_at};
    ghost use Rattle.caster_replay.specs.Caster.{DesksValue};

    ghost Value = { DesksValue };

    ghost view = { λ d. record {
      rings = map P.shape d.places.rings.items;
      book = ⟦<Desk<Book> as Turns<Book>>⟧.shape d.places.book;
      homes = map P.home d.places.rings.items;
      seen = seen_at P.seen (⟦<Desk<Book> as Turns<Book>>⟧.seen) d.places.rings.items
          d.places.book;
    } };
}

/// The place at a new ring of each mountpoint, in the order of their numbers.
fn rings_of<P: RingPlace>(alloc: Global, config: &Config) -> Result<Vec<P>, AllocError>
    requires kept { (cap : ℕ) × KeepsRules cap config.now }
    ensures { IfOk result (λ rings. AreNew P.Turns config.now rings.items) }
{
    let mut rings = Vec::new(alloc);
    for number in 0..config.mount.as_slice().len() {
        let Ok(place) = P::open(alloc, config, number as u32) else {
            drop(rings);
            return Err(AllocError);
        };
        let Ok(()) = rings.push(place) else {
            drop(rings);
            return Err(AllocError);
        };
    }
    Ok(rings)
}

/// The desk at a new book of the accounts.
fn book_of(alloc: Global, config: &Config) -> Result<Desk<Book>, AllocError>
    ensures shape { IfOk result (λ book.
        ⟦<Desk<Book> as Turns<Book>>⟧.shape book ≡ caps config.now) }
    ensures uncalled { IfOk result (λ book. ⟦<Desk<Book> as Turns<Book>>⟧.seen book ≡ []) }
{
    let caps = caps_of(alloc, config)?;
    Ok(Desk::new(Book::new(alloc, &caps)?))
}

impl<P: RingPlace> Desks<P> {
    /// The desks of a caster with this configuration, at which nothing was called.
    pub(crate) fn new(alloc: Global, config: &Config) -> Result<Desks<P>, AllocError>
        requires kept { (cap : ℕ) × KeepsRules cap config.now }
        ensures places { IfOk result (λ desks. ArePlaces config.now desks) }
        ensures uncalled { IfOk result (λ desks. desks.seen ≡ nothing_called config.now) }
    {
        let rings = rings_of(alloc, config)?;
        let book = book_of(alloc, config)?;
        Ok(Desks {
            places: Places { rings, book },
        })
    }

    /// How many frames the mountpoint of this number published, none where there is none.
    pub(crate) fn published(&self, mount: u32) -> u64
        ensures { result ≡ length (state_of (history_at self.now.seen.rings mount)).published }
    {
        match self.places.rings.as_slice().get(mount as usize) {
            Some(place) => place.ring().published(),
            None => 0,
        }
    }

    /// The places at the rings.
    pub(crate) fn rings(&self) -> &[P]
        ensures { AreRings P.Turns self.now result.now }
    {
        self.places.rings.as_slice()
    }

    /// The book of accounts.
    pub(crate) fn book(&self) -> &Book
        ensures stands { ⟦<Book as Played>⟧.stands result.now self.now.seen.book }
        ensures shape { ⟦<Book as Played>⟧.shape result.now ≡ self.now.book }
    {
        self.places.book.value()
    }

    /// Takes these places at the rings, and gives those that there were.
    pub(crate) fn replace_rings(&mut self, rings: Vec<P>) -> Vec<P>
        ensures gives { AreRings P.Turns self.old result.items }
        ensures takes { AreRings P.Turns self.new rings.items }
        ensures book { SameBook self.old self.new }
    {
        mem::replace(&mut self.places.rings, rings)
    }

    /// Bytes come in on a session that goes on; its reply is appended.
    pub(crate) fn feed(
        &mut self,
        session: &mut Session,
        config: &Config,
        table: &[u8],
        bytes: &[u8],
        out: &mut Vec<u8>,
    )
        requires goes_on { session.old.ended ≡ None }
        requires kept { (cap : ℕ) × KeepsRules cap config.now }
        requires table { table.now ≡ setting.table config.now }
        requires places { ArePlaces config.now self.old }
        requires follows { Follows config.now session.old self.old.seen (length bytes.now) }
        ensures same { SamePlaces self.old self.new }
        ensures me { session.new.me ≡ session.old.me }
        ensures fed { Feeds config.now self.old.seen self.new.seen session.old session.new
            bytes.now out.old.items out.new.items }
    {
        session.feed(config, table, bytes, &mut self.places, out);
    }

    /// A session that goes on takes a turn; its frames are appended. It ends only where it is
    /// halted.
    pub(crate) fn turn(&mut self, session: &mut Session, budget: u32, out: &mut Vec<u8>) -> Flow
        requires goes_on { session.old.ended ≡ None }
        requires follows { (c : ConfigValue) × ArePlaces c self.old
            × Follows c session.old self.old.seen 0 }
        ensures same { SamePlaces self.old self.new }
        ensures me { session.new.me ≡ session.old.me }
        ensures flow { result ≡ flow_of session.new.ended }
        ensures halts { IfSome session.new.ended (λ end. IsTrue (is_halt end)) }
        ensures turned { (c : ConfigValue) → ArePlaces c self.old → TakesTurn c self.old.seen
            self.new.seen session.old session.new budget out.old.items out.new.items }
    {
        session.turn(budget, &mut self.places, out)
    }

    /// A session is closed.
    pub(crate) fn close(&mut self, session: Session, last: Last) -> Receipt
        requires follows { (c : ConfigValue) × ArePlaces c self.old
            × Follows c session self.old.seen 0 }
        ensures same { SamePlaces self.old self.new }
        ensures closed { (c : ConfigValue) → ArePlaces c self.old
            → Closes c self.old.seen self.new.seen session last result }
    {
        session.close(last, &mut self.places)
    }

    /// A connection without head and reply opens.
    pub(crate) fn bare(
        &mut self,
        alloc: Global,
        config: &Config,
        me: u32,
        role: Bare,
        mount: &MountName,
    ) -> Result<Session, AllocError>
        requires kept { (cap : ℕ) × KeepsRules cap config.now }
        requires places { ArePlaces config.now self.old }
        ensures same { SamePlaces self.old self.new }
        ensures me { IfOk result (λ session. session.me ≡ me) }
        ensures opened { IfOk result (λ session. Opens config.now self.old.seen self.new.seen
            session (bare_opening role mount.now) []) }
    {
        Session::bare(alloc, config, me, role, mount, &mut self.places)
    }
}
