//! The locks of a caster are opened, and a worker sits down at them.

ghost use Rattle.std.specs.Prelude.{◌≡◌, ◌<◌, ℕ, length, IfOk};
ghost use mathlib.Core.Option.{some};
ghost use lib.ListN.{get_elem?};
ghost use Rattle.cast_config.specs.Kept.{KeepsRules};
ghost use Rattle.caster_places.specs.Known.{Fit};
ghost use Rattle.caster_places.specs.Rows.{AreAt};
ghost use Rattle.session_core.specs.Setups.{IsSetUp};
ghost use Rattle.caster_seats.specs.Sharing.{AreNewPasses, AreOpenFor, ArePassesOf, IsReady, seen_by};

use crate::locks::{open_book, open_rings};
use crate::passes::deal_out;
use crate::seats::sit_down;
use crate::shared::{Passes, Shared};
use cast_config::Config;
use caster_accounts::Book;
use caster_places::AllPlaces;
use config_table::table_text;
use mount_ring::Ring;
use session_core::{Places, Setup};
use std::alloc::{AllocError, Global};
use std::sync::Wait;
use turn_log::{Seat, Turn};

impl<'c> Shared<'c> {
    /// What so many workers share, at least one, at locks where nothing was called yet; and the
    /// passes of each worker, in the order of their numbers.
    pub fn new(
        alloc: Global,
        config: &'c Config,
        passes: u32,
    ) -> Result<(Shared<'c>, Vec<Passes>), AllocError>
        requires kept { (cap : ℕ) × KeepsRules cap config.now }
        requires some_pass { 0 < passes }
        ensures config { IfOk result (λ opened. opened.0.config.now ≡ config.now) }
        ensures ready { IfOk result (λ opened. IsReady opened.0) }
        ensures count { IfOk result (λ opened. length opened.1.items ≡ passes) }
        ensures each { IfOk result (λ opened. (number : ℕ) (passes : _)
            → get_elem? opened.1.items number ≡ some passes
            → AreNewPasses number passes opened.0) }
        ensures passes { IfOk result (λ opened. AreOpenFor passes opened.0) }
    {
        let table = table_text(alloc, config)?;
        let (rings, piles) = open_rings(alloc, config, passes)?;
        let (book, of_book) = open_book(alloc, config, passes)?;
        let shared = Shared {
            config,
            table,
            rings,
            book,
        };
        let list = deal_out(alloc, &shared, piles, of_book, passes)?;
        Ok((shared, list))
    }

    /// What stays the same while connections are served as this caller.
    pub fn setup(&self, alloc: Global, me: u32) -> Setup<'_>
        requires ready { IsReady self.now }
        ensures ready { IsSetUp result }
        ensures config { result.config.now ≡ self.now.config.now }
        ensures me { result.me ≡ me }
    {
        Setup {
            alloc,
            config: self.config,
            table: &self.table,
            me,
        }
    }

    /// Sits down at the locks with these passes, which are of one number. Where there is no memory,
    /// they are given up.
    pub fn places<'a, R: Wait + Sync>(
        &'a self,
        rt: &'a R,
        alloc: Global,
        passes: Passes,
    ) -> Result<Places<Seat<'a, Ring, R>, Seat<'a, Book, R>>, AllocError>
        requires ready { IsReady self.now }
        requires passes { (number : ℕ) × ArePassesOf number passes self.now }
        ensures fit { IfOk result (λ places. (number : ℕ) → ArePassesOf number passes self.now
            → Fit self.now.config.now number
            (⟦<Places<Seat<'a, Ring, R>, Seat<'a, Book, R>> as AllPlaces>⟧.known places)) }
        ensures seen { IfOk result (λ places.
            ⟦<Places<Seat<'a, Ring, R>, Seat<'a, Book, R>> as AllPlaces>⟧.seen places
            ≡ seen_by passes) }
        ensures at { IfOk result (λ places. (number : ℕ) → ArePassesOf number passes self.now
            → AreAt number
            (⟦<Places<Seat<'a, Ring, R>, Seat<'a, Book, R>> as AllPlaces>⟧.known places)
            self.now.rings.items self.now.book) }
    {
        let Passes { rings, book } = passes;
        let mut seats = Vec::with_capacity(alloc, rings.len())?;
        sit_down(rt, &self.rings, &mut seats, rings);
        Ok(Places {
            rings: seats,
            book: self.book.seat(rt, book),
        })
    }
}
