//! A keeper at its post, as a caller at a press.

ghost use Rattle.std.specs.Prelude.{◌≡◌};
ghost use Rattle.caster_keep.specs.Stations.{posted};

use crate::gate_loop::keep_gate;
use crate::keeper::Keeper;
use cast_config::Config;
use cast_io::{Gate, Link};
use caster_press::{AtPress, Writer};
use caster_seats::{AtPlaces, SeatedCaller};
use session_core::Setup;
use std::alloc::Global;
use std::sync::Wait;

/// A keeper at the seats of the locks, with all that it needs to serve there.
pub(crate) struct Post<'a, G: Gate, R: Wait + Sync> {
    alloc: Global,
    config: &'a Config,
    table: &'a [u8],
    hand: SeatedCaller<'a, Keeper<G>, R>,
}

/// A post as clauses see it.
pub(crate) trait AtPost<G> {
    ghost use Rattle.caster_keep.specs.Stations.{PostTold};

    /// What is told of it.
    ghost told: { Self → PostTold G };
}

impl<'a, G: Gate, R: Wait + Sync> AtPost<G> for Post<'a, G, R> {
    ghost use Rattle.caster_keep.specs.Stations.{posted};

    ghost told = { λ post. posted post.config.now post.table.now
        (⟦<SeatedCaller<'a, Keeper<G>, R> as AtPlaces<Keeper<G>>>⟧.told post.hand) };
}

impl<'a, G: Gate, R: Wait + Sync> Post<'a, G, R> {
    /// The post of this hand.
    pub(crate) fn new(
        alloc: Global,
        config: &'a Config,
        table: &'a [u8],
        hand: SeatedCaller<'a, Keeper<G>, R>,
    ) -> Post<'a, G, R>
        ensures { ⟦<Post<'a, G, R> as AtPost<G>>⟧.told result ≡ posted config.now table.now
            (⟦<SeatedCaller<'a, Keeper<G>, R> as AtPlaces<Keeper<G>>>⟧.told hand.entry) }
    {
        Post {
            alloc,
            config,
            table,
            hand,
        }
    }

    /// Its hand.
    pub(crate) fn into_hand(self) -> SeatedCaller<'a, Keeper<G>, R>
        ensures { ⟦<SeatedCaller<'a, Keeper<G>, R> as AtPlaces<Keeper<G>>>⟧.told result
            ≡ (⟦<Post<'a, G, R> as AtPost<G>>⟧.told self.entry).hand }
    {
        let Post {
            alloc: _,
            config: _,
            table: _,
            hand,
        } = self;
        hand
    }
}

impl<'a, L: Link + Send, G: Gate<Link = L> + Send, R: Wait + Sync> Writer for Post<'a, G, R> {
    ghost use Rattle.caster_keep.specs.Stations.{HasWorkedOn, MayKeep};

    ghost ready = { λ post. MayKeep (⟦<Post<'a, G, R> as AtPost<G>>⟧.told post) };

    ghost wrote = { λ old new lines. HasWorkedOn G.told G.over G.peer
        (⟦<Post<'a, G, R> as AtPost<G>>⟧.told old) (⟦<Post<'a, G, R> as AtPost<G>>⟧.told new)
        lines };

    fn write<P: AtPress, Q: Wait>(&mut self, rt: &Q, place: &mut P, me: u32) {
        let setup = Setup {
            alloc: self.alloc,
            config: self.config,
            table: self.table,
            me: self.hand.number,
        };
        let hand = &mut self.hand;
        let stop = keep_gate(rt, &setup, &mut hand.places, &mut hand.work, place, me);
        hand.work.stop = Some(stop);
    }
}
