//! The porter at its booth, as a caller at a press.

ghost use Rattle.std.specs.Prelude.{◌≡◌};
ghost use Rattle.caster_keep.specs.Stations.{booth_of};

use crate::porter::Porter;
use crate::waiting::wait;
use cast_config::Config;
use cast_console::Console;
use caster_press::{AtPress, Writer};
use caster_seats::{AtPlaces, SeatedCaller};
use std::sync::Wait;

/// The porter at the seats of the locks.
pub(crate) struct Booth<'a, C, R: Wait + Sync> {
    config: &'a Config,
    hand: SeatedCaller<'a, Porter<C>, R>,
}

/// A booth as clauses see it.
pub(crate) trait AtBooth<C> {
    ghost use Rattle.caster_keep.specs.Stations.{BoothTold};

    /// What is told of it.
    ghost told: { Self → BoothTold C };
}

impl<'a, C, R: Wait + Sync> AtBooth<C> for Booth<'a, C, R> {
    ghost use Rattle.caster_keep.specs.Stations.{booth_of};

    ghost told = { λ booth. booth_of booth.config.now
        (⟦<SeatedCaller<'a, Porter<C>, R> as AtPlaces<Porter<C>>>⟧.told booth.hand) };
}

impl<'a, C, R: Wait + Sync> Booth<'a, C, R> {
    /// The booth of this hand.
    pub(crate) fn new(config: &'a Config, hand: SeatedCaller<'a, Porter<C>, R>) -> Booth<'a, C, R>
        ensures { ⟦<Booth<'a, C, R> as AtBooth<C>>⟧.told result ≡ booth_of config.now
            (⟦<SeatedCaller<'a, Porter<C>, R> as AtPlaces<Porter<C>>>⟧.told hand.entry) }
    {
        Booth { config, hand }
    }

    /// Its hand.
    pub(crate) fn into_hand(self) -> SeatedCaller<'a, Porter<C>, R>
        ensures { ⟦<SeatedCaller<'a, Porter<C>, R> as AtPlaces<Porter<C>>>⟧.told result
            ≡ (⟦<Booth<'a, C, R> as AtBooth<C>>⟧.told self.entry).hand }
    {
        let Booth { config: _, hand } = self;
        hand
    }
}

impl<'a, C: Console + Send, R: Wait + Sync> Writer for Booth<'a, C, R> {
    ghost use Rattle.caster_keep.specs.Stations.{HasWaitedOn, MayWait};

    ghost ready = { λ booth. MayWait (⟦<Booth<'a, C, R> as AtBooth<C>>⟧.told booth) };

    ghost wrote = { λ old new lines. HasWaitedOn C.told
        (⟦<Booth<'a, C, R> as AtBooth<C>>⟧.told old) (⟦<Booth<'a, C, R> as AtBooth<C>>⟧.told new)
        lines };

    fn write<P: AtPress, Q: Wait>(&mut self, rt: &Q, place: &mut P, me: u32) {
        let hand = &mut self.hand;
        let number = hand.number;
        wait(
            rt,
            self.config,
            &mut hand.places,
            number,
            &mut hand.work.console,
            place,
            me,
        );
    }
}
