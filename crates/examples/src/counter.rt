//! The smallest object that takes turns: it counts them.
ghost use Rattle.std.specs.Prelude.{◌≡◌, length};

use turn_log::Played;

/// How many turns were taken.
#[derive(Drop)]
pub struct Counter {
    pub turns: u64,
}

impl Played for Counter {
    ghost use Rattle.std.specs.Prelude.{◌≡◌, true, refl, length};
    ghost use Rattle.std.specs.Coded.{Coded-set, coded_ℕ};

    type Call = ();

    type Answer = u64;

    type Room = ();

    type Shape = ();

    ghost shape = { λ counter. tt };

    ghost stands = { λ counter h. counter.turns ≡ length h };

    ghost stands_once = { λ counter h. Coded-set coded_ℕ counter.turns (length h) };

    ghost fits = { λ _ h me call. true };

    ghost answer = { λ _ h me call. length h };

    ghost filled = { λ _ h me call room. room };

    fn play(&mut self, me: u32, call: (), room: &mut ()) -> u64 {
        let number = self.turns;
        self.turns += 1;
        number
    }

    ghost still_fits = { λ _ h me by call other fits apart fitting. refl };
}
