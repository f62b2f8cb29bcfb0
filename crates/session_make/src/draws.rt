//! Draws: a stream of random-looking numbers that its first state decides.

ghost use Rattle.std.specs.Prelude.{◌≡◌, ◌<◌};
ghost use Rattle.session_make.specs.Draws.{next_state, number_below};

/// The multiplier of the generator.
const MULTIPLIER: u64 = 6_364_136_223_846_793_005;

/// The increment of the generator.
const INCREMENT: u64 = 1_442_695_040_888_963_407;

/// A linear congruential generator modulo 2^64.
#[derive(Debug, Drop)]
pub(crate) struct Draws {
    pub state: u64,
}

impl Draws {
    /// The next number of the stream, below this bound: of the upper 31 bits of the next state.
    #[tactic(auto, unfolding(crate::specs::Draws::next_state, crate::specs::Draws::number_below))]
    pub fn draw(&mut self, bound: u32) -> u32
        requires { 0 < bound }
        ensures state { self.new.state ≡ next_state self.old.state }
        ensures number { result ≡ number_below bound self.new.state }
        ensures below { result < bound }
    {
        self.state = self.state.wrapping_mul(MULTIPLIER).wrapping_add(INCREMENT);
        (self.state >> 33) as u32 % bound
    }
}
