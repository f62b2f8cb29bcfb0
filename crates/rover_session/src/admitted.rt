//! What a rover was admitted to.
ghost use Rattle.std.specs.Prelude.{◌≡◌, ◌≤◌, false, All, length};
ghost use Rattle.base_select.specs.Measure.{IsOnEarth};

use base_select::Base;
use ntrip_head::Version;

/// What a rover was admitted to, and how it is served. Nothing changes it.
#[derive(Debug, Drop)]
pub(crate) struct Admitted {
    pub(crate) version: Version,
    pub(crate) me: u32,
    pub(crate) filter: u32,
    pub(crate) hysteresis: u32,
    pub(crate) near: bool,
    pub(crate) bases: Vec<Base>,
    ghost percent: { hysteresis ≤ 50 },
    ghost on_earth: { All (λ base. IsOnEarth base.at) bases.items },
    ghost one: { near ≡ false → length bases.items ≡ 1 },
}
