//! What one caller does that keeps serving.

ghost use Rattle.std.specs.Prelude.{◌≡◌};
ghost use Rattle.caster_keep.specs.Stations.{new_keeper};

use crate::stop::Stop;
use caster_link::Role;
use caster_serve::Tally;

/// What one caller does: it serves the links of this gate in this role until it stops.
#[derive(Drop)]
pub struct Keeper<G> {
    /// Its gate.
    pub gate: G,
    /// How its links are served.
    pub role: Role,
    /// What the rovers that it served add up to.
    pub tally: Tally,
    /// How many links it served.
    pub count: u64,
    /// Why it stopped, once it has.
    pub stop: Option<Stop>,
}

impl<G> Keeper<G> {
    /// In this role at this gate, nothing was served yet.
    pub fn new(role: Role, gate: G) -> Keeper<G>
        ensures { result ≡ new_keeper role gate }
    {
        Keeper {
            gate,
            role,
            tally: Tally::default(),
            count: 0,
            stop: None,
        }
    }
}
