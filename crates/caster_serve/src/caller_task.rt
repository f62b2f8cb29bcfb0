//! What the callers of a caster do: each serves over a door or over a link.

ghost use Rattle.std.specs.Prelude.{◌≡◌};
ghost use Rattle.caster_serve.specs.Endpoints.{unserved};

use caster_accounts::Sum;

/// What one caller of a caster serves over.
#[derive(Drop)]
pub enum Endpoint<D, L> {
    /// A worker serves the links of this door.
    Door(D),
    /// The relay of this number, from 0, asks over this link.
    Link(u32, L),
}

/// What one caller of a caster does: what it serves over, what the rovers that it served add up to,
/// and how many connections it served.
#[derive(Drop)]
pub struct CallerTask<D, L> {
    /// What it serves over.
    pub end: Endpoint<D, L>,
    /// What its rovers add up to.
    pub tally: Sum,
    /// How many connections it served.
    pub served: u64,
}

impl<D, L> CallerTask<D, L> {
    /// Over this end, nothing was served yet.
    pub fn new(end: Endpoint<D, L>) -> CallerTask<D, L>
        ensures { result ≡ unserved end }
    {
        CallerTask {
            end,
            tally: Sum::default(),
            served: 0,
        }
    }
}
